// What an attribute holds, beside its first value, against its limits: asked of every attribute at every call of a server. So the limits are compared as the
// schema's words, with no `Kind` made of them, and the kind is found by comparisons: a `match` of five becomes a table of jumps, which is slower.
ghost use Rattle.std.specs.Prelude.{◌≡◌, false, ◌&&◌, ◌<◌, ◌≤◌, eqb};
ghost use Rattle.base_bounds.specs.Bounds.{attribute_limit};
ghost use Rattle.node_kinds.specs.Stored.{held};
ghost use Rattle.node_schema.specs.Layout.{text_kind};
ghost use Rattle.node_schema.specs.Rows.{attribute_row, is_text};
ghost use Rattle.node_plan.specs.Attributes.{kind_of};
ghost use Rattle.node_plan.specs.Check.{number_right};
ghost use Rattle.node_plan.specs.Held.{floats_right, words_right};

use super::first::{signed_ok, unsigned_within};
use super::{FLOAT, SIGNED, UNSIGNED};
use node_kinds::float::range_holds;
use node_schema::{HALF, TEXT, WORDS};

// A float's limits, its first value and the value held. That all four have 32 bits, their OR tells.
fn floats_ok(low: u64, high: u64, first: u64, word: u64) -> bool
    ensures { result ≡ floats_right low high first word }
{
    if HALF <= (low | high | first | word) {
        return false;
    }
    range_holds(low as u32, high as u32, first as u32, word as u32)
}

// The limits, the first value and the value held, by the kind's code, which is neither a boolean's nor a text's.
fn words_ok(code: u64, low: u64, high: u64, first: u64, word: u64) -> bool
    requires { (1 ≤ code) × (code ≡ text_kind → ⊥) }
    ensures { result ≡ words_right code low high first word }
{
    if code < SIGNED {
        return unsigned_within(low, first, high) & unsigned_within(low, word, high);
    }
    if code < FLOAT {
        return signed_ok(low, first, high) & signed_ok(low, word, high);
    }
    if code < TEXT {
        return floats_ok(low, high, first, word);
    }
    (first <= 1) & (word <= 1)
}

// Whether the limits of attribute i, which is no text, allow its first value, and what it holds if that is not null.
pub fn limits_hold(w: &[u64; WORDS], i: usize, word: u64) -> bool
    requires { (i < attribute_limit) × (is_text (attribute_row w.now i) ≡ false) }
    ensures { result ≡ (number_right (attribute_row w.now i) && held (kind_of (attribute_row w.now i)) (eqb (attribute_row w.now i).nullable 1) word false) }
{
    let code = node_schema::kind_code(w, i);
    let first = node_schema::first_value(w, i);
    if code < UNSIGNED {
        return (first <= 1) & (word <= 1);
    }
    let low = node_schema::lowest(w, i);
    let high = node_schema::highest(w, i);
    words_ok(code, low, high, first, word)
}
