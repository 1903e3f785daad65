// First values: whether the limits allow them. Numbers and texts are two loops, since a server judges the numbers at every call, and the bytes of a
// factory text only where it is shown. A word that a kind does not use (a boolean's lowest and highest) is not looked at: RULES 2.6 has no limit there.
ghost use Rattle.std.specs.Prelude.{◌≡◌, ◌<◌};
ghost use Rattle.std.specs.Int.{w64};
ghost use Rattle.std.proofs.Common.{to_z};
ghost use Rattle.base_bounds.specs.Bounds.{attribute_limit};
ghost use Rattle.node_kinds.specs.Limits.{between, between_z};
ghost use Rattle.node_schema.specs.Rows.{attribute_row};
ghost use Rattle.node_plan.specs.Check.{float_right, number_right, factory_right, numbers_right, texts_right};

use super::{FLOAT, SIGNED, UNSIGNED};
use base_bounds::TEXT_MAX;
use node_kinds::float::range_ok;
use node_kinds::stored::signed_of;
use node_schema::{HALF, TEXT, WORDS};

pub fn unsigned_within(low: u64, n: u64, high: u64) -> bool
    ensures { result ≡ between low n high }
{
    if low <= n { n <= high } else { false }
}

fn signed_within(low: i64, z: i64, high: i64) -> bool
    ensures { result ≡ between_z low z high }
{
    if low <= z { z <= high } else { false }
}

// Signed numbers in two's complement, compared by value.
pub fn signed_ok(low: u64, n: u64, high: u64) -> bool
    ensures { result ≡ between_z (to_z w64 low) (to_z w64 n) (to_z w64 high) }
{
    signed_within(signed_of(low), signed_of(n), signed_of(high))
}

// A float's lowest, highest and first value: 32 bits each, finite and in order.
pub fn float_ok(low: u64, high: u64, first: u64) -> bool
    ensures { result ≡ float_right low high first }
{
    if HALF <= low {
        return false;
    }
    if HALF <= high {
        return false;
    }
    if HALF <= first {
        return false;
    }
    range_ok(low as u32, high as u32, first as u32)
}

// Whether the limits allow the first value of attribute i, if it is no text.
pub fn first_ok(w: &[u64; WORDS], i: usize) -> bool
    requires { i < attribute_limit }
    ensures { result ≡ number_right (attribute_row w.now i) }
{
    let code = node_schema::kind_code(w, i);
    let low = node_schema::lowest(w, i);
    let high = node_schema::highest(w, i);
    let first = node_schema::first_value(w, i);
    match code {
        UNSIGNED => unsigned_within(low, first, high),
        SIGNED => signed_ok(low, first, high),
        FLOAT => float_ok(low, high, first),
        TEXT => true,
        _ => first <= 1,
    }
}

// A factory text lies in the page of defaults, is at most TEXT_MAX bytes long and well-formed.
pub fn factory_ok(defaults: &[u8], start: usize, len: usize) -> bool
    ensures { result ≡ factory_right defaults.now start len }
{
    if TEXT_MAX < len {
        return false;
    }
    if defaults.len() < len {
        return false;
    }
    if defaults.len() - len < start {
        return false;
    }
    base_utf8::valid(&defaults[start..start + len])
}

// Every first value that is no text.
pub fn numbers_ok(w: &[u64; WORDS]) -> bool
    ensures { result ≡ numbers_right w.now }
{
    let n = node_schema::attribute_count(w);
    for i in 0..n {
        if !first_ok(w, i) {
            return false;
        }
    }
    true
}

// Every factory text.
pub fn texts_ok(w: &[u64; WORDS], defaults: &[u8]) -> bool
    ensures { result ≡ texts_right w.now defaults.now }
{
    let n = node_schema::texts::text_count(w);
    for rank in 0..n {
        let start = node_schema::factory_start(w, rank);
        let len = node_schema::factory_length(w, rank);
        if !factory_ok(defaults, start, len) {
            return false;
        }
    }
    true
}
