// Whether what a server holds keeps the rules: refusal 2 (RULES 6.1) where it does not. It is asked at every call: a quick test first (quick.rt), and where
// that does not pass, every row and every shown text by itself. What a server made of itself always passes the quick test.
ghost use Rattle.std.specs.Prelude.{◌≡◌, ◌&&◌, ◌<◌, ◌≤◌, take, drop};
ghost use Rattle.base_bounds.specs.Bounds.{attribute_limit};
ghost use Rattle.node_schema.specs.Layout.{text_limit};
ghost use Rattle.node_schema.specs.Check.{ranks_right};
ghost use Rattle.node_plan.specs.Check.{numbers_right, texts_right};
ghost use Rattle.server_values.specs.Values.{mark_at, rank_text, rank_length};
ghost use Rattle.server_values.specs.Valid.{shown_right, shown_at, all_shown, held_right};

use super::mark_of;
use super::quick::{MARK_MAX, all_quick, is_quick, nulls_ok};
use base_bounds::{ATTRIBUTES, TEXT_MAX};
use node_plan::first::texts_ok;
use node_plan::pages::{part, place_of};
use node_schema::{TEXTS, WORDS};

// A text of at most TEXT_MAX bytes lies in its page, whole, and is valid UTF-8.
fn part_ok(page: &[u8], start: usize, len: usize) -> bool
    ensures { result ≡ shown_right (take len (drop start page.now)) len }
{
    if TEXT_MAX < len {
        return false;
    }
    let text = part(page, start, len);
    if text.len() != len {
        return false;
    }
    base_utf8::valid(text)
}

// The text of a rank that is not null.
fn rank_ok<'a>(
    w: &'a [u64; WORDS],
    defaults: &'a [u8],
    edits: &'a [u8],
    rank: usize,
    mark: u16,
) -> bool
    requires { (mark ≡ 0 → ⊥) → rank < text_limit }
    ensures { result ≡ shown_right (rank_text w.now defaults.now edits.now rank mark) (rank_length w.now rank mark) }
{
    if mark == 0 {
        let start = node_schema::factory_start(w, rank);
        return part_ok(defaults, start, node_schema::factory_length(w, rank));
    }
    part_ok(edits, place_of(rank), (mark - 1) as usize)
}

// The mark of attribute i, if it is a text, and what it shows, if it is not null.
fn text_ok<'a>(
    w: &'a [u64; WORDS],
    defaults: &'a [u8],
    edits: &'a [u8],
    i: usize,
    null: bool,
    texts: &'a [u16; TEXTS],
) -> bool
    requires { i < attribute_limit }
    ensures { result ≡ shown_at w.now defaults.now edits.now i null (mark_at w.now texts.now i) }
{
    if !node_schema::is_text(w, i) {
        return true;
    }
    let rank = node_schema::first_value(w, i) as usize;
    let mark = mark_of(texts, rank);
    if MARK_MAX < mark {
        return false;
    }
    if null {
        return true;
    }
    rank_ok(w, defaults, edits, rank, mark)
}

// Every shown text.
fn all_texts<'a>(
    w: &'a [u64; WORDS],
    defaults: &'a [u8],
    edits: &'a [u8],
    nulls: &'a [bool; ATTRIBUTES],
    texts: &'a [u16; TEXTS],
) -> bool
    ensures { result ≡ all_shown w.now defaults.now edits.now nulls.now texts.now }
{
    let n = node_schema::attribute_count(w);
    for i in 0..n {
        if !text_ok(w, defaults, edits, i, nulls[i], texts) {
            return false;
        }
    }
    true
}

// The same as `values_ok`, looked at closely: the factory texts, then the rows of the quick test, but with every text taken for a changed one of no bytes, so
// that nothing of what is shown is compared, and the rows are judged exactly, then every shown text.
fn all_right<'a>(
    w: &'a [u64; WORDS],
    defaults: &'a [u8],
    edits: &'a [u8],
    words: &'a [u64; ATTRIBUTES],
    nulls: &'a [bool; ATTRIBUTES],
    texts: &'a [u16; TEXTS],
) -> bool
    ensures { result ≡ (ranks_right w.now && (numbers_right w.now && (texts_right w.now defaults.now && held_right w.now defaults.now edits.now words.now nulls.now texts.now))) }
{
    if !texts_ok(w, defaults) {
        return false;
    }
    let n = node_schema::attribute_count(w);
    if !nulls_ok(w, words, nulls, n) {
        return false;
    }
    let all = [1u16; TEXTS];
    if !all_quick(w, words, nulls, &all, defaults.len() as u64, edits.len()) {
        return false;
    }
    all_texts(w, defaults, edits, nulls, texts)
}

// The ranks of the schema's texts, its first numbers, its factory texts, and all that is held: what no other test of a server looks at.
pub fn values_ok<'a>(
    w: &'a [u64; WORDS],
    defaults: &'a [u8],
    edits: &'a [u8],
    words: &'a [u64; ATTRIBUTES],
    nulls: &'a [bool; ATTRIBUTES],
    texts: &'a [u16; TEXTS],
) -> bool
    ensures { result ≡ (ranks_right w.now && (numbers_right w.now && (texts_right w.now defaults.now && held_right w.now defaults.now edits.now words.now nulls.now texts.now))) }
{
    if is_quick(w, defaults, edits, words, nulls, texts) {
        return true;
    }
    all_right(w, defaults, edits, words, nulls, texts)
}
