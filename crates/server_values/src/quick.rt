// The quick test of what a server holds, asked at every call: the texts of each page (pages.rt), and a few comparisons for each row. What it passes is right;
// what it does not pass is looked at closely (valid.rt).
ghost use Rattle.std.specs.Prelude.{◌≡◌, true, false, ◌&&◌, ◌<◌, ◌≤◌, ◌/◌, ◌%◌, eqb};
ghost use Rattle.base_bounds.specs.Bounds.{attribute_limit};
ghost use Rattle.node_schema.specs.Layout.{half};
ghost use Rattle.node_schema.specs.Rows.{attribute_row, count_of_attributes, is_text};
ghost use Rattle.node_schema.specs.Check.{every};
ghost use Rattle.server_values.specs.Quick.{some_null, near, null_at, number_quick, all_quick, quick_right};

use super::pages::{is_fit, text_room};
use base_bounds::{ATTRIBUTES, TEXT_MAX};
use node_plan::first::first_ok;
use node_plan::held::limits_hold;
use node_schema::{HALF, TEXT_SIZE, TEXTS, WORDS};

// The highest mark: that of a text of TEXT_MAX bytes.
pub const MARK_MAX: u16 = 201;

// Whether one of the first n attributes is null. No way out of the loop, so that it becomes vector code.
fn some_null(nulls: &[bool; ATTRIBUTES], n: usize) -> bool
    requires { n ≤ attribute_limit }
    ensures { result ≡ some_null nulls.now n }
{
    let mut found = false;
    for i in 0..n {
        found = found | nulls[i];
    }
    found
}

// Whether its pages have a text, where its factory text is this part (start, length) of a page of len bytes.
fn is_near(factory: u64, mark: u16, len: u64) -> bool
    ensures { result ≡ near (factory / half) (factory % half) mark len }
{
    if MARK_MAX < mark {
        return false;
    }
    let n = factory % HALF;
    if n > TEXT_MAX as u64 {
        return false;
    }
    factory / HALF + n <= len
}

// Whether what is stored of a null of attribute i is right: the attribute allows it, and its word is 0.
fn null_ok(w: &[u64; WORDS], i: usize, word: u64) -> bool
    requires { i < attribute_limit }
    ensures { result ≡ (eqb (attribute_row w.now i).nullable 1 && eqb word 0) }
{
    if node_schema::is_nullable(w, i) {
        word == 0
    } else {
        false
    }
}

// Every null of the first n attributes.
fn all_nulls<'a>(
    w: &'a [u64; WORDS],
    words: &'a [u64; ATTRIBUTES],
    nulls: &'a [bool; ATTRIBUTES],
    n: usize,
) -> bool
    requires { n ≤ attribute_limit }
    ensures { result ≡ every (null_at w.now words.now nulls.now) n }
{
    for i in 0..n {
        if nulls[i] {
            if !null_ok(w, i, words[i]) {
                return false;
            }
        }
    }
    true
}

// The same, at once where there is none.
pub fn nulls_ok<'a>(
    w: &'a [u64; WORDS],
    words: &'a [u64; ATTRIBUTES],
    nulls: &'a [bool; ATTRIBUTES],
    n: usize,
) -> bool
    requires { n ≤ attribute_limit }
    ensures { result ≡ every (null_at w.now words.now nulls.now) n }
{
    if !some_null(nulls, n) {
        return true;
    }
    all_nulls(w, words, nulls, n)
}

// A number. That it may be null is asked only where the limits do not allow what is stored: a null that there is has been looked at.
fn number_ok<'a>(
    w: &'a [u64; WORDS],
    words: &'a [u64; ATTRIBUTES],
    nulls: &'a [bool; ATTRIBUTES],
    i: usize,
) -> bool
    requires { (i < attribute_limit) × ((is_text (attribute_row w.now i) ≡ false) × (null_at w.now words.now nulls.now i ≡ true)) }
    ensures { result ≡ number_quick w.now words.now nulls.now i }
{
    if limits_hold(w, i, words[i]) {
        return true;
    }
    if nulls[i] { first_ok(w, i) } else { false }
}

// Every attribute by a few comparisons, with the ranks of the texts, which are counted on the way and give the size of the page of edits. The nulls have been
// looked at: asked here of each row they would take a tenth of the whole test.
pub fn all_quick<'a>(
    w: &'a [u64; WORDS],
    words: &'a [u64; ATTRIBUTES],
    nulls: &'a [bool; ATTRIBUTES],
    texts: &'a [u16; TEXTS],
    len: u64,
    size: usize,
) -> bool
    requires { every (null_at w.now words.now nulls.now) (count_of_attributes w.now) ≡ true }
    ensures { result ≡ all_quick w.now words.now nulls.now texts.now len size }
{
    let n = node_schema::attribute_count(w);
    let mut rank: usize = 0;
    for i in 0..n {
        if node_schema::is_text(w, i) {
            if node_schema::first_value(w, i) != rank as u64 {
                return false;
            }
            if words[i] != 0 {
                return false;
            }
            if !is_near(node_schema::factory_at(w, rank), texts[rank], len) {
                return false;
            }
            rank += 1;
        } else if !number_ok(w, words, nulls, i) {
            return false;
        }
    }
    size == TEXT_SIZE * rank
}

// The quick test: nulls, then every factory text, changed or not, and every changed text, null or not, then the rows.
pub fn is_quick<'a>(
    w: &'a [u64; WORDS],
    defaults: &'a [u8],
    edits: &'a [u8],
    words: &'a [u64; ATTRIBUTES],
    nulls: &'a [bool; ATTRIBUTES],
    texts: &'a [u16; TEXTS],
) -> bool
    ensures { result ≡ quick_right w.now defaults.now edits.now words.now nulls.now texts.now }
{
    let n = node_schema::attribute_count(w);
    if !nulls_ok(w, words, nulls, n) {
        return false;
    }
    let room = text_room(edits.len());
    let unmarked = [0u16; TEXTS];
    if !is_fit(w, defaults, &unmarked, room, true) {
        return false;
    }
    if !is_fit(w, edits, texts, room, false) {
        return false;
    }
    all_quick(w, words, nulls, texts, defaults.len() as u64, edits.len())
}
