// What a server holds: the value of each attribute and the data version of each cluster (RULES 2).

#![tactic(auto)]

ghost use Rattle.std.specs.Prelude.{◌≡◌, ◌<◌};
ghost use Rattle.base_bounds.specs.Bounds.{attribute_limit};
ghost use Rattle.server_values.specs.Values.{rank_text, mark_of, mark_at, text_at, value_at};

use base_bounds::{ATTRIBUTES, CLUSTERS};
use node_kinds::stored::value_of;
use node_plan::decode::kind_of;
use node_plan::pages::shown;
use node_schema::{TEXTS, WORDS};
use tlv_reader::Value;

pub mod change; // change.rt: whether a value differs from the one held, and storing it
pub mod fresh; // fresh.rt: what a fresh server holds
pub mod pages; // pages.rt: whether the texts shown from a page are valid
pub mod quick; // quick.rt: a quick test of values and pages
pub mod valid; // valid.rt: whether values and pages keep the rules

#[derive(Clone, Copy)]
pub struct Values {
    // Each attribute's value as 64 bits; of a text 0.
    pub words: [u64; ATTRIBUTES],
    pub nulls: [bool; ATTRIBUTES],
    // A mark for each text, by its rank: 0 never changed, shown from the page of defaults; n + 1 changed, n bytes of its place in the page of edits.
    pub texts: [u16; TEXTS],
    // Each cluster's data version.
    pub versions: [u32; CLUSTERS],
}

// The mark of a rank; 0 where there is none.
pub fn mark_of(texts: &[u16; TEXTS], rank: usize) -> u16
    ensures { result ≡ mark_of texts.now rank }
{
    if rank < TEXTS { texts[rank] } else { 0 }
}

// The shown text of a rank, by its mark.
pub fn rank_text<'a>(
    w: &'a [u64; WORDS],
    defaults: &'a [u8],
    edits: &'a [u8],
    rank: usize,
    mark: u16,
) -> &'a [u8]
    ensures { result.now ≡ rank_text w.now defaults.now edits.now rank mark }
{
    let start = node_schema::factory_start(w, rank);
    let len = node_schema::factory_length(w, rank);
    shown(defaults, edits, start, len, rank, mark)
}

// The shown text of attribute i; empty if it is no text.
pub fn text_at<'a>(
    w: &'a [u64; WORDS],
    defaults: &'a [u8],
    edits: &'a [u8],
    i: usize,
    texts: &'a [u16; TEXTS],
) -> &'a [u8]
    requires { i < attribute_limit }
    ensures { result.now ≡ text_at w.now defaults.now edits.now i (mark_at w.now texts.now i) }
{
    if !node_schema::is_text(w, i) {
        return &defaults[0..0];
    }
    let rank = node_schema::first_value(w, i) as usize;
    rank_text(w, defaults, edits, rank, mark_of(texts, rank))
}

// The value of attribute i; a text has len bytes at the start of its shown part.
pub fn value_at(w: &[u64; WORDS], i: usize, word: u64, null: bool, len: usize) -> Value
    requires { i < attribute_limit }
    ensures { result ≡ value_at w.now i word null len }
{
    let kind = kind_of(w, i);
    if node_schema::is_text(w, i) {
        return value_of(kind, len as u64, null, 0);
    }
    value_of(kind, word, null, 0)
}
