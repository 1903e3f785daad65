// Storing a value: it moves nothing unless it differs from the one held.
ghost use Rattle.std.specs.Prelude.{◌≡◌, List, ℕ, ◌<◌, set};
ghost use Rattle.base_bounds.specs.Bounds.{cluster_limit, attribute_limit};
ghost use Rattle.tlv_reader.specs.Octet.{pick};
ghost use Rattle.tlv_reader.specs.Value.{datum_in};
ghost use Rattle.node_schema.specs.Rows.{attribute_row};
ghost use Rattle.server_values.specs.Values.{values_of, mark_at, text_at};
ghost use Rattle.server_values.specs.Change.{text_of, is_text, word_for, mark_for, differs_from, set_at, edits_set, MarkFits, TextFits, stored_values, stored_edits};

use super::text_at;
use base_bounds::{ATTRIBUTES, CLUSTERS};
use node_kinds::limits::is_null;
use node_kinds::stored::{next_version, same_bytes, word_of};
use node_plan::pages::{part, store_text};
use node_schema::{TEXTS, WORDS};
use tlv_reader::Value;

// The bytes of a text in its message; none of any other value.
pub fn bytes_of(v: Value, src: &[u8]) -> &[u8]
    ensures { result.now ≡ text_of (datum_in src.now v) }
{
    let Value::Text { start, len } = v else {
        return &src[0..0];
    };
    part(src, start, len)
}

pub fn is_text(v: Value) -> bool
    ensures { (s : List ℕ) → result ≡ is_text (datum_in s v) }
{
    matches!(v, Value::Text { .. })
}

// The 64 bits that a value is stored as; a text's are 0.
pub fn stored_word(v: Value) -> u64
    ensures { (s : List ℕ) → result ≡ word_for (datum_in s v) }
{
    if is_text(v) {
        return 0;
    }
    word_of(v)
}

// Whether a value differs from what attribute i holds.
pub fn differs_from<'a>(word: u64, null: bool, text: &'a [u8], v: Value, src: &'a [u8]) -> bool
    ensures { result ≡ differs_from word null text.now (datum_in src.now v) }
{
    let new_null = is_null(v);
    if null {
        return !new_null;
    }
    if new_null {
        return true;
    }
    if is_text(v) {
        return !same_bytes(text, bytes_of(v, src));
    }
    word != stored_word(v)
}

// Whether a value differs from what attribute i holds and shows.
fn differs_at<'a>(
    w: &'a [u64; WORDS],
    defaults: &'a [u8],
    edits: &'a [u8],
    i: usize,
    word: u64,
    null: bool,
    texts: &'a [u16; TEXTS],
    new: Value,
    src: &'a [u8],
) -> bool
    requires { i < attribute_limit }
    ensures { result ≡ differs_from word null (text_at w.now defaults.now edits.now i (mark_at w.now texts.now i)) (datum_in src.now new) }
{
    let text = text_at(w, defaults, edits, i, texts);
    differs_from(word, null, text, new, src)
}

// Its mark, if it is a text.
fn set_mark(texts: &mut [u16; TEXTS], rank: usize, new: Value, src: &[u8])
    requires { MarkFits rank (datum_in src.now new) }
    ensures { texts.new ≡ pick (is_text (datum_in src.now new)) (set texts.old rank (mark_for (datum_in src.now new))) texts.old }
{
    if is_text(new) {
        let bytes = bytes_of(new, src);
        texts[rank] = bytes.len() as u16 + 1;
    }
}

// Attribute i holds another value from now on.
pub fn set_value(
    w: &[u64; WORDS],
    words: &mut [u64; ATTRIBUTES],
    nulls: &mut [bool; ATTRIBUTES],
    texts: &mut [u16; TEXTS],
    versions: &mut [u32; CLUSTERS],
    i: usize,
    new: Value,
    src: &[u8],
)
    requires { (i < attribute_limit) × ((attribute_row w.now i).index_of_cluster < cluster_limit) × MarkFits (attribute_row w.now i).first (datum_in src.now new) }
    ensures { values_of words.new nulls.new texts.new versions.new ≡ set_at w.now (values_of words.old nulls.old texts.old versions.old) i (datum_in src.now new) }
{
    let k = node_schema::attribute_cluster(w, i);
    words[i] = stored_word(new);
    nulls[i] = is_null(new);
    set_mark(texts, node_schema::first_value(w, i) as usize, new, src);
    versions[k] = next_version(versions[k]);
}

// Its text, if it is one, goes to its place in the page of edits.
pub fn set_text(w: &[u64; WORDS], edits: &mut [u8], i: usize, new: Value, src: &[u8])
    requires { (i < attribute_limit) × TextFits edits.old (attribute_row w.now i).first (datum_in src.now new) }
    ensures { edits.new ≡ edits_set w.now edits.old i (datum_in src.now new) }
{
    if is_text(new) {
        let rank = node_schema::first_value(w, i) as usize;
        store_text(edits, rank, bytes_of(new, src));
    }
}

// Stores a value that the limits allow: a change moves the value, the version and the text, the value held moves nothing.
pub fn store<'a>(
    w: &'a [u64; WORDS],
    defaults: &'a [u8],
    edits: &mut [u8],
    words: &mut [u64; ATTRIBUTES],
    nulls: &mut [bool; ATTRIBUTES],
    texts: &mut [u16; TEXTS],
    versions: &mut [u32; CLUSTERS],
    i: usize,
    new: Value,
    src: &'a [u8],
)
    requires { (i < attribute_limit) × ((attribute_row w.now i).index_of_cluster < cluster_limit) × TextFits edits.old (attribute_row w.now i).first (datum_in src.now new) }
    ensures { (values_of words.new nulls.new texts.new versions.new ≡ stored_values w.now defaults.now edits.old (values_of words.old nulls.old texts.old versions.old) i (datum_in src.now new)) × (edits.new ≡ stored_edits w.now defaults.now edits.old (values_of words.old nulls.old texts.old versions.old) i (datum_in src.now new)) }
{
    if differs_at(w, defaults, edits, i, words[i], nulls[i], texts, new, src) {
        set_text(w, edits, i, new, src);
        set_value(w, words, nulls, texts, versions, i, new, src);
    }
}
