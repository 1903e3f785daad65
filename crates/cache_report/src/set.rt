// A block taken: its entry set, its text in the lent page.
ghost use Rattle.std.specs.Prelude.{◌≡◌, Bool, true, false, ◌^◌, ◌<◌, eqb, length};
ghost use Rattle.cache_entries.specs.Limits.{text_places, page_size, text_kind};
ghost use Rattle.cache_entries.specs.Entries.{held_of};
ghost use Rattle.cache_entries.specs.Values.{usable_in, long_v};
ghost use Rattle.cache_entries.specs.Texts.{text_place, Marked};
ghost use Rattle.cache_entries.specs.Valid.{held_right, ColumnsSized};
ghost use Rattle.cache_report.specs.Entry.{position_of, kind_v, word_as, with_item, text_stored};
ghost use Rattle.cache_report.specs.Words.{item_words, length_v};

use base_octets::put_bytes;
use cache_entries::set::{set_cluster, set_entry};
use cache_entries::texts::move_text;
use cache_entries::{CLUSTERS, ENTRIES, HALF, ORDER_SIZE, TEXT, TEXT_PLACES, TEXT_SIZE};
use node_kinds::stored::word_of;
use tlv_reader::Value;

// How many clusters and entries there are.
#[derive(Clone, Copy)]
pub struct Counts {
    pub clusters: usize,
    pub entries: usize,
}

fn kind_of(v: Value) -> u8
    ensures { result ≡ kind_v v }
{
    match v {
        Value::Null => cache_entries::NULL,
        Value::Boolean(_) => cache_entries::BOOLEAN,
        Value::Unsigned(_) => cache_entries::UNSIGNED,
        Value::Signed(_) => cache_entries::SIGNED,
        Value::Float(_) => cache_entries::FLOAT,
        Value::Text { start: _, len: _ } => TEXT,
        Value::Other => cache_entries::NULL,
    }
}

// The 64 bits under which a value is kept, of a text its place.
fn word_as(place: usize, v: Value) -> u64
    ensures { result ≡ word_as place v }
{
    if kind_of(v) == TEXT {
        return place as u64;
    }
    word_of(v)
}

// How many bytes a text has, 0 for any other value.
fn length_of(v: Value) -> u16
    requires { long_v v ≡ false }
    ensures { result ≡ length_v v }
{
    let Value::Text { start: _, len } = v else {
        return 0;
    };
    len as u16
}

// A text goes to its place of the page; another value leaves the page as it is.
fn store_text(s: &[u8], page: &mut [u8], place: usize, v: Value)
    requires { (usable_in s.now v ≡ true) × ((long_v v ≡ false) × ((eqb (kind_v v) text_kind ≡ true → place < text_places) × (length page.old ≡ page_size))) }
    ensures { page.new ≡ text_stored s.now page.old place v }
{
    let Value::Text { start, len } = v else {
        return;
    };
    put_bytes(page, TEXT_SIZE * place, &s[start..start + len]);
}

// A block that goes to cluster p and entry i. That `second` has 64 bits its type says; a caller who read it from an array has to be told.
pub fn set_block(
    s: &[u8],
    clusters: &mut [u64; CLUSTERS],
    keys: &mut [u64; ENTRIES],
    versions: &mut [u64; ENTRIES],
    kinds: &mut [u8; ENTRIES],
    words: &mut [u64; ENTRIES],
    order: &mut [u8; ORDER_SIZE],
    lengths: &mut [u16; TEXT_PLACES],
    page: &mut [u8],
    marks: &mut [u8; TEXT_PLACES],
    counts: Counts,
    p: usize,
    i: usize,
    first: u64,
    second: u64,
    v: Value,
) -> Counts
    requires { ((primed : Bool) → held_right page.old (held_of clusters.old keys.old versions.old kinds.old words.old order.old lengths.old counts.clusters counts.entries primed) ≡ true) × (((primed : Bool) → ColumnsSized (held_of clusters.old keys.old versions.old kinds.old words.old order.old lengths.old counts.clusters counts.entries primed)) × (Marked kinds.old words.old counts.entries marks.old × ((first < 281474976710656) × ((usable_in s.now v ≡ true) × ((long_v v ≡ false) × ((primed : Bool) → position_of (held_of clusters.old keys.old versions.old kinds.old words.old order.old lengths.old counts.clusters counts.entries primed) (item_words first second v) ≡ Some (p, i))))))) }
    ensures { ((primed : Bool) → held_of clusters.new keys.new versions.new kinds.new words.new order.new lengths.new result.clusters result.entries primed ≡ with_item (held_of clusters.old keys.old versions.old kinds.old words.old order.old lengths.old counts.clusters counts.entries primed) p i (item_words first second v)) × ((page.new ≡ text_stored s.now page.old (text_place (held_of clusters.old keys.old versions.old kinds.old words.old order.old lengths.old counts.clusters counts.entries false) i) v) × (Marked kinds.new words.new result.entries marks.new × (second < 2 ^ 64))) }
{
    let kind = kind_of(v);
    let place = move_text(kinds, words, counts.entries, i, kind == TEXT, marks);
    store_text(s, page, place, v);
    let k = set_cluster(clusters, order, counts.clusters, p, first);
    let n = set_entry(
        keys,
        versions,
        kinds,
        words,
        order,
        lengths,
        counts.entries,
        i,
        p as u64 * HALF + second / HALF,
        second % HALF,
        kind,
        word_as(place, v),
        length_of(v),
    );
    Counts {
        clusters: k,
        entries: n,
    }
}
