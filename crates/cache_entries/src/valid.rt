// Whether what a cache holds keeps the rules: refusal 2 (RULES 6.1) where it does not.
ghost use Rattle.std.specs.Prelude.{◌≡◌, Bool, List, ℕ, ◌+◌, ◌≤◌, ◌<◌, length, take, drop};
ghost use Rattle.base_utf8.specs.WellFormed.{well_formed};
ghost use Rattle.node_schema.specs.Check.{every};
ghost use Rattle.cache_entries.specs.Limits.{max_entries, max_clusters, text_places, page_size};
ghost use Rattle.cache_entries.specs.Entries.{held_of};
ghost use Rattle.cache_entries.specs.Valid.{word_right, entry_right, form_of, text_right, text_right_at, clusters_right, entries_right, held_right, ColumnsSized};

use super::find::cluster_order;
use super::{
    CLUSTERS, ENTRIES, HALF, NO_VERSION, ORDER_SIZE, PAGE_SIZE, TEXT, TEXT_PLACES, TEXT_SIZE,
};

// A value's 64 bits by its kind. Each value has one form.
fn word_ok(kind: u8, word: u64) -> bool
    ensures { result ≡ word_right kind word }
{
    if kind == super::NULL {
        return word == 0;
    }
    if kind == super::BOOLEAN {
        return word <= 1;
    }
    if kind == super::UNSIGNED {
        return true;
    }
    if kind == super::SIGNED {
        return true;
    }
    if kind == super::FLOAT {
        return word < HALF;
    }
    kind == TEXT
}

// An entry of a cluster that is there, with a value of its kind.
fn entry_ok(clusters: usize, key: u64, version: u64, kind: u8, word: u64) -> bool
    ensures { result ≡ entry_right clusters key version kind word }
{
    if clusters as u64 <= key / HALF {
        return false;
    }
    if NO_VERSION < version {
        return false;
    }
    word_ok(kind, word)
}

// Every cluster's endpoint has 16 bits.
fn clusters_ok(clusters: &[u64; CLUSTERS], n: usize) -> bool
    requires { n ≤ max_clusters }
    ensures { result ≡ clusters_right clusters.now n }
{
    clusters[..n].iter().all(|word| *word < 281_474_976_710_656)
}

fn entries_ok(
    keys: &[u64; ENTRIES],
    versions: &[u64; ENTRIES],
    kinds: &[u8; ENTRIES],
    words: &[u64; ENTRIES],
    k: usize,
    n: usize,
) -> bool
    requires { n ≤ max_entries }
    ensures { (clusters order lengths : List ℕ) (primed : Bool) → result ≡ entries_right (held_of clusters keys.now versions.now kinds.now words.now order lengths k n primed) }
{
    for i in 0..n {
        if !entry_ok(k, keys[i], versions[i], kinds[i], words[i]) {
            return false;
        }
    }
    true
}

fn size_of(len: u16) -> usize
    ensures { result ≡ len }
{
    len as usize
}

// How a stretch of the page can be judged: it is ASCII, or valid UTF-8 as a whole, or each text is judged by itself.
const PLAIN: u8 = 2;

const WHOLE: u8 = 1;

fn form_of(part: &[u8]) -> u8
    ensures { result ≡ form_of part.now }
{
    if base_utf8::ascii(part) {
        return PLAIN;
    }
    if base_utf8::valid(part) {
        return WHOLE;
    }
    0
}

// How many of the first n entries are texts. No way out of the loop, so that it becomes vector code.
fn count_texts(kinds: &[u8; ENTRIES], n: usize) -> usize
    requires { n ≤ max_entries }
    ensures { result ≤ n }
{
    let mut count: u16 = 0;
    for kind in &kinds[..n] {
        if *kind == TEXT {
            count += 1;
        }
    }
    count as usize
}

// Whether a part of the page is valid UTF-8, where `whole` is the page's first stretch, of this form.
fn is_formed<'a>(page: &'a [u8], whole: &'a [u8], form: u8, start: usize, len: usize) -> bool
    requires { (start + len ≤ length page.now) × ((length page.now ≤ page_size) × ((whole.now ≡ take (length whole.now) page.now) × (form ≡ form_of whole.now))) }
    ensures { result ≡ well_formed (take len (drop start page.now)) }
{
    let end = start + len;
    if end <= whole.len() {
        if form == PLAIN {
            return true;
        }
        if form == WHOLE {
            return base_utf8::is_cut_well(whole, start, len);
        }
    }
    base_utf8::valid(&page[start..end])
}

// A text of at most TEXT_SIZE bytes at place p, which is UTF-8.
fn text_ok<'a>(
    page: &'a [u8],
    whole: &'a [u8],
    form: u8,
    lengths: &[u16; TEXT_PLACES],
    p: usize,
) -> bool
    requires { (p < text_places) × ((length page.now ≡ page_size) × ((whole.now ≡ take (length whole.now) page.now) × (form ≡ form_of whole.now))) }
    ensures { result ≡ text_right page.now lengths.now p }
{
    let len = size_of(lengths[p]);
    if TEXT_SIZE < len {
        return false;
    }
    is_formed(page, whole, form, TEXT_SIZE * p, len)
}

// Every text has a place of its own. Places are given from the first on, so as many as there are texts are judged together.
fn texts_ok(
    page: &[u8],
    kinds: &[u8; ENTRIES],
    words: &[u64; ENTRIES],
    lengths: &[u16; TEXT_PLACES],
    n: usize,
) -> bool
    requires { (n ≤ max_entries) × (length page.now ≡ page_size) }
    ensures { result ≡ every (text_right_at page.now kinds.now words.now lengths.now) n }
{
    let end = TEXT_SIZE * count_texts(kinds, n);
    let whole = &page[0..end];
    let form = form_of(whole);
    let mut marks = [0u8; TEXT_PLACES];
    for i in 0..n {
        if kinds[i] == TEXT {
            if TEXT_PLACES as u64 <= words[i] {
                return false;
            }
            let p = words[i] as usize;
            if marks[p] != 0 {
                return false;
            }
            if !text_ok(page, whole, form, lengths, p) {
                return false;
            }
            marks[p] = 1;
        }
    }
    true
}

pub fn held_ok(
    page: &[u8],
    clusters: &[u64; CLUSTERS],
    keys: &[u64; ENTRIES],
    versions: &[u64; ENTRIES],
    kinds: &[u8; ENTRIES],
    words: &[u64; ENTRIES],
    order: &[u8; ORDER_SIZE],
    lengths: &[u16; TEXT_PLACES],
    k: usize,
    n: usize,
) -> bool
    ensures { (primed : Bool) → result ≡ held_right page.now (held_of clusters.now keys.now versions.now kinds.now words.now order.now lengths.now k n primed) }
{
    if page.len() != PAGE_SIZE {
        return false;
    }
    if ENTRIES < n {
        return false;
    }
    if CLUSTERS < k {
        return false;
    }
    if !clusters_ok(clusters, k) {
        return false;
    }
    if !cache_order::order_ok(clusters, cluster_order(order), k) {
        return false;
    }
    if !cache_order::order_ok(keys, order, n) {
        return false;
    }
    if !entries_ok(keys, versions, kinds, words, k, n) {
        return false;
    }
    texts_ok(page, kinds, words, lengths, n)
}

// How many elements an array has, seen as a slice.
fn count_words(l: &[u64]) -> usize
    ensures { result ≡ length l.now }
{
    l.len()
}

fn count_bytes(l: &[u8]) -> usize
    ensures { result ≡ length l.now }
{
    l.len()
}

fn count_halves(l: &[u16]) -> usize
    ensures { result ≡ length l.now }
{
    l.len()
}

// How long the columns are. Their types say it, and the compiler leaves nothing of this function; a proof has to be told.
pub fn columns_whole(
    clusters: &[u64; CLUSTERS],
    keys: &[u64; ENTRIES],
    versions: &[u64; ENTRIES],
    kinds: &[u8; ENTRIES],
    words: &[u64; ENTRIES],
    order: &[u8; ORDER_SIZE],
    lengths: &[u16; TEXT_PLACES],
)
    ensures { (k n : ℕ) (primed : Bool) → ColumnsSized (held_of clusters.now keys.now versions.now kinds.now words.now order.now lengths.now k n primed) }
{
    count_words(clusters);
    count_words(keys);
    count_words(versions);
    count_bytes(kinds);
    count_words(words);
    count_bytes(order);
    count_halves(lengths);
}
