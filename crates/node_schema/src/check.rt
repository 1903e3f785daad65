// Whether the words are a schema by the rules (specs/Rules.antt). It is asked at every call of a server, so each rule is one plain loop
// over a column.
ghost use Rattle.std.specs.Prelude.{◌≡◌, ◌+◌, ◌^◌, ◌≤◌};
ghost use Rattle.base_bounds.specs.Bounds.{cluster_limit, attribute_limit};
ghost use Rattle.node_schema.specs.Layout.{word_count};
ghost use Rattle.node_schema.specs.Check.{rises, all_below, endpoint_changes, top_bits_clear, all_traits, ranked, clusters_right, attributes_right, columns_right, well_formed};

use super::{
    ADMINISTER, ATTRIBUTE_COUNT_WORD, CLUSTER_COUNT_WORD, FIRST, HALF, KEY, NULLABLE_PART, PATH,
    READ_PART, SPARE, SPARES, TEXT, TEXTS, TRAITS, VERSION, WORDS, WRITE_PART,
};
use base_bounds::{ATTRIBUTES, CLUSTERS, ENDPOINTS, VERSIONS};
use std::num::{wrapping_add_u64, wrapping_sub_u64};

// Far above any path and key.
const ROOM: u64 = 4_611_686_018_427_387_904;

// What each part of the traits has left to 127 at its highest value.
const MARGINS: u64 = 127 - TEXT
    + (127 - 1) * NULLABLE_PART
    + (127 - ADMINISTER) * READ_PART
    + (127 - ADMINISTER) * WRITE_PART;

// The n words from `from` on rise strictly, and the last is below limit. No way out of the loop, so that it becomes vector code: of two words below ROOM the
// first is the lower exactly if their difference wraps, to 2 * ROOM at least. Whether all words are below ROOM, their OR tells, and whether all differences
// wrap, the AND of these.
fn rising(w: &[u64; WORDS], from: usize, n: usize, limit: u64) -> bool
    requires { (from + n ≤ word_count) × (limit ≤ 2 ^ 62) }
    ensures { result ≡ rises w.now from n limit }
{
    if n == 0 {
        return true;
    }
    let last = n - 1;
    let mut words: u64 = 0;
    let mut gaps: u64 = u64::MAX;
    for i in 0..last {
        let x = w[from + i];
        words = words | x;
        gaps = gaps & wrapping_sub_u64(x, w[from + i + 1]);
    }
    (words < ROOM) & (2 * ROOM <= gaps) & (w[from + last] < limit)
}

// Each of the n words from `from` on is below limit.
fn all_below(w: &[u64; WORDS], from: usize, n: usize, limit: u64) -> bool
    requires { from + n ≤ word_count }
    ensures { result ≡ all_below w.now from n limit }
{
    for i in 0..n {
        if limit <= w[from + i] {
            return false;
        }
    }
    true
}

// How often the endpoint changes from one cluster row to the next, the first row counted: in rising order, how many endpoints there are.
fn endpoint_changes(w: &[u64; WORDS], n: usize) -> usize
    requires { n ≤ cluster_limit }
    ensures { result ≡ endpoint_changes w.now n }
{
    let mut changes = 0;
    let mut last = HALF;
    for i in 0..n {
        let e = super::cluster_endpoint(w, i);
        if e != last {
            changes += 1;
            last = e;
        }
    }
    changes
}

// The top bits of the four bytes are clear, and all bits above them.
fn top_bits_clear(x: u64) -> bool
    ensures { result ≡ top_bits_clear x }
{
    if 2_147_483_648 <= x {
        return false;
    }
    if x / 8_388_608 % 2 != 0 {
        return false;
    }
    if x / 32_768 % 2 != 0 {
        return false;
    }
    x / 128 % 2 == 0
}

// Each part of each traits word is one that there is. A part is too high exactly if its top bit is set in the word, or in the word with MARGINS added:
// so all words and all sums are joined by OR, which takes no branch a word, and the top bits are looked at once.
fn all_traits(w: &[u64; WORDS], n: usize) -> bool
    requires { n ≤ attribute_limit }
    ensures { result ≡ all_traits w.now n }
{
    let mut bits: u64 = 0;
    let mut sums: u64 = 0;
    for i in 0..n {
        let t = w[TRAITS + i];
        bits = bits | t;
        sums = sums | wrapping_add_u64(t, MARGINS);
    }
    top_bits_clear(bits | sums)
}

// The first word of each text is its rank: how many texts stand before it. And there are not too many.
fn all_ranks(w: &[u64; WORDS], n: usize) -> bool
    requires { n ≤ attribute_limit }
    ensures { result ≡ ranked w.now n }
{
    let mut rank: u64 = 0;
    for i in 0..n {
        if super::is_text(w, i) {
            if w[FIRST + i] != rank {
                return false;
            }
            rank += 1;
        }
    }
    rank <= TEXTS as u64
}

fn clusters_right(w: &[u64; WORDS], n: usize) -> bool
    requires { n ≤ cluster_limit }
    ensures { result ≡ clusters_right w.now n }
{
    if !rising(w, PATH, n, 65_536 * HALF) {
        return false;
    }
    if !all_below(w, VERSION, n, VERSIONS) {
        return false;
    }
    endpoint_changes(w, n) <= ENDPOINTS
}

fn attributes_right(w: &[u64; WORDS], n: usize, m: usize) -> bool
    requires { (n ≤ cluster_limit) × (m ≤ attribute_limit) }
    ensures { result ≡ attributes_right w.now n m }
{
    if !rising(w, KEY, m, n as u64 * HALF) {
        return false;
    }
    all_traits(w, m)
}

// Every rule but that of the ranks, which a server tests with the values of its rows.
pub fn columns_right(w: &[u64; WORDS]) -> bool
    ensures { result ≡ columns_right w.now }
{
    if !all_below(w, SPARE, SPARES, 1) {
        return false;
    }
    if w[CLUSTER_COUNT_WORD] > CLUSTERS as u64 {
        return false;
    }
    if w[ATTRIBUTE_COUNT_WORD] > ATTRIBUTES as u64 {
        return false;
    }
    let n = super::cluster_count(w);
    let m = super::attribute_count(w);
    if !clusters_right(w, n) {
        return false;
    }
    attributes_right(w, n, m)
}

// True exactly if the words are a schema.
pub fn well_formed(w: &[u64; WORDS]) -> bool
    ensures { result ≡ well_formed w.now }
{
    if !columns_right(w) {
        return false;
    }
    all_ranks(w, super::attribute_count(w))
}
