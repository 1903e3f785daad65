// What the cache holds of a server: a finite map from path to version and value (RULES 7.8). It is memory that the caller lends: an array for
// each column, and a page for the texts. Any content is safe; what breaks the rules gets 2 (valid.rt).

#![tactic(auto)]

pub mod find; // find.rt: where a cluster and an entry stand
pub mod set; // set.rt: an entry set
pub mod shared; // shared.rt: whether the entries of a cluster share one version
pub mod texts; // texts.rt: the places of texts
pub mod values; // values.rt: a value that can be kept or sent
pub mod valid; // valid.rt: whether entries and page keep the rules

// What is held at most, which is what a server may have.
pub const ENTRIES: usize = base_bounds::ATTRIBUTES;

pub const CLUSTERS: usize = base_bounds::CLUSTERS;

// The page of texts: so many places of this size.
pub const TEXT_PLACES: usize = ENTRIES;

pub const TEXT_SIZE: usize = base_bounds::TEXT_MAX;

pub const PAGE_SIZE: usize = TEXT_PLACES * TEXT_SIZE;

// The rising orders of the entries and of the clusters: a byte for each entry, then one for each cluster.
pub const ORDER_SIZE: usize = ENTRIES + CLUSTERS;

pub const HALF: u64 = 4_294_967_296;

// The version of an entry that has none.
pub const NO_VERSION: u64 = base_bounds::VERSIONS;

// The kinds of value of an entry.
pub const NULL: u8 = 0;

pub const BOOLEAN: u8 = 1;

pub const UNSIGNED: u8 = 2;

pub const SIGNED: u8 = 3;

pub const FLOAT: u8 = 4;

pub const TEXT: u8 = 5;

// The columns as one record, in which the contracts speak; no function takes one.
#[derive(Clone, Copy)]
pub struct Cached {
    // The clusters that have entries: endpoint and cluster, in two halves of 32 bits.
    pub clusters: [u64; CLUSTERS],
    pub cluster_count: usize,
    // The entries: where the cluster stands and the attribute, in two halves; version, kind and 64 bits of the value, of a text its place.
    pub keys: [u64; ENTRIES],
    pub versions: [u64; ENTRIES],
    pub kinds: [u8; ENTRIES],
    pub words: [u64; ENTRIES],
    pub count: usize,
    // Where the entries stand in rising order of their keys, then where the clusters do.
    pub order: [u8; ORDER_SIZE],
    // How long the text at each place is.
    pub lengths: [u16; TEXT_PLACES],
    // Whether a read has ended on its last part (RULES 7.10: filled).
    pub primed: bool,
}
