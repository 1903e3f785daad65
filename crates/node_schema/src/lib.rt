// The schema (RULES 2: the plan): which endpoints, clusters and attributes a server has. It is lent as an array of words, so that it can lie in
// read-only memory: a header, then columns, since a check walks a column several times faster than rows.

#![tactic(auto)]

ghost use Rattle.std.specs.Prelude.{◌≡◌, ◌<◌, ◌==◌, slice_index};
ghost use Rattle.base_bounds.specs.Bounds.{cluster_limit, attribute_limit};
ghost use Rattle.node_schema.specs.Layout.{subject_word, text_limit};
ghost use Rattle.node_schema.specs.Rows.{count_of_clusters, count_of_attributes, cluster_row, attribute_row, is_text, factory_word, factory_start, factory_length};

use base_bounds::{ATTRIBUTES, CLUSTERS};

pub mod check;
pub mod find;
pub mod texts;

// How many texts, and what one takes in the page of edits.
pub const TEXTS: usize = ATTRIBUTES;

pub const TEXT_SIZE: usize = base_bounds::TEXT_MAX;

// The header's words.
pub const CLUSTER_COUNT_WORD: usize = 0;

pub const ATTRIBUTE_COUNT_WORD: usize = 1;

pub const SUBJECT_WORD: usize = 2;

// The header has 16 words; those from SPARE on are for later use.
pub const HEADER: usize = 16;

pub const SPARE: usize = 3;

pub const SPARES: usize = HEADER - SPARE;

// Where each column starts. A new column comes behind the last: one line here and one in specs/Layout.antt.
pub const PATH: usize = HEADER;

pub const VERSION: usize = PATH + CLUSTERS;

pub const KEY: usize = VERSION + CLUSTERS;

pub const TRAITS: usize = KEY + ATTRIBUTES;

pub const LOW: usize = TRAITS + ATTRIBUTES;

pub const HIGH: usize = LOW + ATTRIBUTES;

pub const FIRST: usize = HIGH + ATTRIBUTES;

pub const FACTORY: usize = FIRST + ATTRIBUTES;

pub const WORDS: usize = FACTORY + TEXTS;

// A path (endpoint, cluster), a key (index of the cluster's row, attribute) and a factory text (start, length) are two halves of 32 bits.
pub const HALF: u64 = 4_294_967_296;

// The traits are four bytes: kind, nullable, read, write.
pub const BYTE: u64 = 256;

pub const NULLABLE_PART: u64 = 256;

pub const READ_PART: u64 = 65_536;

pub const WRITE_PART: u64 = 16_777_216;

// The highest kind, which is text, and the highest privilege, Administer.
pub const TEXT: u64 = 4;

pub const ADMINISTER: u64 = 4;

// How many cluster rows are in use. A number above the limit counts as the limit, so that every function is safe for any words; the check refuses it.
pub fn cluster_count(w: &[u64; WORDS]) -> usize
    ensures { result ≡ count_of_clusters w.now }
{
    if w[CLUSTER_COUNT_WORD] < CLUSTERS as u64 {
        w[CLUSTER_COUNT_WORD] as usize
    } else {
        CLUSTERS
    }
}

// How many attribute rows are in use, likewise.
pub fn attribute_count(w: &[u64; WORDS]) -> usize
    ensures { result ≡ count_of_attributes w.now }
{
    if w[ATTRIBUTE_COUNT_WORD] < ATTRIBUTES as u64 {
        w[ATTRIBUTE_COUNT_WORD] as usize
    } else {
        ATTRIBUTES
    }
}

// The one subject that the server answers.
pub fn subject_served(w: &[u64; WORDS]) -> u64
    ensures { result ≡ slice_index w.now subject_word }
{
    w[SUBJECT_WORD]
}

pub fn cluster_endpoint(w: &[u64; WORDS], i: usize) -> u64
    requires { i < cluster_limit }
    ensures { result ≡ (cluster_row w.now i).endpoint }
{
    w[PATH + i] / HALF
}

pub fn cluster_id(w: &[u64; WORDS], i: usize) -> u64
    requires { i < cluster_limit }
    ensures { result ≡ (cluster_row w.now i).cluster }
{
    w[PATH + i] % HALF
}

pub fn cluster_version(w: &[u64; WORDS], i: usize) -> u64
    requires { i < cluster_limit }
    ensures { result ≡ (cluster_row w.now i).version }
{
    w[VERSION + i]
}

pub fn attribute_cluster(w: &[u64; WORDS], i: usize) -> usize
    requires { i < attribute_limit }
    ensures { result ≡ (attribute_row w.now i).index_of_cluster }
{
    (w[KEY + i] / HALF) as usize
}

pub fn attribute_id(w: &[u64; WORDS], i: usize) -> u64
    requires { i < attribute_limit }
    ensures { result ≡ (attribute_row w.now i).id }
{
    w[KEY + i] % HALF
}

pub fn kind_code(w: &[u64; WORDS], i: usize) -> u64
    requires { i < attribute_limit }
    ensures { result ≡ (attribute_row w.now i).kind }
{
    w[TRAITS + i] % BYTE
}

pub fn is_nullable(w: &[u64; WORDS], i: usize) -> bool
    requires { i < attribute_limit }
    ensures { result ≡ ((attribute_row w.now i).nullable == 1) }
{
    w[TRAITS + i] / NULLABLE_PART % BYTE == 1
}

// The privilege that reading needs, 0 where the attribute is not readable.
pub fn read_privilege(w: &[u64; WORDS], i: usize) -> u64
    requires { i < attribute_limit }
    ensures { result ≡ (attribute_row w.now i).read }
{
    w[TRAITS + i] / READ_PART % BYTE
}

// The privilege that writing needs, 0 where the attribute is not writable.
pub fn write_privilege(w: &[u64; WORDS], i: usize) -> u64
    requires { i < attribute_limit }
    ensures { result ≡ (attribute_row w.now i).write }
{
    w[TRAITS + i] / WRITE_PART
}

pub fn lowest(w: &[u64; WORDS], i: usize) -> u64
    requires { i < attribute_limit }
    ensures { result ≡ (attribute_row w.now i).low }
{
    w[LOW + i]
}

pub fn highest(w: &[u64; WORDS], i: usize) -> u64
    requires { i < attribute_limit }
    ensures { result ≡ (attribute_row w.now i).high }
{
    w[HIGH + i]
}

pub fn first_value(w: &[u64; WORDS], i: usize) -> u64
    requires { i < attribute_limit }
    ensures { result ≡ (attribute_row w.now i).first }
{
    w[FIRST + i]
}

pub fn is_text(w: &[u64; WORDS], i: usize) -> bool
    requires { i < attribute_limit }
    ensures { result ≡ is_text (attribute_row w.now i) }
{
    w[TRAITS + i] % BYTE == TEXT
}

// The factory text of a rank that a text may have.
pub fn factory_at(w: &[u64; WORDS], rank: usize) -> u64
    requires { rank < text_limit }
    ensures { result ≡ factory_word w.now rank }
{
    w[FACTORY + rank]
}

// The same of any rank: one that no text may have is none of the column's.
fn factory_word(w: &[u64; WORDS], rank: usize) -> u64
    ensures { result ≡ factory_word w.now rank }
{
    if rank < TEXTS { factory_at(w, rank) } else { 0 }
}

// Where it starts in the page of defaults.
pub fn factory_start(w: &[u64; WORDS], rank: usize) -> usize
    ensures { result ≡ factory_start w.now rank }
{
    (factory_word(w, rank) / HALF) as usize
}

pub fn factory_length(w: &[u64; WORDS], rank: usize) -> usize
    ensures { result ≡ factory_length w.now rank }
{
    (factory_word(w, rank) % HALF) as usize
}
