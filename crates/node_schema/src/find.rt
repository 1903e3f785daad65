// Finding: exact match or nothing, never the row next to it (RULES 9.1).
ghost use Rattle.std.specs.Prelude.{◌≡◌, ◌+◌, ◌≤◌};
ghost use Rattle.node_schema.specs.Layout.{word_count};
ghost use Rattle.node_schema.specs.Find.{find_word, find_cluster, find_attribute, has_endpoint};

use super::{HALF, KEY, PATH, WORDS};
use base_bounds::CLUSTERS;

// The first of the n words from `from` on that is x.
fn find_word(w: &[u64; WORDS], from: usize, n: usize, x: u64) -> Option<usize>
    requires { from + n ≤ word_count }
    ensures { result ≡ find_word w.now from n x }
{
    for i in 0..n {
        if w[from + i] == x {
            return Some(i);
        }
    }
    None
}

// The cluster row of this cluster on this endpoint.
pub fn find_cluster(w: &[u64; WORDS], endpoint: u16, cluster: u32) -> Option<usize>
    ensures { result ≡ find_cluster w.now endpoint cluster }
{
    let n = super::cluster_count(w);
    find_word(w, PATH, n, endpoint as u64 * HALF + cluster as u64)
}

// The attribute row of this attribute of the cluster whose row is at cluster_index.
pub fn find_attribute(w: &[u64; WORDS], cluster_index: usize, attribute: u32) -> Option<usize>
    ensures { result ≡ find_attribute w.now cluster_index attribute }
{
    if CLUSTERS <= cluster_index {
        return None;
    }
    let n = super::attribute_count(w);
    find_word(w, KEY, n, cluster_index as u64 * HALF + attribute as u64)
}

// Whether some cluster of the schema is on this endpoint.
pub fn has_endpoint(w: &[u64; WORDS], endpoint: u16) -> bool
    ensures { result ≡ has_endpoint w.now endpoint }
{
    let n = super::cluster_count(w);
    for i in 0..n {
        if super::cluster_endpoint(w, i) == endpoint as u64 {
            return true;
        }
    }
    false
}
