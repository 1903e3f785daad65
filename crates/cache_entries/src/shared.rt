// Whether a cluster is coherent (RULES 7.11: whole), and at which version.
ghost use Rattle.std.specs.Prelude.{◌≡◌, Bool, true, List, ℕ, ◌≤◌, ◌<◌, ◌/◌, get_or};
ghost use Rattle.cache_entries.specs.Limits.{max_entries, max_clusters, half, no_version};
ghost use Rattle.cache_entries.specs.Entries.{held_of};
ghost use Rattle.cache_entries.specs.Coherent.{unseen, joined, joined_all, versions_from, shared_in, coherent_at};

use super::{CLUSTERS, ENTRIES, HALF, NO_VERSION};

// No version was seen.
pub const UNSEEN: u64 = NO_VERSION + 1;

// What the versions of a cluster come to with one more: the one that all have, or none.
fn joined(so: u64, version: u64) -> u64
    ensures { result ≡ joined so version }
{
    if so == UNSEEN {
        return version;
    }
    if so == version { so } else { NO_VERSION }
}

// The version that a word says.
pub fn shared_in(so: u64) -> Option<u32>
    ensures { result ≡ shared_in so }
{
    if so < NO_VERSION {
        return Some(so as u32);
    }
    None
}

// What the versions of the cluster that stands at k come to, of the first n entries.
pub fn joined_at(keys: &[u64; ENTRIES], versions: &[u64; ENTRIES], n: usize, k: usize) -> u64
    requires { n ≤ max_entries }
    ensures { result ≡ joined_all unseen (versions_from keys.now versions.now k n 0) }
{
    let mut so = UNSEEN;
    for i in 0..n {
        if keys[i] / HALF == k as u64 {
            so = joined(so, versions[i]);
        }
    }
    so
}

// The version that all entries of the cluster that stands at k share, one entry at least; none before the cache is primed.
pub fn coherent_at(
    keys: &[u64; ENTRIES],
    versions: &[u64; ENTRIES],
    n: usize,
    primed: bool,
    k: usize,
) -> Option<u32>
    requires { (n ≤ max_entries) × ((i : ℕ) → i < n → get_or versions.now i 0 ≤ no_version) }
    ensures { (clusters kinds words order lengths : List ℕ) (m : ℕ) → result ≡ coherent_at (held_of clusters keys.now versions.now kinds words order lengths m n primed) k }
{
    if !primed {
        return None;
    }
    shared_in(joined_at(keys, versions, n, k))
}

// The same for every cluster at once, a word for each.
pub fn join_all(
    keys: &[u64; ENTRIES],
    versions: &[u64; ENTRIES],
    n: usize,
    shares: &mut [u64; CLUSTERS],
)
    requires { (n ≤ max_entries) × ((i : ℕ) → i < n → get_or keys.now i 0 / half < max_clusters) }
    ensures { (k : ℕ) → k < max_clusters → get_or shares.new k 0 ≡ joined_all unseen (versions_from keys.now versions.now k n 0) }
{
    *shares = [UNSEEN; CLUSTERS];
    for i in 0..n {
        let k = (keys[i] / HALF) as usize;
        let so = shares[k];
        shares[k] = joined(so, versions[i]);
    }
}
