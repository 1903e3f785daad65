// Where a cluster and an entry stand, found by halves in their rising orders.
ghost use Rattle.std.specs.Prelude.{◌≡◌, true, ◌≤◌, length};
ghost use Rattle.cache_order.specs.Order.{order_right, word_at};
ghost use Rattle.cache_entries.specs.Limits.{max_entries, max_clusters, order_size};
ghost use Rattle.cache_entries.specs.Entries.{cluster_order};

use super::{CLUSTERS, ENTRIES, ORDER_SIZE};

// The order of the clusters, which stands behind that of the entries.
pub fn cluster_order(order: &[u8]) -> &[u8]
    requires { length order.now ≡ order_size }
    ensures { result.now ≡ cluster_order order.now }
{
    &order[ENTRIES..]
}

// Where an entry stands among the first n.
pub fn find_entry(
    keys: &[u64; ENTRIES],
    order: &[u8; ORDER_SIZE],
    n: usize,
    key: u64,
) -> Option<usize>
    requires { (n ≤ max_entries) × (order_right keys.now order.now n ≡ true) }
    ensures { result ≡ word_at keys.now n key }
{
    cache_order::find(keys, order, n, key)
}

// Where a cluster stands among the first n.
pub fn find_cluster(
    clusters: &[u64; CLUSTERS],
    order: &[u8; ORDER_SIZE],
    n: usize,
    word: u64,
) -> Option<usize>
    requires { (n ≤ max_clusters) × (order_right clusters.now (cluster_order order.now) n ≡ true) }
    ensures { result ≡ word_at clusters.now n word }
{
    cache_order::find(clusters, cluster_order(order), n, word)
}
