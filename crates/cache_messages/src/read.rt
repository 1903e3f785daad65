// A read: one full wildcard path, and a filter for each coherent cluster in rising order (RULES 7.2, 7.3).
ghost use Rattle.std.specs.Prelude.{◌≡◌, true, List, map, ℕ, ◌≤◌, ◌<◌, ◌+◌, ◌*◌, length};
ghost use Rattle.base_octets.specs.Store.{Stored};
ghost use Rattle.im_writer.specs.Spelling.{joined};
ghost use Rattle.cache_order.specs.Order.{places_right};
ghost use Rattle.cache_entries.specs.Limits.{max_clusters};
ghost use Rattle.cache_entries.specs.Entries.{held_of};
ghost use Rattle.cache_entries.specs.Coherent.{shared_in};
ghost use Rattle.im_envelope.specs.Envelope.{max_message};
ghost use Rattle.im_writer.specs.Envelope.{exchange_limit};
ghost use Rattle.cache_messages.specs.Filters.{Bounded, version_filter_if, ranked_from, filters_of, filter_tree_of};
ghost use Rattle.cache_messages.specs.Messages.{read_message};

use cache_entries::find::cluster_order;
use cache_entries::shared::{join_all, shared_in};
use cache_entries::{CLUSTERS, ENTRIES, HALF, ORDER_SIZE};
use im_exchange::READ;
use im_request_writer::read::{put_filter, put_filters_open, put_read_close, put_read_open};
use im_writer::envelope::put_envelope;

// A filter for the cluster with this word, if its entries share a version; `so` is what their versions come to.
fn put_filter_for(so: u64, word: u64, out: &mut [u8], at: usize) -> usize
    requires { at + 21 ≤ length out.old }
    ensures { Stored out.old at (joined (map filter_tree_of (version_filter_if word (shared_in so)))) out.new result × (result ≤ at + 21) }
{
    match shared_in(so) {
        Some(version) => put_filter(
            out,
            at,
            (word / HALF % 65536) as u16,
            (word % HALF) as u32,
            version,
        ),
        None => at,
    }
}

// The filters of n clusters in rising order, by what the versions of each come to.
fn put_rising(
    clusters: &[u64; CLUSTERS],
    order: &[u8],
    shares: &[u64; CLUSTERS],
    n: usize,
    out: &mut [u8],
    start: usize,
) -> usize
    requires { (n ≤ max_clusters) × ((n ≤ length order.now) × ((places_right order.now n ≡ true) × (start + max_clusters * 21 ≤ length out.old))) }
    ensures { Stored out.old start (joined (map filter_tree_of (ranked_from clusters.now order.now shares.now n 0))) out.new result × (result ≤ start + max_clusters * 21) }
{
    let mut at = start;
    for j in 0..n {
        let k = order[j] as usize;
        at = put_filter_for(shares[k], clusters[k], out, at);
    }
    at
}

// The filters of k clusters with n entries: one pass over the entries for all clusters, then the clusters in their order.
fn put_filters(
    clusters: &[u64; CLUSTERS],
    keys: &[u64; ENTRIES],
    versions: &[u64; ENTRIES],
    order: &[u8; ORDER_SIZE],
    k: usize,
    n: usize,
    primed: bool,
    out: &mut [u8],
    start: usize,
) -> usize
    requires { Bounded clusters.now keys.now versions.now order.now k n × (start + max_clusters * 21 ≤ length out.old) }
    ensures { ((kinds words lengths : List ℕ) → Stored out.old start (joined (map filter_tree_of (filters_of (held_of clusters.now keys.now versions.now kinds words order.now lengths k n primed)))) out.new result) × (result ≤ start + max_clusters * 21) }
{
    if !primed {
        return start;
    }
    let mut shares = [0u64; CLUSTERS];
    join_all(keys, versions, n, &mut shares);
    put_rising(clusters, cluster_order(order), &shares, k, out, start)
}

pub fn put_read(
    clusters: &[u64; CLUSTERS],
    keys: &[u64; ENTRIES],
    versions: &[u64; ENTRIES],
    order: &[u8; ORDER_SIZE],
    k: usize,
    n: usize,
    primed: bool,
    out: &mut [u8],
    edition: u8,
    exchange: u64,
) -> usize
    requires { Bounded clusters.now keys.now versions.now order.now k n × ((edition < 16) × ((exchange < exchange_limit) × (max_message ≤ length out.old))) }
    ensures { ((kinds words lengths : List ℕ) → Stored out.old 0 (read_message edition exchange (filters_of (held_of clusters.now keys.now versions.now kinds words order.now lengths k n primed))) out.new result) × (result ≤ max_message) }
{
    let p = put_envelope(out, 0, edition, READ as u8, exchange, 0);
    let q = put_read_open(out, p);
    let start = put_filters_open(out, q);
    let end = put_filters(clusters, keys, versions, order, k, n, primed, out, start);
    if end == start {
        return put_read_close(out, q, false);
    }
    put_read_close(out, end, true)
}
