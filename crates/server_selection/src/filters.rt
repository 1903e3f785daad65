// What the filters of a read say of each cluster: judged once, at the request, and compared with the version that a cluster has when a part is made.
ghost use Rattle.std.specs.Prelude.{◌≡◌, true, ◌≤◌, ◌<◌, ◌+◌, length};
ghost use Rattle.base_bounds.specs.Bounds.{cluster_limit, filter_limit};
ghost use Rattle.base_octets.specs.Store.{store};
ghost use Rattle.node_schema.specs.Rows.{rows_from};
ghost use Rattle.node_schema.specs.Check.{well_formed};
ghost use Rattle.server_selection.specs.Request.{filters_at, filters_in};
ghost use Rattle.server_selection.specs.Filters.{unfiltered, joined, filter_words, row_of, version_filter_in, version_filter_list, joined_at, skips_now};

use super::request::{FILTERS_AT, ROW_WORDS};
use base_bounds::CLUSTERS;
use im_requests::{FILTER_SIZE, FILTER_WORDS, VersionFilter};
use node_schema::WORDS;
use node_schema::find::find_cluster;

// No filter is for the cluster, or they disagree; every other word is the version that all of them carry.
pub const UNFILTERED: u64 = base_bounds::VERSIONS;

const DISAGREEING: u64 = UNFILTERED + 1;

// A cluster's word with one filter more.
fn join(word: u64, version: u64) -> u64
    ensures { result ≡ joined word version }
{
    if UNFILTERED <= version {
        return DISAGREEING;
    }
    if word == UNFILTERED {
        return version;
    }
    if word == version { word } else { DISAGREEING }
}

// No cluster has a filter.
fn clear_filters(row: &mut [u64])
    requires { filters_at + cluster_limit ≤ length row.old }
    ensures { row.new ≡ store row.old filters_at (rows_from (λ k. unfiltered) cluster_limit 0) }
{
    row[FILTERS_AT..FILTERS_AT + CLUSTERS].fill(UNFILTERED);
}

// The row of a filter's cluster, if the schema has it.
fn row_of(w: &[u64; WORDS], f: VersionFilter) -> Option<usize>
    ensures { result ≡ row_of w.now f }
{
    if 65_535 < f.endpoint {
        return None;
    }
    if 4_294_967_295 < f.cluster {
        return None;
    }
    find_cluster(w, f.endpoint as u16, f.cluster as u32)
}

// One filter more.
fn put_filter(w: &[u64; WORDS], f: VersionFilter, row: &mut [u64])
    requires { filters_at + cluster_limit ≤ length row.old }
    ensures { row.new ≡ joined_at row.old f.version (row_of w.now f) }
{
    if let Some(k) = row_of(w, f) {
        row[FILTERS_AT + k] = join(row[FILTERS_AT + k], f.version);
    }
}

// Filter number i.
fn filter_at(filters: &[u64; FILTER_WORDS], i: usize) -> VersionFilter
    requires { i < filter_limit }
    ensures { result ≡ version_filter_in filters.now i }
{
    let at = i * FILTER_SIZE;
    VersionFilter {
        endpoint: filters[at],
        cluster: filters[at + 1],
        version: filters[at + 2],
    }
}

// The word of each cluster, stored in the request.
pub fn put_filters<'a>(
    w: &'a [u64; WORDS],
    filters: &'a [u64; FILTER_WORDS],
    n: usize,
    row: &mut [u64],
)
    requires { (well_formed w.now ≡ true) × ((n ≤ filter_limit) × (filters_at + cluster_limit ≤ length row.old)) }
    ensures { row.new ≡ store row.old filters_at (filter_words w.now (version_filter_list filters.now n)) }
{
    clear_filters(row);
    for i in 0..n {
        put_filter(w, filter_at(filters, i), row);
    }
}

// Whether the filters skip each of the schema's clusters.
pub fn skipped<'a>(
    w: &'a [u64; WORDS],
    row: &'a [u64; ROW_WORDS],
    versions: &'a [u32; CLUSTERS],
) -> [bool; CLUSTERS]
    ensures { result ≡ skips_now w.now (filters_in row.now) versions.now }
{
    let count = node_schema::cluster_count(w);
    let mut skip = [false; CLUSTERS];
    for k in 0..count {
        skip[k] = row[FILTERS_AT + k] == u64::from(versions[k]);
    }
    skip
}
