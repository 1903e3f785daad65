// All blocks of a part: judged whole, then taken one after the other.
ghost use Rattle.std.specs.Prelude.{◌≡◌, Bool, true, List, ℕ, ◌≤◌, ◌<◌, length, get_or};
ghost use Rattle.cache_order.specs.Order.{order_right};
ghost use Rattle.im_responses.specs.Kept.{max_blocks};
ghost use Rattle.cache_entries.specs.Limits.{max_entries, max_clusters};
ghost use Rattle.cache_entries.specs.Entries.{held_of, cluster_order};
ghost use Rattle.cache_entries.specs.Valid.{held_right};
ghost use Rattle.cache_report.specs.Words.{judgements_from, alone_all, held_by, page_by, judged_by, room_from, positions_from};

use super::NO_ROOM;
use super::block::judge_alone;
use super::position::find_positions;
use super::set::{Counts, set_block};
use cache_entries::texts::mark_places;
use cache_entries::valid::columns_whole;
use cache_entries::{CLUSTERS, ENTRIES, ORDER_SIZE, TEXT_PLACES};
use im_responses::kept::{BLOCK_WORDS, BLOCKS};
use tlv_reader::value_in;

// The number that a part gets: 0, 6 or 7. Where it is 0, the places of its blocks are found.
pub fn judge_part(
    s: &[u8],
    blocks: &[u64; BLOCK_WORDS],
    count: usize,
    clusters: &[u64; CLUSTERS],
    keys: &[u64; ENTRIES],
    order: &[u8; ORDER_SIZE],
    counts: Counts,
    positions: &mut [u64; BLOCKS],
) -> u8
    requires { (count ≤ max_blocks) × ((counts.clusters ≤ max_clusters) × ((counts.entries ≤ max_entries) × ((length clusters.now ≡ max_clusters) × ((length keys.now ≡ max_entries) × ((length positions.old ≡ max_blocks) × ((order_right clusters.now (cluster_order order.now) counts.clusters ≡ true) × (order_right keys.now order.now counts.entries ≡ true))))))) }
    ensures { ((versions kinds words lengths : List ℕ) (primed : Bool) → result ≡ (judged_by (record { number = 0; held = held_of clusters.entry.now keys.now versions kinds words order.now lengths counts.clusters counts.entries primed }) (judgements_from s.now blocks.now count 0)).number) × (result ≡ 0 → (alone_all (judgements_from s.now blocks.now count 0) ≡ 0) × ((room_from blocks.now (record { clusters = clusters.entry.now; count_of_clusters = counts.clusters; keys = keys.now; count = counts.entries }) count 0 ≡ true) × ((j : ℕ) → j < count → get_or positions.new j 0 ≡ get_or (positions_from blocks.now (record { clusters = clusters.entry.now; count_of_clusters = counts.clusters; keys = keys.now; count = counts.entries }) count 0) j 0))) }
{
    let alone = judge_alone(s, blocks, count);
    if alone != 0 {
        return alone;
    }
    if !find_positions(
        clusters,
        keys,
        order,
        counts.clusters,
        counts.entries,
        blocks,
        count,
        positions,
    ) {
        return NO_ROOM;
    }
    0
}

// The blocks of a part that got 0, taken one after the other.
pub fn take_part(
    s: &[u8],
    blocks: &[u64; BLOCK_WORDS],
    count: usize,
    positions: &[u64; BLOCKS],
    clusters: &mut [u64; CLUSTERS],
    keys: &mut [u64; ENTRIES],
    versions: &mut [u64; ENTRIES],
    kinds: &mut [u8; ENTRIES],
    words: &mut [u64; ENTRIES],
    order: &mut [u8; ORDER_SIZE],
    lengths: &mut [u16; TEXT_PLACES],
    page: &mut [u8],
    counts: Counts,
) -> Counts
    requires { (count ≤ max_blocks) × (((primed : Bool) → held_right page.old (held_of clusters.now keys.old versions.old kinds.old words.old order.old lengths.old counts.clusters counts.entries primed) ≡ true) × ((alone_all (judgements_from s.now blocks.now count 0) ≡ 0) × ((room_from blocks.now (record { clusters = clusters.now; count_of_clusters = counts.clusters; keys = keys.old; count = counts.entries }) count 0 ≡ true) × ((j : ℕ) → j < count → get_or positions.now j 0 ≡ get_or (positions_from blocks.now (record { clusters = clusters.now; count_of_clusters = counts.clusters; keys = keys.old; count = counts.entries }) count 0) j 0)))) }
    ensures { (primed : Bool) → (held_of clusters.new keys.new versions.new kinds.new words.new order.new lengths.new result.clusters result.entries primed ≡ held_by (held_of clusters.old keys.old versions.old kinds.old words.old order.old lengths.old counts.clusters counts.entries primed) (judgements_from s.now blocks.now count 0)) × (page.new ≡ page_by s.now (held_of clusters.old keys.old versions.old kinds.old words.old order.old lengths.old counts.clusters counts.entries primed) page.old (judgements_from s.now blocks.now count 0)) }
{
    columns_whole(clusters, keys, versions, kinds, words, order, lengths);
    let mut marks = [0u8; TEXT_PLACES];
    mark_places(kinds, words, counts.entries, &mut marks);
    let mut so = counts;
    for j in 0..count {
        let position = positions[j] as usize;
        let v = value_in(s, blocks[3 * j + 2] as usize);
        so = set_block(
            s,
            clusters,
            keys,
            versions,
            kinds,
            words,
            order,
            lengths,
            page,
            &mut marks,
            so,
            position / ENTRIES,
            position % ENTRIES,
            blocks[3 * j],
            blocks[3 * j + 1],
            v,
        );
    }
    so
}
