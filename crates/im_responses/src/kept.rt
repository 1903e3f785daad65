// Report Data with its blocks kept in words that are lent, three for each (RULES 7.7, 7.8).
ghost use Rattle.std.specs.Prelude.{◌≡◌, ℕ};
ghost use Rattle.im_blocks.specs.Data.{ReportOf, report_at, report_on};
ghost use Rattle.im_blocks.proofs.OnLaws.{report-reads};
ghost use Rattle.im_responses.specs.Report.{blocks_at, part_in};
ghost use Rattle.im_responses.specs.Kept.{concrete_p, block_size, max_blocks, report_words, block_struct, word_list, part_kept, part_with, part_left};
ghost use Rattle.im_responses.specs.Lists.{blocks-listed, block-wide};

use super::{PartRead, REPORT, part_of};
use base_bounds::VERSIONS;
use im_blocks::{Path, Report};
use im_requests::list::{Member, list_of};
use tlv_reader::{Cursor, Element};

// How many blocks are kept. A payload holds no more: each takes ten bytes.
pub const BLOCKS: usize = 102;

pub const BLOCK_SIZE: usize = 3;

pub const BLOCK_WORDS: usize = BLOCKS * BLOCK_SIZE;

// The first word of a block that is of no use (a status, a path that is not concrete, no version): no endpoint and cluster make it.
pub const UNSHOWN: u64 = 281474976710656;

// A block in words: endpoint and cluster, attribute and version, where its data stands.
#[derive(Clone, Copy)]
pub struct BlockWords {
    pub first: u64,
    pub second: u64,
    pub third: u64,
}

const NO_WORDS: BlockWords = BlockWords {
    first: UNSHOWN,
    second: 0,
    third: 0,
};

// A path that names one attribute, each part of its width.
fn concrete(p: Path) -> bool
    ensures { result ≡ concrete_p p }
{
    if !im_blocks::exact(p) {
        return false;
    }
    if 65536 <= p.endpoint {
        return false;
    }
    if 4294967296 <= p.cluster {
        return false;
    }
    p.attribute < 4294967296
}

fn words_of(x: Report) -> BlockWords
    ensures { word_list result ≡ report_words x }
{
    let Report::Shown(d) = x else {
        return NO_WORDS;
    };
    let path = d.path;
    if !concrete(path) {
        return NO_WORDS;
    }
    if VERSIONS <= d.version {
        return NO_WORDS;
    }
    BlockWords {
        first: path.endpoint * 4294967296 + path.cluster,
        second: path.attribute * 4294967296 + d.version,
        third: d.place as u64,
    }
}

// A block as it is read.
#[derive(Clone, Copy)]
pub struct Block {
    pub report: Report,
}

impl Member for Block {
    ghost Meant = { ReportOf ℕ };

    ghost held = { block_struct };

    ghost limit = { max_blocks };

    ghost size = { block_size };

    ghost words = { λ b. report_words b.report };

    ghost at = { report_at };

    ghost on = { report_on };

    ghost list = { blocks_at };

    ghost reads = { report-reads };

    ghost listed = { blocks-listed };

    ghost wide = { block-wide };

    fn read(s: &[u8], e: Element, left: usize) -> Option<(Block, Cursor)> {
        let (report, next) = im_blocks::report_of(s, e, left)?;
        Some((Block { report }, next))
    }

    fn keep(self, kept: &mut [u64], count: usize) {
        let w = words_of(self.report);
        im_requests::keep_three(kept, BLOCKS, count, w.first, w.second, w.third);
    }
}

// Of a part that is refused nothing is said of what stands in the words of its blocks.
fn report_blocks(s: &[u8], kept: &mut [u64; BLOCK_WORDS]) -> Option<PartRead>
    ensures { part_left result kept.new ≡ part_kept kept.old (part_in s.now) }
{
    let listed = REPORT;
    let stops = im_members::SECOND;
    let mut at = [0usize; 10];
    let mut codes = [0u64; 10];
    let m = im_requests::begin_message(s, &listed, &stops, &mut at, &mut codes)?;
    if 10 <= m.slot {
        return part_of(s.len(), m, &codes, 0);
    }
    let f = list_of::<Block>(s, m.head, base_bounds::MAX_DEPTH - 1, kept)?;
    let z = im_members::finish(
        s,
        f.next,
        base_bounds::MAX_DEPTH - 1,
        tlv_reader::STRUCTURE,
        &listed,
        &mut at,
        &mut codes,
    )?;
    part_of(s.len(), z, &codes, f.count)
}

// ReportDataMessage, its blocks kept. One that is refused leaves nothing in their words.
pub fn report_kept(s: &[u8], kept: &mut [u64; BLOCK_WORDS]) -> Option<PartRead>
    ensures { part_with result kept.new ≡ part_kept kept.old (part_in s.now) }
{
    let p = report_blocks(s, kept);
    if p.is_none() {
        *kept = [0u64; BLOCK_WORDS];
    }
    p
}
