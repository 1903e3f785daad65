// What a block of a report gets by itself: an entry to set, 6 or 7.
ghost use Rattle.std.specs.Prelude.{◌≡◌, ℕ, ◌≤◌};
ghost use Rattle.im_responses.specs.Kept.{max_blocks};
ghost use Rattle.cache_report.specs.Words.{judgement_words, judgements_from, alone, alone_all};

use super::{NO_ROOM, UNUSABLE};
use cache_entries::values::{is_long, usable};
use im_responses::kept::{BLOCK_WORDS, UNSHOWN};
use tlv_reader::{Value, value_in};

// An entry to set: path, version, value. A text is a part of the message. The contracts speak of it; no function takes one.
#[derive(Clone, Copy)]
pub struct NewEntry {
    pub endpoint: u16,
    pub cluster: u32,
    pub attribute: u32,
    pub version: u32,
    pub value: Value,
}

// Why a block sets none. The contracts speak of `Result<NewEntry, Unfit>`.
#[derive(Clone, Copy)]
pub enum Unfit {
    // A text over the limit: 7.
    Long,
    // 6.
    Unusable,
}

// What a block gets, by its first word and the place of its data: 6, 7 or 0.
fn alone(s: &[u8], first: u64, place: u64) -> u8
    ensures { (second : ℕ) → result ≡ alone (judgement_words s.now first second place) }
{
    if UNSHOWN <= first {
        return UNUSABLE;
    }
    let v = value_in(s, place as usize);
    if !usable(s, v) {
        return UNUSABLE;
    }
    if is_long(v) { NO_ROOM } else { 0 }
}

// What n blocks get, each by itself: 6 before 7 before 0.
pub fn judge_alone(s: &[u8], blocks: &[u64; BLOCK_WORDS], n: usize) -> u8
    requires { n ≤ max_blocks }
    ensures { result ≡ alone_all (judgements_from s.now blocks.now n 0) }
{
    let mut number: u8 = 0;
    for j in 0..n {
        let one = alone(s, blocks[3 * j], blocks[3 * j + 2]);
        if one == UNUSABLE {
            return UNUSABLE;
        }
        if one == NO_ROOM {
            number = NO_ROOM;
        }
    }
    number
}
