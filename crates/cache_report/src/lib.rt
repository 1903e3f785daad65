// A part of a report as the cache takes it (RULES 7.7, 7.8; refusals 6 and 7): judged whole, then each block sets an entry. Its blocks are
// words that are lent (`im_responses::kept`), so that each is read once.

#![tactic(auto)]

pub mod block; // block.rt: what a block gets by itself
pub mod position; // position.rt: where each block goes
pub mod set; // set.rt: an entry set
pub mod part; // part.rt: all blocks of a part

// The numbers of RULES 6.1.
pub const UNUSABLE: u8 = 6;

pub const NO_ROOM: u8 = 7;
