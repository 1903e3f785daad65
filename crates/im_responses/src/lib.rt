// Report Data, read to its meaning (chapter 10, section 10.6.3; RULES 4 and 7).

#![tactic(auto)]

ghost use Rattle.std.specs.Prelude.{◌≡◌, Some, List, ℕ};
ghost use Rattle.im_members.specs.Pass.{pass_with};
ghost use Rattle.im_responses.specs.Report.{part_by};

use im_members::{ABSENT, Stop, WRONG};

pub mod kept; // kept.rt: the blocks kept in words that are lent
pub mod answer; // answer.rt: the Write Response

// A part of a report: whether more is promised (1), and how many blocks it has.
#[derive(Clone, Copy)]
pub struct PartRead {
    pub more: u64,
    pub blocks: usize,
}

const REPORT: [bool; 10] = [
    true, true, false, true, true, false, false, false, false, true,
];

// The part whose members were passed, with so many blocks: SubscriptionID (tag 0), blocks (1), MoreChunkedMessages (3), SuppressResponse (4) and
// the revision.
fn part_of(len: usize, m: Stop, codes: &[u64; 10], blocks: usize) -> Option<PartRead>
    ensures { (at : List ℕ) → result ≡ part_by len (pass_with (Some m) at codes.now) blocks }
{
    if !im_requests::is_whole(Some(m), len) {
        return None;
    }
    let subscription = im_members::number_by(codes[0], 4294967295, false);
    let more = im_members::flag_by(codes[3]);
    let suppress = im_members::flag_by(codes[4]);
    let revision = im_members::number_by(codes[9], 255, false);
    if subscription == WRONG {
        return None;
    }
    if more == WRONG {
        return None;
    }
    if suppress == WRONG {
        return None;
    }
    if ABSENT <= revision {
        return None;
    }
    Some(PartRead { more, blocks })
}
