// Why a whole request is refused: the order of the statuses in one place, for every action.
ghost use Rattle.std.specs.Prelude.{◌≡◌};
ghost use Rattle.server_replies.specs.Refusal.{refusal_code};

use base_bounds::{MAX_FILTERS, MAX_PATHS, MAX_WRITES};

// The status of a request that is not well-formed, before all others.
pub const MALFORMED: u8 = 0x80;

const TIMED_MISMATCH: u8 = 0xC9;

const PATHS_EXHAUSTED: u8 = 0xC8;

const RESOURCE_EXHAUSTED: u8 = 0x89;

// What a well-formed request asks for, as far as that decides it: whether a timed one is meant, and how many paths, filters and writes it has.
#[derive(Clone, Copy)]
pub struct Asks {
    pub timed: u64,
    pub paths: usize,
    pub filters: usize,
    pub writes: usize,
}

// The status of a request by what it asks for, or 0 if none applies. None is one that is not well-formed.
pub fn refusal_code(asks: Option<Asks>) -> u8
    ensures { result ≡ refusal_code asks }
{
    let Some(a) = asks else {
        return MALFORMED;
    };
    if a.timed == 1 {
        return TIMED_MISMATCH;
    }
    if MAX_PATHS < a.paths {
        return PATHS_EXHAUSTED;
    }
    if MAX_FILTERS < a.filters {
        return RESOURCE_EXHAUSTED;
    }
    if MAX_WRITES < a.writes {
        return RESOURCE_EXHAUSTED;
    }
    0
}
