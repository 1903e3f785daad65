// The cache: the client's copy of a server. Every call takes any bytes, any buffer, any memory, and answers a number of RULES 6.1.

#![tactic(auto)]

ghost use Rattle.std.specs.Prelude.{◌≡◌, ◌&&◌, List, ℕ};
ghost use Rattle.cache_state.specs.State.{is_open, open_right, asked_right, cache_right};
ghost use Rattle.cache_state.specs.Words.{words_right, request_of, state_with};

use cache_entries::valid::held_ok;
use cache_entries::{CLUSTERS, Cached, ENTRIES, ORDER_SIZE, TEXT_PLACES};
use im_envelope::MAX_MESSAGE;
use im_exchange::FIRST_REPLY;
use im_writer::envelope::EXCHANGE_LIMIT;

pub mod begin; // begin.rt: a fresh cache, a read or a write begun, the newest message again
pub mod words; // words.rt: how the newest request stands, in the words that are lent for it

// How the newest request stands.
pub const NONE: u64 = 0;

pub const READING: u64 = 1;

pub const WRITING: u64 = 2;

pub const LAST_PART: u64 = 3;

pub const STATUS: u64 = 4;

// The words lent for the counts and the newest request.
pub const ASKED_WORDS: usize = 16;

// The newest request, and what is awaited. The contracts speak of it; no function takes one.
#[derive(Clone, Copy)]
pub struct Request {
    // The highest exchange number that was used, and that of the newest request.
    pub used: u64,
    pub exchange: u64,
    pub stage: u8,
    // The turn of the reply that is awaited, while the request is open.
    pub turn: u16,
    // The status that it ended with.
    pub status: u8,
    // What a write is of.
    pub endpoint: u16,
    pub cluster: u32,
    pub attribute: u32,
    // The exchange of the newest abandoned write, 0 if there is none (RULES 7.6: unknown).
    pub unknown: u64,
    // The newest message.
    pub kept: [u8; MAX_MESSAGE],
    pub len: usize,
}

// What a cache holds, and its newest request. Its texts lie in a lent page. The contracts speak of it; no function takes one.
#[derive(Clone, Copy)]
pub struct CacheState {
    pub held: Cached,
    pub asked: Request,
}

// What is read from the words at the start of a call and put back at its end, in their order.
#[derive(Clone, Copy)]
pub struct CacheStanding {
    pub cluster_count: usize,
    pub count: usize,
    pub primed: u64,
    pub used: u64,
    pub exchange: u64,
    pub stage: u64,
    pub turn: u64,
    pub status: u64,
    pub endpoint: u64,
    pub cluster: u64,
    pub attribute: u64,
    pub unknown: u64,
    pub len: usize,
}

// The number of RULES 6.1, and the message's length in the buffer.
#[derive(Clone, Copy)]
pub struct Outcome {
    pub number: u8,
    pub len: usize,
}

// The numbers of RULES 6.1.
pub const DONE: u8 = 0;

pub const NOTHING: u8 = 1;

pub const BROKEN: u8 = 2;

pub const SMALL_BUFFER: u8 = 3;

pub const NO_MESSAGE: u8 = 4;

pub const NOT_AWAITED: u8 = 5;

pub const UNUSABLE: u8 = 6;

pub const NUMBERS_USED: u8 = 8;

pub const NOT_OPEN: u8 = 9;

pub const NOT_WRITABLE: u8 = 10;

pub fn is_open(stage: u64) -> bool
    ensures { result ≡ is_open stage }
{
    if stage == READING {
        return true;
    }
    stage == WRITING
}

// While a request is open: an exchange, a turn to await, of a write the first, and a message that was sent.
fn open_ok(t: CacheStanding) -> bool
    ensures { (kept : List ℕ) → result ≡ open_right (request_of t kept) }
{
    if t.exchange == 0 {
        return false;
    }
    if t.turn == 0 {
        return false;
    }
    if t.stage == WRITING {
        if t.turn != FIRST_REPLY {
            return false;
        }
    }
    0 < t.len
}

// Numbers of 40 bits that were used, a stage that there is, and what an open request needs.
fn asked_ok(t: CacheStanding) -> bool
    ensures { (kept : List ℕ) → result ≡ asked_right (request_of t kept) }
{
    if EXCHANGE_LIMIT <= t.used {
        return false;
    }
    if t.used < t.exchange {
        return false;
    }
    if t.used < t.unknown {
        return false;
    }
    if STATUS < t.stage {
        return false;
    }
    if MAX_MESSAGE < t.len {
        return false;
    }
    if !is_open(t.stage) {
        return true;
    }
    open_ok(t)
}

// Whether what is lent is a cache that keeps the rules (refusal 2, RULES 6.1); t was read from its words.
pub fn cache_ok<'a>(
    page: &'a [u8],
    clusters: &'a [u64; CLUSTERS],
    keys: &'a [u64; ENTRIES],
    versions: &'a [u64; ENTRIES],
    kinds: &'a [u8; ENTRIES],
    words: &'a [u64; ENTRIES],
    order: &'a [u8; ORDER_SIZE],
    lengths: &'a [u16; TEXT_PLACES],
    asked: &'a [u64; ASKED_WORDS],
    t: CacheStanding,
) -> bool
    ensures { (kept : List ℕ) → result ≡ (words_right asked.now && cache_right page.now (state_with clusters.now keys.now versions.now kinds.now words.now order.now lengths.now t kept)) }
{
    if !words::words_ok(asked) {
        return false;
    }
    let k = t.cluster_count;
    let n = t.count;
    if !held_ok(
        page, clusters, keys, versions, kinds, words, order, lengths, k, n,
    ) {
        return false;
    }
    asked_ok(t)
}

// A refusal, which leaves everything as it was.
pub fn refuse(number: u8) -> Outcome
    ensures { result ≡ record { number = number; len = 0 } }
{
    Outcome { number, len: 0 }
}
