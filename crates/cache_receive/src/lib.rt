// A message taken: the refusals in their order, then what the awaited reply says.

#![tactic(auto)]

ghost use Rattle.std.specs.Prelude.{◌≡◌, Bool, true, false, List, ℕ, ◌≤◌, ◌<◌, length};
ghost use Rattle.base_bounds.specs.Bounds.{payload_limit};
ghost use Rattle.im_writer.specs.Envelope.{exchange_limit};
ghost use Rattle.im_envelope.specs.Envelope.{max_message};
ghost use Rattle.im_responses.specs.Kept.{max_blocks};
ghost use Rattle.cache_entries.specs.Entries.{held_of};
ghost use Rattle.cache_entries.specs.Valid.{held_right};
ghost use Rattle.cache_report.specs.Words.{judgements_from};
ghost use Rattle.cache_state.specs.State.{cache_right};
ghost use Rattle.cache_state.specs.Words.{asked_size, words_right, standing_in, request_of, held_in, state_with, state_in};
ghost use Rattle.cache_state.specs.Reaction.{unsent, of_cache, CacheReacted};
ghost use Rattle.cache_receive.specs.Receive.{for_cache, opcode_awaited, awaited, of_write, ended_with, by_status, by_answer, goes_on, ends, past_turns, takes_part, received};
ghost use Rattle.cache_receive.specs.Steps.{opened_in, opened_of, by_reply, after_part, PartDone, part_done};

use cache_entries::valid::columns_whole;
use cache_entries::{CLUSTERS, ENTRIES, ORDER_SIZE, TEXT_PLACES};
use cache_messages::other::put_success;
use cache_report::part::{judge_part, take_part};
use cache_report::set::Counts;
use cache_state::words::{keep, put_standing, read_standing};
use cache_state::{
    ASKED_WORDS, BROKEN, CacheStanding, DONE, LAST_PART, NO_MESSAGE, NOT_AWAITED, NOTHING, Outcome,
    READING, SMALL_BUFFER, STATUS, UNUSABLE, WRITING, cache_ok, is_open, refuse,
};
use im_blocks::Path;
use im_envelope::{Fields, MAX_MESSAGE, envelope_of};
use im_exchange::{FIRST_REPLY, MAX_TURN, REPORT, WRITE_RESPONSE};
use im_requests::status_response;
use im_responses::answer::write_response;
use im_responses::kept::{BLOCK_WORDS, BLOCKS, report_kept};
use im_writer::envelope::CACHE_EDITION;

// A cache takes opcodes 1, 5 and 7, in the edition of its own exchanges.
fn is_for_cache(edition: u64, opcode: u64) -> bool
    ensures { result ≡ for_cache edition opcode }
{
    if edition != CACHE_EDITION as u64 {
        return false;
    }
    if opcode == im_exchange::STATUS {
        return true;
    }
    if opcode == REPORT {
        return true;
    }
    opcode == WRITE_RESPONSE
}

// 1 at turn 1 alone, 5 in a read, 7 in a write.
fn opcode_awaited(stage: u64, e: Fields) -> bool
    ensures { result ≡ opcode_awaited stage e }
{
    if e.opcode == im_exchange::STATUS {
        return e.turn == FIRST_REPLY;
    }
    if e.opcode == REPORT {
        return stage == READING;
    }
    stage == WRITING
}

// The exchange, turn and opcode awaited.
fn is_awaited(t: CacheStanding, e: Fields) -> bool
    ensures { (kept : List ℕ) → result ≡ awaited (request_of t kept) e }
{
    if !is_open(t.stage) {
        return false;
    }
    if e.exchange != t.exchange {
        return false;
    }
    if e.turn != t.turn {
        return false;
    }
    opcode_awaited(t.stage, e)
}

// Why a message is not taken, or 0 and its opcode.
#[derive(Clone, Copy)]
pub struct Opened {
    pub number: u8,
    pub opcode: u64,
}

fn shut(number: u8) -> Opened
    ensures { result ≡ record { number = number; opcode = 0 } }
{
    Opened { number, opcode: 0 }
}

// By its envelope: 4 or 5.
fn open_envelope(t: CacheStanding, message: &[u8]) -> Opened
    ensures { (kept : List ℕ) → result ≡ opened_in (request_of t kept) message.now }
{
    let Some(e) = envelope_of(message) else {
        return shut(NO_MESSAGE);
    };
    if MAX_MESSAGE < message.len() {
        return shut(NO_MESSAGE);
    }
    if !is_for_cache(e.edition, e.opcode) {
        return shut(NO_MESSAGE);
    }
    if !is_awaited(t, e) {
        return shut(NOT_AWAITED);
    }
    Opened {
        number: DONE,
        opcode: e.opcode,
    }
}

// 2 and 3, then by its envelope; t was read from the words.
fn open_message<'a>(
    page: &'a [u8],
    clusters: &'a [u64; CLUSTERS],
    keys: &'a [u64; ENTRIES],
    versions: &'a [u64; ENTRIES],
    kinds: &'a [u8; ENTRIES],
    words: &'a [u64; ENTRIES],
    order: &'a [u8; ORDER_SIZE],
    lengths: &'a [u16; TEXT_PLACES],
    asked: &'a [u64; ASKED_WORDS],
    t: CacheStanding,
    message: &'a [u8],
    room: usize,
) -> Opened
    ensures { (kept : List ℕ) → result ≡ opened_of asked.now page.now (state_with clusters.now keys.now versions.now kinds.now words.now order.now lengths.now t kept) message.now room }
{
    if !cache_ok(
        page, clusters, keys, versions, kinds, words, order, lengths, asked, t,
    ) {
        return shut(BROKEN);
    }
    if room < MAX_MESSAGE {
        return shut(SMALL_BUFFER);
    }
    open_envelope(t, message)
}

// The request ends with a status; one of more than 8 bits is none.
fn end_with(asked: &mut [u64; ASKED_WORDS], t: CacheStanding, code: u64) -> Outcome
    requires { (t ≡ standing_in asked.old) × ((words_right asked.old ≡ true) × (length asked.old ≡ asked_size)) }
    ensures { (clusters keys versions kinds words order lengths kept page old : List ℕ) → CacheReacted (unsent (ended_with (state_with clusters keys versions kinds words order lengths t kept) code) page) result (state_in clusters keys versions kinds words order lengths asked.new kept) asked.old asked.new page old old }
{
    if 256 <= code {
        return refuse(UNUSABLE);
    }
    let mut next = t;
    next.stage = STATUS;
    next.status = code;
    put_standing(asked, next);
    Outcome {
        number: NOTHING,
        len: 0,
    }
}

// A Status Response to a request ends it with that status.
fn take_status(asked: &mut [u64; ASKED_WORDS], t: CacheStanding, payload: &[u8]) -> Outcome
    requires { (t ≡ standing_in asked.old) × ((words_right asked.old ≡ true) × (length asked.old ≡ asked_size)) }
    ensures { (clusters keys versions kinds words order lengths kept page old : List ℕ) → CacheReacted (unsent (by_status (state_with clusters keys versions kinds words order lengths t kept) payload.now) page) result (state_in clusters keys versions kinds words order lengths asked.new kept) asked.old asked.new page old old }
{
    let Some(code) = status_response(payload) else {
        return refuse(UNUSABLE);
    };
    end_with(asked, t, code)
}

// The path that was written.
fn is_of_write(t: CacheStanding, p: Path) -> bool
    ensures { (kept : List ℕ) → result ≡ of_write (request_of t kept) p }
{
    if !im_blocks::exact(p) {
        return false;
    }
    if p.endpoint != t.endpoint {
        return false;
    }
    if p.cluster != t.cluster {
        return false;
    }
    p.attribute == t.attribute
}

// A Write Response ends the write with the status for its own path.
fn take_answer(asked: &mut [u64; ASKED_WORDS], t: CacheStanding, payload: &[u8]) -> Outcome
    requires { (t ≡ standing_in asked.old) × ((words_right asked.old ≡ true) × (length asked.old ≡ asked_size)) }
    ensures { (clusters keys versions kinds words order lengths kept page old : List ℕ) → CacheReacted (unsent (by_answer (state_with clusters keys versions kinds words order lengths t kept) payload.now) page) result (state_in clusters keys versions kinds words order lengths asked.new kept) asked.old asked.new page old old }
{
    let Some(x) = write_response(payload) else {
        return refuse(UNUSABLE);
    };
    if !is_of_write(t, x.path) {
        return refuse(UNUSABLE);
    }
    let status = x.status;
    end_with(asked, t, status.code)
}

// An awaited reply that is no part of a report.
fn take_reply(
    asked: &mut [u64; ASKED_WORDS],
    t: CacheStanding,
    opcode: u64,
    payload: &[u8],
) -> Outcome
    requires { (t ≡ standing_in asked.old) × ((words_right asked.old ≡ true) × (length asked.old ≡ asked_size)) }
    ensures { (clusters keys versions kinds words order lengths kept page old : List ℕ) → CacheReacted (unsent (by_reply (state_with clusters keys versions kinds words order lengths t kept) opcode payload.now) page) result (state_in clusters keys versions kinds words order lengths asked.new kept) asked.old asked.new page old old }
{
    if opcode == im_exchange::STATUS {
        return take_status(asked, t, payload);
    }
    take_answer(asked, t, payload)
}

// A part that promises more was taken: a success for it, and the next part is awaited.
fn go_on(
    asked: &mut [u64; ASKED_WORDS],
    kept: &mut [u8; MAX_MESSAGE],
    t: CacheStanding,
    out: &mut [u8],
) -> Outcome
    requires { (words_right asked.old ≡ true) × ((length asked.old ≡ asked_size) × ((t.primed ≤ 1) × ((t.exchange < exchange_limit) × ((t.turn < 65535) × (max_message ≤ length out.old))))) }
    ensures { (clusters keys versions kinds words order lengths page : List ℕ) → CacheReacted (goes_on (held_in clusters keys versions kinds words order lengths t) (request_of t kept.old) page) result (state_in clusters keys versions kinds words order lengths asked.new kept.new) asked.old asked.new page out.old out.new }
{
    let end = put_success(out, CACHE_EDITION, t.exchange, t.turn as u16);
    keep(kept, &out[0..end]);
    let mut next = t;
    next.turn = t.turn + 1;
    next.len = end;
    put_standing(asked, next);
    Outcome {
        number: DONE,
        len: end,
    }
}

// The last part was taken: the read has ended, and the cache is primed.
fn end_read(asked: &mut [u64; ASKED_WORDS], t: CacheStanding) -> Outcome
    requires { (words_right asked.old ≡ true) × (length asked.old ≡ asked_size) }
    ensures { (clusters keys versions kinds words order lengths kept page old : List ℕ) → CacheReacted (ends (held_in clusters keys versions kinds words order lengths t) (request_of t kept) page) result (state_in clusters keys versions kinds words order lengths asked.new kept) asked.old asked.new page old old }
{
    let mut next = t;
    next.primed = 1;
    next.stage = LAST_PART;
    next.status = 0;
    put_standing(asked, next);
    Outcome {
        number: NOTHING,
        len: 0,
    }
}

// More is promised, and there is no turn left for it.
fn is_past_turns(more: u64, turn: u64) -> bool
    ensures { result ≡ past_turns more turn }
{
    if more == 1 {
        return turn == MAX_TURN;
    }
    false
}

// A part was taken; t has the counts that it leads to.
fn after_part(
    asked: &mut [u64; ASKED_WORDS],
    kept: &mut [u8; MAX_MESSAGE],
    t: CacheStanding,
    more: u64,
    out: &mut [u8],
) -> Outcome
    requires { (words_right asked.old ≡ true) × ((length asked.old ≡ asked_size) × ((t.primed ≤ 1) × ((t.exchange < exchange_limit) × ((t.turn < 65536) × ((past_turns more t.turn ≡ false) × (max_message ≤ length out.old)))))) }
    ensures { (clusters keys versions kinds words order lengths page : List ℕ) → CacheReacted (after_part (held_in clusters keys versions kinds words order lengths t) (request_of t kept.old) page more) result (state_in clusters keys versions kinds words order lengths asked.new kept.new) asked.old asked.new page out.old out.new }
{
    if more == 1 {
        return go_on(asked, kept, t, out);
    }
    end_read(asked, t)
}

// The number of a part, and how many clusters and entries there are after it.
#[derive(Clone, Copy)]
pub struct PartTaken {
    pub number: u8,
    pub counts: Counts,
}

// The blocks of a part: judged whole, then taken.
fn take_blocks(
    page: &mut [u8],
    clusters: &mut [u64; CLUSTERS],
    keys: &mut [u64; ENTRIES],
    versions: &mut [u64; ENTRIES],
    kinds: &mut [u8; ENTRIES],
    words: &mut [u64; ENTRIES],
    order: &mut [u8; ORDER_SIZE],
    lengths: &mut [u16; TEXT_PLACES],
    counts: Counts,
    payload: &[u8],
    blocks: &[u64; BLOCK_WORDS],
    count: usize,
) -> PartTaken
    requires { (count ≤ max_blocks) × ((primed : Bool) → held_right page.old (held_of clusters.old keys.old versions.old kinds.old words.old order.old lengths.old counts.clusters counts.entries primed) ≡ true) }
    ensures { (primed : Bool) → ◌≡◌ {A = PartDone} (record { number = result.number; held = held_of clusters.new keys.new versions.new kinds.new words.new order.new lengths.new result.counts.clusters result.counts.entries primed; page = page.new }) (part_done payload.now (held_of clusters.old keys.old versions.old kinds.old words.old order.old lengths.old counts.clusters counts.entries primed) page.old (judgements_from payload.now blocks.now count 0)) }
{
    columns_whole(clusters, keys, versions, kinds, words, order, lengths);
    let mut positions = [0u64; BLOCKS];
    let number = judge_part(
        payload,
        blocks,
        count,
        clusters,
        keys,
        order,
        counts,
        &mut positions,
    );
    if number != DONE {
        return PartTaken { number, counts };
    }
    let counts = take_part(
        payload, blocks, count, &positions, clusters, keys, versions, kinds, words, order, lengths,
        page, counts,
    );
    PartTaken { number, counts }
}

// A part of a report.
fn take_report(
    page: &mut [u8],
    clusters: &mut [u64; CLUSTERS],
    keys: &mut [u64; ENTRIES],
    versions: &mut [u64; ENTRIES],
    kinds: &mut [u8; ENTRIES],
    words: &mut [u64; ENTRIES],
    order: &mut [u8; ORDER_SIZE],
    lengths: &mut [u16; TEXT_PLACES],
    asked: &mut [u64; ASKED_WORDS],
    kept: &mut [u8; MAX_MESSAGE],
    t: CacheStanding,
    payload: &[u8],
    out: &mut [u8],
) -> Outcome
    requires { (t ≡ standing_in asked.old) × ((words_right asked.old ≡ true) × ((length asked.old ≡ asked_size) × ((cache_right page.old (state_with clusters.old keys.old versions.old kinds.old words.old order.old lengths.old t kept.old) ≡ true) × ((length payload.now ≤ payload_limit) × (max_message ≤ length out.old))))) }
    ensures { CacheReacted (takes_part page.old (state_with clusters.old keys.old versions.old kinds.old words.old order.old lengths.old t kept.old) payload.now) result (state_in clusters.new keys.new versions.new kinds.new words.new order.new lengths.new asked.new kept.new) asked.old asked.new page.new out.old out.new }
{
    let mut blocks = [0u64; BLOCK_WORDS];
    let Some(p) = report_kept(payload, &mut blocks) else {
        return refuse(UNUSABLE);
    };
    if is_past_turns(p.more, t.turn) {
        return refuse(UNUSABLE);
    }
    let filled = take_blocks(
        page,
        clusters,
        keys,
        versions,
        kinds,
        words,
        order,
        lengths,
        Counts {
            clusters: t.cluster_count,
            entries: t.count,
        },
        payload,
        &blocks,
        p.blocks,
    );
    if filled.number != DONE {
        return refuse(filled.number);
    }
    let counts = filled.counts;
    let mut next = t;
    next.cluster_count = counts.clusters;
    next.count = counts.entries;
    after_part(asked, kept, next, p.more, out)
}

// A message from the server: any bytes, any buffer, any memory.
pub fn receive(
    page: &mut [u8],
    clusters: &mut [u64; CLUSTERS],
    keys: &mut [u64; ENTRIES],
    versions: &mut [u64; ENTRIES],
    kinds: &mut [u8; ENTRIES],
    words: &mut [u64; ENTRIES],
    order: &mut [u8; ORDER_SIZE],
    lengths: &mut [u16; TEXT_PLACES],
    asked: &mut [u64; ASKED_WORDS],
    kept: &mut [u8; MAX_MESSAGE],
    message: &[u8],
    out: &mut [u8],
) -> Outcome
    ensures { CacheReacted (of_cache asked.old page.old (state_in clusters.old keys.old versions.old kinds.old words.old order.old lengths.old asked.old kept.old) (received page.old (state_in clusters.old keys.old versions.old kinds.old words.old order.old lengths.old asked.old kept.old) message.now (length out.old))) result (state_in clusters.new keys.new versions.new kinds.new words.new order.new lengths.new asked.new kept.new) asked.old asked.new page.new out.old out.new }
{
    let t = read_standing(asked);
    let room = out.len();
    let x = open_message(
        page, clusters, keys, versions, kinds, words, order, lengths, asked, t, message, room,
    );
    if x.number != DONE {
        return refuse(x.number);
    }
    let payload = &message[im_envelope::LENGTH..message.len()];
    if x.opcode == REPORT {
        return take_report(
            page, clusters, keys, versions, kinds, words, order, lengths, asked, kept, t, payload,
            out,
        );
    }
    take_reply(asked, t, x.opcode, payload)
}
