// Lines for the cache: requests that it begins or sends again, messages handed to it, and what it holds. No input and no output.

#![tactic(auto)]

ghost use Rattle.std.specs.Prelude.{◌≡◌, ◌≤◌, length, take, IfSome};
ghost use Rattle.tlv_reader.specs.Octet.{pick};
ghost use Rattle.script_answer.specs.Messages.{content_of};
ghost use Rattle.script_cache.specs.Lines.{begins_request, is_cache, FreshMemory, used_up};
ghost use Rattle.script_cache.specs.Acts.{reads_by, resends_by, receives_by, writes_by, handed_at, write_turn, begin_turn, turn_at, Reacts, ReactsIn, ActsBy};

use cache_entries::{CLUSTERS, ENTRIES, ORDER_SIZE, PAGE_SIZE, TEXT_PLACES};
use cache_receive::receive;
use cache_state::begin::{begin_read, begin_write, resend};
use cache_state::words::{put_standing, read_standing};
use cache_state::{ASKED_WORDS, Outcome, begin};
use im_envelope::MAX_MESSAGE;
use node_kinds::stored::same_bytes;
use script_answer::Fault;
use script_answer::message::{MessageWords, newest, spelled};
use script_lines::hex::SPELLED;
use script_lines::number::read_marked;
use script_lines::path::{ID_MAX, PathWords, read_path};
use script_lines::sizes::clip;
use script_lines::value::read_value;
use script_lines::{Scan, is_done};
use tlv_reader::Value;

pub mod ask; // ask.rt: what the cache holds

// What a cache is lent but for its page of texts, kept by value between the lines of a script.
#[derive(Clone, Copy)]
pub struct CacheMemory {
    pub clusters: [u64; CLUSTERS],
    pub keys: [u64; ENTRIES],
    pub versions: [u64; ENTRIES],
    pub kinds: [u8; ENTRIES],
    pub words: [u64; ENTRIES],
    pub order: [u8; ORDER_SIZE],
    pub lengths: [u16; TEXT_PLACES],
    pub asked: [u64; ASKED_WORDS],
    pub kept: [u8; MAX_MESSAGE],
}

// The cache after a line, and what it answered.
#[derive(Clone, Copy)]
pub struct CacheAnswered {
    pub cache: CacheMemory,
    pub outcome: Outcome,
}

// A fresh cache.
pub fn fresh() -> CacheMemory
    ensures { FreshMemory result }
{
    let mut clusters = [0u64; CLUSTERS];
    let mut keys = [0u64; ENTRIES];
    let mut versions = [0u64; ENTRIES];
    let mut kinds = [0u8; ENTRIES];
    let mut words = [0u64; ENTRIES];
    let mut order = [0u8; ORDER_SIZE];
    let mut lengths = [0u16; TEXT_PLACES];
    let mut asked = [0u64; ASKED_WORDS];
    let mut kept = [0u8; MAX_MESSAGE];
    begin::fresh(
        &mut clusters,
        &mut keys,
        &mut versions,
        &mut kinds,
        &mut words,
        &mut order,
        &mut lengths,
        &mut asked,
        &mut kept,
    );
    CacheMemory {
        clusters,
        keys,
        versions,
        kinds,
        words,
        order,
        lengths,
        asked,
        kept,
    }
}

// The cache's exchange numbers up to n count as used; that never lowers them.
pub fn used_up(cache: CacheMemory, n: u64) -> CacheMemory
    ensures { result ≡ used_up cache n }
{
    let mut asked = cache.asked;
    let mut t = read_standing(&asked);
    if n <= t.used {
        return cache;
    }
    t.used = n;
    put_standing(&mut asked, t);
    let mut next = cache;
    next.asked = asked;
    next
}

// `cache`, or `back`: the server's newest reply.
fn handed(name: &[u8], line: &[u8], s: Scan, replied: MessageWords) -> Result<MessageWords, Fault>
    ensures { result ≡ handed_at name.now line.now s replied }
{
    if same_bytes(name, b"back") {
        return newest(s, replied, Fault::NotReplied);
    }
    spelled(line, s)
}

// The cache is handed a message.
fn take(page: &mut [u8], cache: CacheMemory, message: &[u8], out: &mut [u8]) -> CacheAnswered
    ensures { Reacts (receives_by cache page.old message.now (length out.old)) cache page.new out.old out.new result }
{
    let mut clusters = cache.clusters;
    let mut keys = cache.keys;
    let mut versions = cache.versions;
    let mut kinds = cache.kinds;
    let mut words = cache.words;
    let mut order = cache.order;
    let mut lengths = cache.lengths;
    let mut asked = cache.asked;
    let mut kept = cache.kept;
    let outcome = receive(
        page,
        &mut clusters,
        &mut keys,
        &mut versions,
        &mut kinds,
        &mut words,
        &mut order,
        &mut lengths,
        &mut asked,
        &mut kept,
        message,
        out,
    );
    let next = CacheMemory {
        clusters,
        keys,
        versions,
        kinds,
        words,
        order,
        lengths,
        asked,
        kept,
    };
    CacheAnswered {
        cache: next,
        outcome,
    }
}

// With a buffer as long as the script says, or ours where that is longer: from 1,032 bytes on, its length makes no difference to any answer.
fn hand(
    page: &mut [u8],
    cache: CacheMemory,
    m: MessageWords,
    out: &mut [u8],
    room: usize,
) -> CacheAnswered
    ensures { ReactsIn room (receives_by cache page.old (content_of m) (length (take room out.old))) cache page.new out.old out.new result }
{
    let n = clip(room, out);
    let bytes = m.bytes;
    let k = clip(m.len, &bytes);
    take(page, cache, &bytes[..k], &mut out[..n])
}

// `resend`
fn again(page: &[u8], cache: CacheMemory, out: &mut [u8]) -> CacheAnswered
    ensures { Reacts (resends_by cache page.now (length out.old)) cache page.now out.old out.new result }
{
    let p = cache;
    let outcome = resend(
        page,
        &p.clusters,
        &p.keys,
        &p.versions,
        &p.kinds,
        &p.words,
        &p.order,
        &p.lengths,
        &p.asked,
        &p.kept,
        out,
    );
    CacheAnswered { cache, outcome }
}

// `read`
fn read(page: &[u8], cache: CacheMemory, out: &mut [u8]) -> CacheAnswered
    ensures { Reacts (reads_by cache page.now (length out.old)) cache page.now out.old out.new result }
{
    let mut next = cache;
    let mut asked = cache.asked;
    let mut kept = cache.kept;
    let outcome = begin_read(
        page,
        &next.clusters,
        &next.keys,
        &next.versions,
        &next.kinds,
        &next.words,
        &next.order,
        &next.lengths,
        &mut asked,
        &mut kept,
        out,
    );
    next.asked = asked;
    next.kept = kept;
    CacheAnswered {
        cache: next,
        outcome,
    }
}

// `read`, or `resend`, with a buffer as long as the script says.
fn ask_again(
    resending: bool,
    page: &[u8],
    cache: CacheMemory,
    out: &mut [u8],
    room: usize,
) -> CacheAnswered
    ensures { ReactsIn room (pick resending (resends_by cache page.now (length (take room out.old))) (reads_by cache page.now (length (take room out.old)))) cache page.now out.old out.new result }
{
    let n = clip(room, out);
    if resending {
        return again(page, cache, &mut out[..n]);
    }
    read(page, cache, &mut out[..n])
}

fn change<'a>(
    page: &'a [u8],
    cache: CacheMemory,
    a: PathWords,
    version: Option<u64>,
    new: Value,
    src: &'a [u8],
    out: &mut [u8],
    room: usize,
) -> CacheAnswered
    requires { IfSome version (λ n. n ≤ 4294967295) }
    ensures { ReactsIn room (writes_by cache page.now a version src.now new (length (take room out.old))) cache page.now out.old out.new result }
{
    let n = clip(room, out);
    let mut next = cache;
    let mut asked = cache.asked;
    let mut kept = cache.kept;
    let outcome = begin_write(
        page,
        &next.clusters,
        &next.keys,
        &next.versions,
        &next.kinds,
        &next.words,
        &next.order,
        &next.lengths,
        &mut asked,
        &mut kept,
        a.endpoint,
        a.cluster,
        a.attribute,
        version.is_some(),
        version.unwrap_or(0) as u32,
        new,
        src,
        &mut out[..n],
    );
    next.asked = asked;
    next.kept = kept;
    CacheAnswered {
        cache: next,
        outcome,
    }
}

fn write_line(
    line: &[u8],
    s: Scan,
    cache: CacheMemory,
    page: &[u8; PAGE_SIZE],
    out: &mut [u8; MAX_MESSAGE],
    room: usize,
) -> Result<CacheAnswered, Fault>
    ensures { ActsBy (write_turn line.now s cache page.now (length (take room out.old))) cache room page.now page.now out.old out.new result }
{
    let a = read_path(line, s);
    let version = read_marked(line, a.next, b'-', ID_MAX);
    let mut bytes = [0u8; SPELLED];
    let v = read_value(line, version.next, &mut bytes);
    if !v.ok {
        return Err(Fault::Unreadable);
    }
    let new = v.value;
    Ok(change(page, cache, a, version.value, new, &bytes, out, room))
}

// Whether a line begins a request.
fn begins(name: &[u8]) -> bool
    ensures { result ≡ begins_request name.now }
{
    if same_bytes(name, b"read") {
        return true;
    }
    if same_bytes(name, b"resend") {
        return true;
    }
    same_bytes(name, b"write")
}

// Whether the cache acts by a line.
pub fn is_cache(name: &[u8]) -> bool
    ensures { result ≡ is_cache name.now }
{
    if begins(name) {
        return true;
    }
    if same_bytes(name, b"back") {
        return true;
    }
    same_bytes(name, b"panel")
}

// A request begun, or sent again.
fn begin_line(
    name: &[u8],
    line: &[u8],
    s: Scan,
    cache: CacheMemory,
    page: &[u8; PAGE_SIZE],
    out: &mut [u8; MAX_MESSAGE],
    room: usize,
) -> Result<CacheAnswered, Fault>
    ensures { ActsBy (begin_turn name.now line.now s cache page.now (length (take room out.old))) cache room page.now page.now out.old out.new result }
{
    if same_bytes(name, b"write") {
        return write_line(line, s, cache, page, out, room);
    }
    if !is_done(s) {
        return Err(Fault::Unreadable);
    }
    Ok(ask_again(same_bytes(name, b"resend"), page, cache, out, room))
}

pub fn cache_line(
    name: &[u8],
    line: &[u8],
    s: Scan,
    cache: CacheMemory,
    replied: MessageWords,
    page: &mut [u8; PAGE_SIZE],
    out: &mut [u8; MAX_MESSAGE],
    room: usize,
) -> Result<CacheAnswered, Fault>
    ensures { ActsBy (turn_at name.now line.now s cache replied page.old (length (take room out.old))) cache room page.old page.new out.old out.new result }
{
    if begins(name) {
        return begin_line(name, line, s, cache, page, out, room);
    }
    let m = handed(name, line, s, replied)?;
    Ok(hand(page, cache, m, out, room))
}
