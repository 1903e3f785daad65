// A fresh cache, a request begun, and the newest message again.
ghost use Rattle.std.specs.Prelude.{◌≡◌, true, List, ℕ, ◌+◌, ◌≤◌, ◌<◌, length, take, replicate};
ghost use Rattle.base_octets.specs.Store.{store};
ghost use Rattle.im_writer.specs.Envelope.{exchange_limit};
ghost use Rattle.im_envelope.specs.Envelope.{max_message};
ghost use Rattle.cache_state.specs.Words.{asked_size, words_right, standing_in, request_of, state_with, state_in, standing_of};
ghost use Rattle.cache_state.specs.Begin.{fresh, unknown_after, asking, sendable, begins_read, begins_write, resends, unready};
ghost use Rattle.cache_state.specs.Reaction.{of_cache, Leaves, CacheReacted};

use super::words::{keep, put_standing, read_standing};
use super::{
    ASKED_WORDS, BROKEN, CacheStanding, DONE, NOT_OPEN, NOT_WRITABLE, NUMBERS_USED, Outcome,
    READING, SMALL_BUFFER, WRITING, cache_ok, is_open, refuse,
};
use base_octets::put_bytes;
use cache_entries::values::{is_long, usable};
use cache_entries::{CLUSTERS, ENTRIES, ORDER_SIZE, TEXT_PLACES};
use cache_messages::other::put_write;
use cache_messages::read::put_read;
use im_envelope::MAX_MESSAGE;
use im_exchange::FIRST_REPLY;
use im_writer::envelope::{CACHE_EDITION, EXCHANGE_LIMIT};
use tlv_reader::Value;

// The last exchange number.
pub const LAST_EXCHANGE: u64 = EXCHANGE_LIMIT - 1;

// A fresh cache in the memory that is lent; its page may be any bytes of its size.
pub fn fresh(
    clusters: &mut [u64; CLUSTERS],
    keys: &mut [u64; ENTRIES],
    versions: &mut [u64; ENTRIES],
    kinds: &mut [u8; ENTRIES],
    words: &mut [u64; ENTRIES],
    order: &mut [u8; ORDER_SIZE],
    lengths: &mut [u16; TEXT_PLACES],
    asked: &mut [u64; ASKED_WORDS],
    kept: &mut [u8; MAX_MESSAGE],
)
    ensures { (state_in clusters.new keys.new versions.new kinds.new words.new order.new lengths.new asked.new kept.new ≡ fresh) × (asked.new ≡ replicate asked_size 0) }
{
    *clusters = [0u64; CLUSTERS];
    *keys = [0u64; ENTRIES];
    *versions = [0u64; ENTRIES];
    *kinds = [0u8; ENTRIES];
    *words = [0u64; ENTRIES];
    *order = [0u8; ORDER_SIZE];
    *lengths = [0u16; TEXT_PLACES];
    *asked = [0u64; ASKED_WORDS];
    *kept = [0u8; MAX_MESSAGE];
}

// Beginning anew abandons an open request; an abandoned write is unknown.
fn unknown_after(t: CacheStanding) -> u64
    ensures { (kept : List ℕ) → result ≡ unknown_after (request_of t kept) }
{
    if t.stage == WRITING {
        return t.exchange;
    }
    t.unknown
}

// The next request, open, with a message of so many bytes.
fn asked_as(
    t: CacheStanding,
    stage: u64,
    endpoint: u16,
    cluster: u32,
    attribute: u32,
    len: usize,
) -> CacheStanding
    requires { (t.used + 1 < exchange_limit) × (t.primed ≤ 1) }
    ensures { (clusters keys versions kinds words order lengths kept message : List ℕ) → length message ≡ len → result ≡ standing_of (asking (state_with clusters keys versions kinds words order lengths t kept) stage endpoint cluster attribute message) }
{
    CacheStanding {
        cluster_count: t.cluster_count,
        count: t.count,
        primed: t.primed,
        used: t.used + 1,
        exchange: t.used + 1,
        stage,
        turn: FIRST_REPLY,
        status: 0,
        endpoint: endpoint as u64,
        cluster: cluster as u64,
        attribute: attribute as u64,
        unknown: unknown_after(t),
        len,
    }
}

// A message was written: it is kept, and its request is the newest.
fn ask(
    asked: &mut [u64; ASKED_WORDS],
    kept: &mut [u8; MAX_MESSAGE],
    t: CacheStanding,
    stage: u64,
    endpoint: u16,
    cluster: u32,
    attribute: u32,
    message: &[u8],
) -> Outcome
    requires { (t ≡ standing_in asked.old) × ((words_right asked.old ≡ true) × ((length asked.old ≡ asked_size) × ((t.used + 1 < exchange_limit) × (length message.now ≤ max_message)))) }
    ensures value { result ≡ record { number = 0; len = length message.now } }
    ensures left { (clusters keys versions kinds words order lengths : List ℕ) → Leaves (asking (state_in clusters keys versions kinds words order lengths asked.old kept.old) stage endpoint cluster attribute message.now) (state_in clusters keys versions kinds words order lengths asked.new kept.new) asked.old asked.new }
{
    let len = message.len();
    keep(kept, message);
    put_standing(asked, asked_as(t, stage, endpoint, cluster, attribute, len));
    Outcome { number: DONE, len }
}

// 2, 3 or 8 where nothing can be begun, else 0; t was read from the words.
fn cannot_begin<'a>(
    page: &'a [u8],
    clusters: &'a [u64; CLUSTERS],
    keys: &'a [u64; ENTRIES],
    versions: &'a [u64; ENTRIES],
    kinds: &'a [u8; ENTRIES],
    words: &'a [u64; ENTRIES],
    order: &'a [u8; ORDER_SIZE],
    lengths: &'a [u16; TEXT_PLACES],
    asked: &'a [u64; ASKED_WORDS],
    t: CacheStanding,
    room: usize,
) -> u8
    ensures { (kept : List ℕ) → result ≡ unready asked.now page.now (state_with clusters.now keys.now versions.now kinds.now words.now order.now lengths.now t kept) room }
{
    if !cache_ok(
        page, clusters, keys, versions, kinds, words, order, lengths, asked, t,
    ) {
        return BROKEN;
    }
    if room < MAX_MESSAGE {
        return SMALL_BUFFER;
    }
    if LAST_EXCHANGE <= t.used {
        return NUMBERS_USED;
    }
    DONE
}

// A read of everything that may be read, but for coherent clusters that have not changed.
pub fn begin_read<'a>(
    page: &'a [u8],
    clusters: &'a [u64; CLUSTERS],
    keys: &'a [u64; ENTRIES],
    versions: &'a [u64; ENTRIES],
    kinds: &'a [u8; ENTRIES],
    words: &'a [u64; ENTRIES],
    order: &'a [u8; ORDER_SIZE],
    lengths: &'a [u16; TEXT_PLACES],
    asked: &mut [u64; ASKED_WORDS],
    kept: &mut [u8; MAX_MESSAGE],
    out: &mut [u8],
) -> Outcome
    ensures { CacheReacted (of_cache asked.old page.now (state_in clusters.now keys.now versions.now kinds.now words.now order.now lengths.now asked.old kept.old) (begins_read page.now (state_in clusters.now keys.now versions.now kinds.now words.now order.now lengths.now asked.old kept.old) (length out.old))) result (state_in clusters.now keys.now versions.now kinds.now words.now order.now lengths.now asked.new kept.new) asked.old asked.new page.now out.old out.new }
{
    let t = read_standing(asked);
    let room = out.len();
    let number = cannot_begin(
        page, clusters, keys, versions, kinds, words, order, lengths, asked, t, room,
    );
    if number != DONE {
        return refuse(number);
    }
    let end = put_read(
        clusters,
        keys,
        versions,
        order,
        t.cluster_count,
        t.count,
        t.primed == 1,
        out,
        CACHE_EDITION,
        t.used + 1,
    );
    ask(asked, kept, t, READING, 0, 0, 0, &out[0..end])
}

// Whether a value can be written.
fn can_write(src: &[u8], v: Value) -> bool
    ensures { result ≡ sendable src.now v }
{
    if !usable(src, v) {
        return false;
    }
    !is_long(v)
}

// A write of one entry, whose version may be given.
pub fn begin_write<'a>(
    page: &'a [u8],
    clusters: &'a [u64; CLUSTERS],
    keys: &'a [u64; ENTRIES],
    versions: &'a [u64; ENTRIES],
    kinds: &'a [u8; ENTRIES],
    words: &'a [u64; ENTRIES],
    order: &'a [u8; ORDER_SIZE],
    lengths: &'a [u16; TEXT_PLACES],
    asked: &mut [u64; ASKED_WORDS],
    kept: &mut [u8; MAX_MESSAGE],
    endpoint: u16,
    cluster: u32,
    attribute: u32,
    given: bool,
    version: u32,
    new: Value,
    src: &'a [u8],
    out: &mut [u8],
) -> Outcome
    ensures { CacheReacted (of_cache asked.old page.now (state_in clusters.now keys.now versions.now kinds.now words.now order.now lengths.now asked.old kept.old) (begins_write page.now (state_in clusters.now keys.now versions.now kinds.now words.now order.now lengths.now asked.old kept.old) endpoint cluster attribute given version src.now new (length out.old))) result (state_in clusters.now keys.now versions.now kinds.now words.now order.now lengths.now asked.new kept.new) asked.old asked.new page.now out.old out.new }
{
    let t = read_standing(asked);
    let room = out.len();
    let number = cannot_begin(
        page, clusters, keys, versions, kinds, words, order, lengths, asked, t, room,
    );
    if number != DONE {
        return refuse(number);
    }
    if !can_write(src, new) {
        return refuse(NOT_WRITABLE);
    }
    let end = put_write(
        out,
        CACHE_EDITION,
        t.used + 1,
        given,
        version,
        endpoint,
        cluster,
        attribute,
        new,
        src,
    );
    let sent = &out[0..end];
    ask(asked, kept, t, WRITING, endpoint, cluster, attribute, sent)
}

// The kept message again.
fn put_kept(kept: &[u8; MAX_MESSAGE], len: usize, out: &mut [u8])
    requires { (len ≤ max_message) × (max_message ≤ length out.old) }
    ensures out_after { out.new ≡ store out.old 0 (take len kept.now) }
    ensures whole { length kept.now ≡ max_message }
{
    let bytes: &[u8] = kept;
    put_bytes(out, 0, &bytes[0..len]);
}

// The newest message again, while its request is open.
pub fn resend<'a>(
    page: &'a [u8],
    clusters: &'a [u64; CLUSTERS],
    keys: &'a [u64; ENTRIES],
    versions: &'a [u64; ENTRIES],
    kinds: &'a [u8; ENTRIES],
    words: &'a [u64; ENTRIES],
    order: &'a [u8; ORDER_SIZE],
    lengths: &'a [u16; TEXT_PLACES],
    asked: &'a [u64; ASKED_WORDS],
    kept: &'a [u8; MAX_MESSAGE],
    out: &mut [u8],
) -> Outcome
    ensures { CacheReacted (of_cache asked.now page.now (state_in clusters.now keys.now versions.now kinds.now words.now order.now lengths.now asked.now kept.now) (resends page.now (state_in clusters.now keys.now versions.now kinds.now words.now order.now lengths.now asked.now kept.now) (length out.old))) result (state_in clusters.now keys.now versions.now kinds.now words.now order.now lengths.now asked.now kept.now) asked.now asked.now page.now out.old out.new }
{
    let t = read_standing(asked);
    if !cache_ok(
        page, clusters, keys, versions, kinds, words, order, lengths, asked, t,
    ) {
        return refuse(BROKEN);
    }
    if out.len() < MAX_MESSAGE {
        return refuse(SMALL_BUFFER);
    }
    if !is_open(t.stage) {
        return refuse(NOT_OPEN);
    }
    put_kept(kept, t.len, out);
    Outcome {
        number: DONE,
        len: t.len,
    }
}
