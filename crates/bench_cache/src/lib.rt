// What a program in C or Rust links to measure a cache: its calls over memory that the program owns, and the test of refusal 2 alone.

#![tactic(auto)]

ghost use Rattle.std.specs.Prelude.{◌≡◌, ◌&&◌, List, ℕ, length, replicate};
ghost use Rattle.cache_state.specs.State.{cache_right};
ghost use Rattle.cache_state.specs.Words.{asked_size, words_right, state_in};
ghost use Rattle.cache_state.specs.Begin.{fresh, begins_read, begins_write, resends};
ghost use Rattle.cache_state.specs.Reaction.{of_cache, CacheReacted};
ghost use Rattle.cache_receive.specs.Receive.{received};
ghost use Rattle.bench_server.specs.Calls.{given_value};
ghost use Rattle.bench_cache.specs.Calls.{outcome_of};

use bench_server::calls::{Last, given_value};
use cache_entries::{CLUSTERS, ENTRIES, ORDER_SIZE, TEXT_PLACES};
use cache_receive::receive;
use cache_state::begin::{begin_read, begin_write, fresh, resend};
use cache_state::words::read_standing;
use cache_state::{ASKED_WORDS, Outcome, cache_ok};
use im_envelope::MAX_MESSAGE;

pub mod ask; // ask.rt: the questions

fn last(o: Outcome) -> Last
    ensures { outcome_of result ≡ o }
{
    Last {
        number: o.number,
        len: o.len,
    }
}

#[unsafe(no_mangle)]
pub extern "C" fn cache_fresh(
    clusters: &mut [u64; CLUSTERS],
    keys: &mut [u64; ENTRIES],
    versions: &mut [u64; ENTRIES],
    kinds: &mut [u8; ENTRIES],
    words: &mut [u64; ENTRIES],
    order: &mut [u8; ORDER_SIZE],
    lengths: &mut [u16; TEXT_PLACES],
    asked: &mut [u64; ASKED_WORDS],
    kept: &mut [u8; MAX_MESSAGE],
)
    ensures { (state_in clusters.new keys.new versions.new kinds.new words.new order.new lengths.new asked.new kept.new ≡ fresh) × (asked.new ≡ replicate asked_size 0) }
{
    fresh(
        clusters, keys, versions, kinds, words, order, lengths, asked, kept,
    )
}

// Whether what is lent is a cache that keeps the rules.
#[unsafe(no_mangle)]
pub extern "C" fn cache_right<'a>(
    page: &'a [u8],
    clusters: &'a [u64; CLUSTERS],
    keys: &'a [u64; ENTRIES],
    versions: &'a [u64; ENTRIES],
    kinds: &'a [u8; ENTRIES],
    words: &'a [u64; ENTRIES],
    order: &'a [u8; ORDER_SIZE],
    lengths: &'a [u16; TEXT_PLACES],
    asked: &'a [u64; ASKED_WORDS],
) -> bool
    ensures { (kept : List ℕ) → result ≡ (words_right asked.now && cache_right page.now (state_in clusters.now keys.now versions.now kinds.now words.now order.now lengths.now asked.now kept)) }
{
    let t = read_standing(asked);
    cache_ok(
        page, clusters, keys, versions, kinds, words, order, lengths, asked, t,
    )
}

#[unsafe(no_mangle)]
pub extern "C" fn cache_begin_read<'a>(
    page: &'a [u8],
    clusters: &'a [u64; CLUSTERS],
    keys: &'a [u64; ENTRIES],
    versions: &'a [u64; ENTRIES],
    kinds: &'a [u8; ENTRIES],
    words: &'a [u64; ENTRIES],
    order: &'a [u8; ORDER_SIZE],
    lengths: &'a [u16; TEXT_PLACES],
    asked: &mut [u64; ASKED_WORDS],
    kept: &mut [u8; MAX_MESSAGE],
    out: &mut [u8],
) -> Last
    ensures { CacheReacted (of_cache asked.old page.now (state_in clusters.now keys.now versions.now kinds.now words.now order.now lengths.now asked.old kept.old) (begins_read page.now (state_in clusters.now keys.now versions.now kinds.now words.now order.now lengths.now asked.old kept.old) (length out.old))) (outcome_of result) (state_in clusters.now keys.now versions.now kinds.now words.now order.now lengths.now asked.new kept.new) asked.old asked.new page.now out.old out.new }
{
    let o = begin_read(
        page, clusters, keys, versions, kinds, words, order, lengths, asked, kept, out,
    );
    last(o)
}

// A write of a value by its code, as `bench_server::calls` has them; `given` where the version is.
#[unsafe(no_mangle)]
pub extern "C" fn cache_begin_write<'a>(
    page: &'a [u8],
    clusters: &'a [u64; CLUSTERS],
    keys: &'a [u64; ENTRIES],
    versions: &'a [u64; ENTRIES],
    kinds: &'a [u8; ENTRIES],
    words: &'a [u64; ENTRIES],
    order: &'a [u8; ORDER_SIZE],
    lengths: &'a [u16; TEXT_PLACES],
    asked: &mut [u64; ASKED_WORDS],
    kept: &mut [u8; MAX_MESSAGE],
    endpoint: u16,
    cluster: u32,
    attribute: u32,
    given: bool,
    version: u32,
    code: u8,
    word: u64,
    text: &'a [u8],
    out: &mut [u8],
) -> Last
    ensures { CacheReacted (of_cache asked.old page.now (state_in clusters.now keys.now versions.now kinds.now words.now order.now lengths.now asked.old kept.old) (begins_write page.now (state_in clusters.now keys.now versions.now kinds.now words.now order.now lengths.now asked.old kept.old) endpoint cluster attribute given version text.now (given_value code word (length text.now)) (length out.old))) (outcome_of result) (state_in clusters.now keys.now versions.now kinds.now words.now order.now lengths.now asked.new kept.new) asked.old asked.new page.now out.old out.new }
{
    let new = given_value(code, word, text.len());
    let o = begin_write(
        page, clusters, keys, versions, kinds, words, order, lengths, asked, kept, endpoint,
        cluster, attribute, given, version, new, text, out,
    );
    last(o)
}

#[unsafe(no_mangle)]
pub extern "C" fn cache_resend<'a>(
    page: &'a [u8],
    clusters: &'a [u64; CLUSTERS],
    keys: &'a [u64; ENTRIES],
    versions: &'a [u64; ENTRIES],
    kinds: &'a [u8; ENTRIES],
    words: &'a [u64; ENTRIES],
    order: &'a [u8; ORDER_SIZE],
    lengths: &'a [u16; TEXT_PLACES],
    asked: &'a [u64; ASKED_WORDS],
    kept: &'a [u8; MAX_MESSAGE],
    out: &mut [u8],
) -> Last
    ensures { CacheReacted (of_cache asked.now page.now (state_in clusters.now keys.now versions.now kinds.now words.now order.now lengths.now asked.now kept.now) (resends page.now (state_in clusters.now keys.now versions.now kinds.now words.now order.now lengths.now asked.now kept.now) (length out.old))) (outcome_of result) (state_in clusters.now keys.now versions.now kinds.now words.now order.now lengths.now asked.now kept.now) asked.now asked.now page.now out.old out.new }
{
    let o = resend(
        page, clusters, keys, versions, kinds, words, order, lengths, asked, kept, out,
    );
    last(o)
}

#[unsafe(no_mangle)]
pub extern "C" fn cache_receive<'a>(
    page: &mut [u8],
    clusters: &mut [u64; CLUSTERS],
    keys: &mut [u64; ENTRIES],
    versions: &mut [u64; ENTRIES],
    kinds: &mut [u8; ENTRIES],
    words: &mut [u64; ENTRIES],
    order: &mut [u8; ORDER_SIZE],
    lengths: &mut [u16; TEXT_PLACES],
    asked: &mut [u64; ASKED_WORDS],
    kept: &mut [u8; MAX_MESSAGE],
    message: &'a [u8],
    out: &mut [u8],
) -> Last
    ensures { CacheReacted (of_cache asked.old page.old (state_in clusters.old keys.old versions.old kinds.old words.old order.old lengths.old asked.old kept.old) (received page.old (state_in clusters.old keys.old versions.old kinds.old words.old order.old lengths.old asked.old kept.old) message.now (length out.old))) (outcome_of result) (state_in clusters.new keys.new versions.new kinds.new words.new order.new lengths.new asked.new kept.new) asked.old asked.new page.new out.old out.new }
{
    let o = receive(
        page, clusters, keys, versions, kinds, words, order, lengths, asked, kept, message, out,
    );
    last(o)
}
