// The calls of `bench_cache` as C names them: a static library, which exports them and says of each what it says.

#![tactic(auto)]

ghost use Rattle.std.specs.Prelude.{◌≡◌, ◌&&◌, List, ℕ, length, replicate};
ghost use Rattle.cache_state.specs.State.{cache_right};
ghost use Rattle.cache_state.specs.Words.{asked_size, words_right, state_in};
ghost use Rattle.cache_state.specs.Begin.{fresh, begins_read, begins_write, resends};
ghost use Rattle.cache_state.specs.Reaction.{of_cache, CacheReacted};
ghost use Rattle.cache_receive.specs.Receive.{received};
ghost use Rattle.bench_server.specs.Calls.{given_value};
ghost use Rattle.bench_cache.specs.Calls.{outcome_of};
ghost use Rattle.cache_ask.specs.declared.Whole.{Whole as IsWhole};
ghost use Rattle.cache_ask.specs.declared.EntryHeld.{EntryHeld as Holds};
ghost use Rattle.cache_ask.specs.declared.Ended.{Ended as Ends};
ghost use Rattle.cache_ask.specs.declared.Abandoned.{Abandoned as Abandons};
ghost use Rattle.cache_ask.specs.Ask.{AnswersWhole, AnswersEntry, AnswersOutcome, AnswersUnknown, text_shown};
ghost use Rattle.bench_cache.specs.Asked.{whole_last, entry_last, ended_last, abandoned_last};

use bench_server::calls::Last;
use cache_entries::{CLUSTERS, ENTRIES, ORDER_SIZE, TEXT_PLACES};
use cache_state::ASKED_WORDS;
use im_envelope::MAX_MESSAGE;

#[unsafe(no_mangle)]
pub extern "C" fn cache_fresh(
    clusters: &mut [u64; CLUSTERS],
    keys: &mut [u64; ENTRIES],
    versions: &mut [u64; ENTRIES],
    kinds: &mut [u8; ENTRIES],
    words: &mut [u64; ENTRIES],
    order: &mut [u8; ORDER_SIZE],
    lengths: &mut [u16; TEXT_PLACES],
    asked: &mut [u64; ASKED_WORDS],
    kept: &mut [u8; MAX_MESSAGE],
)
    ensures { (state_in clusters.new keys.new versions.new kinds.new words.new order.new lengths.new asked.new kept.new ≡ fresh) × (asked.new ≡ replicate asked_size 0) }
{
    bench_cache::cache_fresh(
        clusters, keys, versions, kinds, words, order, lengths, asked, kept,
    )
}

// Whether what is lent is a cache that keeps the rules.
#[unsafe(no_mangle)]
pub extern "C" fn cache_right<'a>(
    page: &'a [u8],
    clusters: &'a [u64; CLUSTERS],
    keys: &'a [u64; ENTRIES],
    versions: &'a [u64; ENTRIES],
    kinds: &'a [u8; ENTRIES],
    words: &'a [u64; ENTRIES],
    order: &'a [u8; ORDER_SIZE],
    lengths: &'a [u16; TEXT_PLACES],
    asked: &'a [u64; ASKED_WORDS],
) -> bool
    ensures { (kept : List ℕ) → result ≡ (words_right asked.now && cache_right page.now (state_in clusters.now keys.now versions.now kinds.now words.now order.now lengths.now asked.now kept)) }
{
    bench_cache::cache_right(
        page, clusters, keys, versions, kinds, words, order, lengths, asked,
    )
}

#[unsafe(no_mangle)]
pub extern "C" fn cache_begin_read<'a>(
    page: &'a [u8],
    clusters: &'a [u64; CLUSTERS],
    keys: &'a [u64; ENTRIES],
    versions: &'a [u64; ENTRIES],
    kinds: &'a [u8; ENTRIES],
    words: &'a [u64; ENTRIES],
    order: &'a [u8; ORDER_SIZE],
    lengths: &'a [u16; TEXT_PLACES],
    asked: &mut [u64; ASKED_WORDS],
    kept: &mut [u8; MAX_MESSAGE],
    out: &mut [u8],
) -> Last
    ensures { CacheReacted (of_cache asked.old page.now (state_in clusters.now keys.now versions.now kinds.now words.now order.now lengths.now asked.old kept.old) (begins_read page.now (state_in clusters.now keys.now versions.now kinds.now words.now order.now lengths.now asked.old kept.old) (length out.old))) (outcome_of result) (state_in clusters.now keys.now versions.now kinds.now words.now order.now lengths.now asked.new kept.new) asked.old asked.new page.now out.old out.new }
{
    bench_cache::cache_begin_read(
        page, clusters, keys, versions, kinds, words, order, lengths, asked, kept, out,
    )
}

// A write of a value by its code, as `bench_server::calls` has them; `given` where the version is.
#[unsafe(no_mangle)]
pub extern "C" fn cache_begin_write<'a>(
    page: &'a [u8],
    clusters: &'a [u64; CLUSTERS],
    keys: &'a [u64; ENTRIES],
    versions: &'a [u64; ENTRIES],
    kinds: &'a [u8; ENTRIES],
    words: &'a [u64; ENTRIES],
    order: &'a [u8; ORDER_SIZE],
    lengths: &'a [u16; TEXT_PLACES],
    asked: &mut [u64; ASKED_WORDS],
    kept: &mut [u8; MAX_MESSAGE],
    endpoint: u16,
    cluster: u32,
    attribute: u32,
    given: bool,
    version: u32,
    code: u8,
    word: u64,
    text: &'a [u8],
    out: &mut [u8],
) -> Last
    ensures { CacheReacted (of_cache asked.old page.now (state_in clusters.now keys.now versions.now kinds.now words.now order.now lengths.now asked.old kept.old) (begins_write page.now (state_in clusters.now keys.now versions.now kinds.now words.now order.now lengths.now asked.old kept.old) endpoint cluster attribute given version text.now (given_value code word (length text.now)) (length out.old))) (outcome_of result) (state_in clusters.now keys.now versions.now kinds.now words.now order.now lengths.now asked.new kept.new) asked.old asked.new page.now out.old out.new }
{
    bench_cache::cache_begin_write(
        page, clusters, keys, versions, kinds, words, order, lengths, asked, kept, endpoint,
        cluster, attribute, given, version, code, word, text, out,
    )
}

#[unsafe(no_mangle)]
pub extern "C" fn cache_resend<'a>(
    page: &'a [u8],
    clusters: &'a [u64; CLUSTERS],
    keys: &'a [u64; ENTRIES],
    versions: &'a [u64; ENTRIES],
    kinds: &'a [u8; ENTRIES],
    words: &'a [u64; ENTRIES],
    order: &'a [u8; ORDER_SIZE],
    lengths: &'a [u16; TEXT_PLACES],
    asked: &'a [u64; ASKED_WORDS],
    kept: &'a [u8; MAX_MESSAGE],
    out: &mut [u8],
) -> Last
    ensures { CacheReacted (of_cache asked.now page.now (state_in clusters.now keys.now versions.now kinds.now words.now order.now lengths.now asked.now kept.now) (resends page.now (state_in clusters.now keys.now versions.now kinds.now words.now order.now lengths.now asked.now kept.now) (length out.old))) (outcome_of result) (state_in clusters.now keys.now versions.now kinds.now words.now order.now lengths.now asked.now kept.now) asked.now asked.now page.now out.old out.new }
{
    bench_cache::cache_resend(
        page, clusters, keys, versions, kinds, words, order, lengths, asked, kept, out,
    )
}

#[unsafe(no_mangle)]
pub extern "C" fn cache_receive<'a>(
    page: &mut [u8],
    clusters: &mut [u64; CLUSTERS],
    keys: &mut [u64; ENTRIES],
    versions: &mut [u64; ENTRIES],
    kinds: &mut [u8; ENTRIES],
    words: &mut [u64; ENTRIES],
    order: &mut [u8; ORDER_SIZE],
    lengths: &mut [u16; TEXT_PLACES],
    asked: &mut [u64; ASKED_WORDS],
    kept: &mut [u8; MAX_MESSAGE],
    message: &'a [u8],
    out: &mut [u8],
) -> Last
    ensures { CacheReacted (of_cache asked.old page.old (state_in clusters.old keys.old versions.old kinds.old words.old order.old lengths.old asked.old kept.old) (received page.old (state_in clusters.old keys.old versions.old kinds.old words.old order.old lengths.old asked.old kept.old) message.now (length out.old))) (outcome_of result) (state_in clusters.new keys.new versions.new kinds.new words.new order.new lengths.new asked.new kept.new) asked.old asked.new page.new out.old out.new }
{
    bench_cache::cache_receive(
        page, clusters, keys, versions, kinds, words, order, lengths, asked, kept, message, out,
    )
}

// Whether a cluster is whole: its version.
#[unsafe(no_mangle)]
pub extern "C" fn cache_whole<'a>(
    page: &'a [u8],
    clusters: &'a [u64; CLUSTERS],
    keys: &'a [u64; ENTRIES],
    versions: &'a [u64; ENTRIES],
    kinds: &'a [u8; ENTRIES],
    words: &'a [u64; ENTRIES],
    order: &'a [u8; ORDER_SIZE],
    lengths: &'a [u16; TEXT_PLACES],
    asked: &'a [u64; ASKED_WORDS],
    endpoint: u16,
    cluster: u32,
) -> Last
    ensures { (x : IsWhole) × (((kept : List ℕ) → AnswersWhole asked.now page.now (state_in clusters.now keys.now versions.now kinds.now words.now order.now lengths.now asked.now kept) endpoint cluster x) × (result ≡ whole_last x)) }
{
    bench_cache::ask::cache_whole(
        page, clusters, keys, versions, kinds, words, order, lengths, asked, endpoint, cluster,
    )
}

// An entry: its version.
#[unsafe(no_mangle)]
pub extern "C" fn cache_entry<'a>(
    page: &'a [u8],
    clusters: &'a [u64; CLUSTERS],
    keys: &'a [u64; ENTRIES],
    versions: &'a [u64; ENTRIES],
    kinds: &'a [u8; ENTRIES],
    words: &'a [u64; ENTRIES],
    order: &'a [u8; ORDER_SIZE],
    lengths: &'a [u16; TEXT_PLACES],
    asked: &'a [u64; ASKED_WORDS],
    endpoint: u16,
    cluster: u32,
    attribute: u32,
) -> Last
    ensures { (x : Holds) × (((kept : List ℕ) → AnswersEntry asked.now page.now (state_in clusters.now keys.now versions.now kinds.now words.now order.now lengths.now asked.now kept) endpoint cluster attribute x) × (result ≡ entry_last x)) }
{
    bench_cache::ask::cache_entry(
        page, clusters, keys, versions, kinds, words, order, lengths, asked, endpoint, cluster,
        attribute,
    )
}

// How the newest request stands: 1 where it is open, one more than its status.
#[unsafe(no_mangle)]
pub extern "C" fn cache_outcome<'a>(
    page: &'a [u8],
    clusters: &'a [u64; CLUSTERS],
    keys: &'a [u64; ENTRIES],
    versions: &'a [u64; ENTRIES],
    kinds: &'a [u8; ENTRIES],
    words: &'a [u64; ENTRIES],
    order: &'a [u8; ORDER_SIZE],
    lengths: &'a [u16; TEXT_PLACES],
    asked: &'a [u64; ASKED_WORDS],
) -> Last
    ensures { (x : Ends) × (((kept : List ℕ) → AnswersOutcome asked.now page.now (state_in clusters.now keys.now versions.now kinds.now words.now order.now lengths.now asked.now kept) x) × (result ≡ ended_last x)) }
{
    bench_cache::ask::cache_outcome(
        page, clusters, keys, versions, kinds, words, order, lengths, asked,
    )
}

// The newest abandoned write: its exchange.
#[unsafe(no_mangle)]
pub extern "C" fn cache_unknown<'a>(
    page: &'a [u8],
    clusters: &'a [u64; CLUSTERS],
    keys: &'a [u64; ENTRIES],
    versions: &'a [u64; ENTRIES],
    kinds: &'a [u8; ENTRIES],
    words: &'a [u64; ENTRIES],
    order: &'a [u8; ORDER_SIZE],
    lengths: &'a [u16; TEXT_PLACES],
    asked: &'a [u64; ASKED_WORDS],
) -> Last
    ensures { (x : Abandons) × (((kept : List ℕ) → AnswersUnknown asked.now page.now (state_in clusters.now keys.now versions.now kinds.now words.now order.now lengths.now asked.now kept) x) × (result ≡ abandoned_last x)) }
{
    bench_cache::ask::cache_unknown(
        page, clusters, keys, versions, kinds, words, order, lengths, asked,
    )
}

// How long an entry's text is.
#[unsafe(no_mangle)]
pub extern "C" fn cache_text_len<'a>(
    page: &'a [u8],
    clusters: &'a [u64; CLUSTERS],
    keys: &'a [u64; ENTRIES],
    versions: &'a [u64; ENTRIES],
    kinds: &'a [u8; ENTRIES],
    words: &'a [u64; ENTRIES],
    order: &'a [u8; ORDER_SIZE],
    lengths: &'a [u16; TEXT_PLACES],
    asked: &'a [u64; ASKED_WORDS],
    endpoint: u16,
    cluster: u32,
    attribute: u32,
) -> usize
    ensures { (kept : List ℕ) → result ≡ length (text_shown asked.now page.now (state_in clusters.now keys.now versions.now kinds.now words.now order.now lengths.now asked.now kept) endpoint cluster attribute) }
{
    bench_cache::ask::cache_text_len(
        page, clusters, keys, versions, kinds, words, order, lengths, asked, endpoint, cluster,
        attribute,
    )
}
