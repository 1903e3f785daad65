// The questions of a cache, as a program in C or Rust asks them: the number of RULES 6.1, and as `len` one word of what goes with it.
ghost use Rattle.std.specs.Prelude.{◌≡◌, List, ℕ, length};
ghost use Rattle.cache_state.specs.Words.{state_in};
ghost use Rattle.cache_ask.specs.declared.Whole.{Whole as IsWhole};
ghost use Rattle.cache_ask.specs.declared.EntryHeld.{EntryHeld as Holds};
ghost use Rattle.cache_ask.specs.declared.Ended.{Ended as Ends};
ghost use Rattle.cache_ask.specs.declared.Abandoned.{Abandoned as Abandons};
ghost use Rattle.cache_ask.specs.Ask.{AnswersWhole, AnswersEntry, AnswersOutcome, AnswersUnknown, text_shown};
ghost use Rattle.bench_cache.specs.Asked.{answer, whole_last, entry_last, ended_last, abandoned_last};

use bench_server::calls::Last;
use cache_ask::{Abandoned, Ended, EntryHeld, Whole};
use cache_entries::{CLUSTERS, ENTRIES, ORDER_SIZE, TEXT_PLACES};
use cache_state::{ASKED_WORDS, BROKEN, DONE, NOTHING};

fn said(number: u8, len: usize) -> Last
    ensures { result ≡ answer number len }
{
    Last { number, len }
}

fn whole_last(w: Whole) -> Last
    ensures { result ≡ whole_last w }
{
    match w {
        Whole::Broken => said(BROKEN, 0),
        Whole::No => said(NOTHING, 0),
        Whole::At(v) => said(DONE, v as usize),
    }
}

fn entry_last(h: EntryHeld) -> Last
    ensures { result ≡ entry_last h }
{
    match h {
        EntryHeld::Broken => said(BROKEN, 0),
        EntryHeld::Nothing => said(NOTHING, 0),
        EntryHeld::Here(version, _value) => said(DONE, version as usize),
    }
}

fn ended_last(e: Ended) -> Last
    ensures { result ≡ ended_last e }
{
    match e {
        Ended::Broken => said(BROKEN, 0),
        Ended::NoneYet => said(NOTHING, 0),
        Ended::Open => said(NOTHING, 1),
        Ended::LastPart => said(DONE, 0),
        Ended::Status(code) => said(DONE, code as usize + 1),
    }
}

fn abandoned_last(a: Abandoned) -> Last
    ensures { result ≡ abandoned_last a }
{
    match a {
        Abandoned::Broken => said(BROKEN, 0),
        Abandoned::Nothing => said(NOTHING, 0),
        Abandoned::Exchange(n) => said(DONE, n as usize),
    }
}

// Whether a cluster is whole: its version.
#[unsafe(no_mangle)]
pub extern "C" fn cache_whole<'a>(
    page: &'a [u8],
    clusters: &'a [u64; CLUSTERS],
    keys: &'a [u64; ENTRIES],
    versions: &'a [u64; ENTRIES],
    kinds: &'a [u8; ENTRIES],
    words: &'a [u64; ENTRIES],
    order: &'a [u8; ORDER_SIZE],
    lengths: &'a [u16; TEXT_PLACES],
    asked: &'a [u64; ASKED_WORDS],
    endpoint: u16,
    cluster: u32,
) -> Last
    ensures { (x : IsWhole) × (((kept : List ℕ) → AnswersWhole asked.now page.now (state_in clusters.now keys.now versions.now kinds.now words.now order.now lengths.now asked.now kept) endpoint cluster x) × (result ≡ whole_last x)) }
{
    let x = cache_ask::coherent(
        page, clusters, keys, versions, kinds, words, order, lengths, asked, endpoint, cluster,
    );
    whole_last(x)
}

// An entry: its version.
#[unsafe(no_mangle)]
pub extern "C" fn cache_entry<'a>(
    page: &'a [u8],
    clusters: &'a [u64; CLUSTERS],
    keys: &'a [u64; ENTRIES],
    versions: &'a [u64; ENTRIES],
    kinds: &'a [u8; ENTRIES],
    words: &'a [u64; ENTRIES],
    order: &'a [u8; ORDER_SIZE],
    lengths: &'a [u16; TEXT_PLACES],
    asked: &'a [u64; ASKED_WORDS],
    endpoint: u16,
    cluster: u32,
    attribute: u32,
) -> Last
    ensures { (x : Holds) × (((kept : List ℕ) → AnswersEntry asked.now page.now (state_in clusters.now keys.now versions.now kinds.now words.now order.now lengths.now asked.now kept) endpoint cluster attribute x) × (result ≡ entry_last x)) }
{
    let x = cache_ask::entry(
        page, clusters, keys, versions, kinds, words, order, lengths, asked, endpoint, cluster,
        attribute,
    );
    entry_last(x)
}

// How the newest request stands: 1 where it is open, one more than its status.
#[unsafe(no_mangle)]
pub extern "C" fn cache_outcome<'a>(
    page: &'a [u8],
    clusters: &'a [u64; CLUSTERS],
    keys: &'a [u64; ENTRIES],
    versions: &'a [u64; ENTRIES],
    kinds: &'a [u8; ENTRIES],
    words: &'a [u64; ENTRIES],
    order: &'a [u8; ORDER_SIZE],
    lengths: &'a [u16; TEXT_PLACES],
    asked: &'a [u64; ASKED_WORDS],
) -> Last
    ensures { (x : Ends) × (((kept : List ℕ) → AnswersOutcome asked.now page.now (state_in clusters.now keys.now versions.now kinds.now words.now order.now lengths.now asked.now kept) x) × (result ≡ ended_last x)) }
{
    let x = cache_ask::outcome(
        page, clusters, keys, versions, kinds, words, order, lengths, asked,
    );
    ended_last(x)
}

// The newest abandoned write: its exchange.
#[unsafe(no_mangle)]
pub extern "C" fn cache_unknown<'a>(
    page: &'a [u8],
    clusters: &'a [u64; CLUSTERS],
    keys: &'a [u64; ENTRIES],
    versions: &'a [u64; ENTRIES],
    kinds: &'a [u8; ENTRIES],
    words: &'a [u64; ENTRIES],
    order: &'a [u8; ORDER_SIZE],
    lengths: &'a [u16; TEXT_PLACES],
    asked: &'a [u64; ASKED_WORDS],
) -> Last
    ensures { (x : Abandons) × (((kept : List ℕ) → AnswersUnknown asked.now page.now (state_in clusters.now keys.now versions.now kinds.now words.now order.now lengths.now asked.now kept) x) × (result ≡ abandoned_last x)) }
{
    let x = cache_ask::unknown(
        page, clusters, keys, versions, kinds, words, order, lengths, asked,
    );
    abandoned_last(x)
}

// How long an entry's text is.
#[unsafe(no_mangle)]
pub extern "C" fn cache_text_len<'a>(
    page: &'a [u8],
    clusters: &'a [u64; CLUSTERS],
    keys: &'a [u64; ENTRIES],
    versions: &'a [u64; ENTRIES],
    kinds: &'a [u8; ENTRIES],
    words: &'a [u64; ENTRIES],
    order: &'a [u8; ORDER_SIZE],
    lengths: &'a [u16; TEXT_PLACES],
    asked: &'a [u64; ASKED_WORDS],
    endpoint: u16,
    cluster: u32,
    attribute: u32,
) -> usize
    ensures { (kept : List ℕ) → result ≡ length (text_shown asked.now page.now (state_in clusters.now keys.now versions.now kinds.now words.now order.now lengths.now asked.now kept) endpoint cluster attribute) }
{
    let x = cache_ask::text(
        page, clusters, keys, versions, kinds, words, order, lengths, asked, endpoint, cluster,
        attribute,
    );
    x.len()
}
