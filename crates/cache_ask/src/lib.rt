// What the cache holds, and how its newest request stands. Memory that is no cache's, or one's that breaks the rules, answers 2 here too.

#![tactic(auto)]

ghost use Rattle.std.specs.Prelude.{◌≡◌, true, List, ℕ, ◌<◌, get_or};
ghost use Rattle.tlv_reader.specs.declared.Value.TheVariants as value;
ghost use Rattle.cache_entries.specs.Limits.{text_places, text_kind};
ghost use Rattle.cache_entries.specs.Entries.{place_start, path_at};
ghost use Rattle.cache_entries.specs.Valid.{word_right};
ghost use Rattle.cache_messages.specs.Filters.{Bounded};
ghost use Rattle.cache_state.specs.Words.{held_in, state_in};
ghost use Rattle.cache_ask.specs.Ask.{whole_read, coherent_of, value_by, Ordered, AnswersWhole, AnswersEntry, text_shown, AnswersOutcome, AnswersUnknown};

use cache_entries::find::{find_cluster, find_entry};
use cache_entries::shared::coherent_at;
use cache_entries::{CLUSTERS, ENTRIES, HALF, NO_VERSION, ORDER_SIZE, TEXT_PLACES, TEXT_SIZE};
use cache_state::words::read_standing;
use cache_state::{ASKED_WORDS, CacheStanding, LAST_PART, NONE, STATUS, cache_ok};
use node_kinds::stored::signed_of;
use tlv_reader::Value;

// Whether a cluster is coherent (RULES 7.11: whole), and at which version.
#[derive(Clone, Copy)]
pub enum Whole {
    Broken,
    No,
    At(u32),
}

// An entry: its version and value. A text is a part of the page.
#[derive(Clone, Copy)]
pub enum EntryHeld {
    Broken,
    Nothing,
    Here(u32, Value),
}

// How the newest request stands.
#[derive(Clone, Copy)]
pub enum Ended {
    Broken,
    NoneYet,
    Open,
    LastPart,
    Status(u8),
}

// The newest abandoned write.
#[derive(Clone, Copy)]
pub enum Abandoned {
    Broken,
    Nothing,
    Exchange(u64),
}

fn whole_of<'a>(
    clusters: &'a [u64; CLUSTERS],
    keys: &'a [u64; ENTRIES],
    versions: &'a [u64; ENTRIES],
    order: &'a [u8; ORDER_SIZE],
    t: CacheStanding,
    word: u64,
) -> Whole
    requires { Bounded clusters.now keys.now versions.now order.now t.cluster_count t.count }
    ensures { (kinds words lengths : List ℕ) → result ≡ whole_read (coherent_of (held_in clusters.now keys.now versions.now kinds words order.now lengths t) word) }
{
    let Some(k) = find_cluster(clusters, order, t.cluster_count, word) else {
        return Whole::No;
    };
    match coherent_at(keys, versions, t.count, t.primed == 1, k) {
        Some(version) => Whole::At(version),
        None => Whole::No,
    }
}

pub fn coherent<'a>(
    page: &'a [u8],
    clusters: &'a [u64; CLUSTERS],
    keys: &'a [u64; ENTRIES],
    versions: &'a [u64; ENTRIES],
    kinds: &'a [u8; ENTRIES],
    words: &'a [u64; ENTRIES],
    order: &'a [u8; ORDER_SIZE],
    lengths: &'a [u16; TEXT_PLACES],
    asked: &'a [u64; ASKED_WORDS],
    endpoint: u16,
    cluster: u32,
) -> Whole
    ensures { (kept : List ℕ) → AnswersWhole asked.now page.now (state_in clusters.now keys.now versions.now kinds.now words.now order.now lengths.now asked.now kept) endpoint cluster result }
{
    let t = read_standing(asked);
    if !cache_ok(
        page, clusters, keys, versions, kinds, words, order, lengths, asked, t,
    ) {
        return Whole::Broken;
    }
    let word = endpoint as u64 * HALF + cluster as u64;
    whole_of(clusters, keys, versions, order, t, word)
}

// Where the entry of a path stands.
fn path_at<'a>(
    clusters: &'a [u64; CLUSTERS],
    keys: &'a [u64; ENTRIES],
    order: &'a [u8; ORDER_SIZE],
    t: CacheStanding,
    endpoint: u16,
    cluster: u32,
    attribute: u32,
) -> Option<usize>
    requires { Ordered clusters.now keys.now order.now t.cluster_count t.count }
    ensures { (versions kinds words lengths : List ℕ) → result ≡ path_at (held_in clusters.now keys.now versions kinds words order.now lengths t) endpoint cluster attribute }
{
    let word = endpoint as u64 * HALF + cluster as u64;
    let k = find_cluster(clusters, order, t.cluster_count, word)?;
    find_entry(keys, order, t.count, k as u64 * HALF + attribute as u64)
}

// The text at place p of the page.
fn text_at(p: usize, len: u16) -> Value
    requires { p < text_places }
    ensures { result ≡ value.Text (place_start p) len }
{
    Value::Text {
        start: TEXT_SIZE * p,
        len: len as usize,
    }
}

// The value of an entry; the word of a text is its place.
fn value_by(kind: u8, word: u64, lengths: &[u16; TEXT_PLACES]) -> Value
    requires { (word_right kind word ≡ true) × (kind ≡ text_kind → word < text_places) }
    ensures { result ≡ value_by kind word (get_or lengths.now word 0) }
{
    if kind == cache_entries::NULL {
        return Value::Null;
    }
    if kind == cache_entries::BOOLEAN {
        return Value::Boolean(word != 0);
    }
    if kind == cache_entries::UNSIGNED {
        return Value::Unsigned(word);
    }
    if kind == cache_entries::SIGNED {
        return Value::Signed(signed_of(word));
    }
    if kind == cache_entries::FLOAT {
        return Value::Float((word % HALF) as u32);
    }
    let p = word as usize;
    text_at(p, lengths[p])
}

// An entry that has no version is not shown.
pub fn entry<'a>(
    page: &'a [u8],
    clusters: &'a [u64; CLUSTERS],
    keys: &'a [u64; ENTRIES],
    versions: &'a [u64; ENTRIES],
    kinds: &'a [u8; ENTRIES],
    words: &'a [u64; ENTRIES],
    order: &'a [u8; ORDER_SIZE],
    lengths: &'a [u16; TEXT_PLACES],
    asked: &'a [u64; ASKED_WORDS],
    endpoint: u16,
    cluster: u32,
    attribute: u32,
) -> EntryHeld
    ensures { (kept : List ℕ) → AnswersEntry asked.now page.now (state_in clusters.now keys.now versions.now kinds.now words.now order.now lengths.now asked.now kept) endpoint cluster attribute result }
{
    let t = read_standing(asked);
    if !cache_ok(
        page, clusters, keys, versions, kinds, words, order, lengths, asked, t,
    ) {
        return EntryHeld::Broken;
    }
    let Some(i) = path_at(clusters, keys, order, t, endpoint, cluster, attribute) else {
        return EntryHeld::Nothing;
    };
    let version = versions[i];
    if NO_VERSION <= version {
        return EntryHeld::Nothing;
    }
    EntryHeld::Here(version as u32, value_by(kinds[i], words[i], lengths))
}

// The text of an entry, as the very part of the page; nothing of it where there is no such text.
pub fn text<'a>(
    page: &'a [u8],
    clusters: &'a [u64; CLUSTERS],
    keys: &'a [u64; ENTRIES],
    versions: &'a [u64; ENTRIES],
    kinds: &'a [u8; ENTRIES],
    words: &'a [u64; ENTRIES],
    order: &'a [u8; ORDER_SIZE],
    lengths: &'a [u16; TEXT_PLACES],
    asked: &'a [u64; ASKED_WORDS],
    endpoint: u16,
    cluster: u32,
    attribute: u32,
) -> &'a [u8]
    ensures { (kept : List ℕ) → result.now ≡ text_shown asked.now page.now (state_in clusters.now keys.now versions.now kinds.now words.now order.now lengths.now asked.now kept) endpoint cluster attribute }
{
    let EntryHeld::Here(_, v) = entry(
        page, clusters, keys, versions, kinds, words, order, lengths, asked, endpoint, cluster,
        attribute,
    ) else {
        return &page[0..0];
    };
    let Value::Text { start, len } = v else {
        return &page[0..0];
    };
    &page[start..start + len]
}

pub fn outcome<'a>(
    page: &'a [u8],
    clusters: &'a [u64; CLUSTERS],
    keys: &'a [u64; ENTRIES],
    versions: &'a [u64; ENTRIES],
    kinds: &'a [u8; ENTRIES],
    words: &'a [u64; ENTRIES],
    order: &'a [u8; ORDER_SIZE],
    lengths: &'a [u16; TEXT_PLACES],
    asked: &'a [u64; ASKED_WORDS],
) -> Ended
    ensures { (kept : List ℕ) → AnswersOutcome asked.now page.now (state_in clusters.now keys.now versions.now kinds.now words.now order.now lengths.now asked.now kept) result }
{
    let t = read_standing(asked);
    if !cache_ok(
        page, clusters, keys, versions, kinds, words, order, lengths, asked, t,
    ) {
        return Ended::Broken;
    }
    if t.stage == NONE {
        return Ended::NoneYet;
    }
    if t.stage == LAST_PART {
        return Ended::LastPart;
    }
    if t.stage == STATUS {
        return Ended::Status(t.status as u8);
    }
    Ended::Open
}

pub fn unknown<'a>(
    page: &'a [u8],
    clusters: &'a [u64; CLUSTERS],
    keys: &'a [u64; ENTRIES],
    versions: &'a [u64; ENTRIES],
    kinds: &'a [u8; ENTRIES],
    words: &'a [u64; ENTRIES],
    order: &'a [u8; ORDER_SIZE],
    lengths: &'a [u16; TEXT_PLACES],
    asked: &'a [u64; ASKED_WORDS],
) -> Abandoned
    ensures { (kept : List ℕ) → AnswersUnknown asked.now page.now (state_in clusters.now keys.now versions.now kinds.now words.now order.now lengths.now asked.now kept) result }
{
    let t = read_standing(asked);
    if !cache_ok(
        page, clusters, keys, versions, kinds, words, order, lengths, asked, t,
    ) {
        return Abandoned::Broken;
    }
    if t.unknown == 0 {
        return Abandoned::Nothing;
    }
    Abandoned::Exchange(t.unknown)
}
