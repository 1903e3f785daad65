// The entries of a write action: which attribute each may write, and storing them in order.
ghost use Rattle.std.specs.Prelude.{◌≡◌, true, ℕ, ◌<◌, ◌≤◌, ◌*◌, length};
ghost use Rattle.base_bounds.specs.Bounds.{write_limit};
ghost use Rattle.node_schema.specs.Layout.{text_size};
ghost use Rattle.node_schema.specs.Check.{well_formed, count_of_texts};
ghost use Rattle.im_requests.specs.Write.{entry_in};
ghost use Rattle.server_selection.specs.Reach.{RowWithin};
ghost use Rattle.server_writes.specs.Offer.{held_of};
ghost use Rattle.server_writes.specs.Entry.{at_version, may_write, entry_written, InWidth, entries_in, held_after, codes_of, codes_in};

use super::offer;
use base_bounds::{ATTRIBUTES, CLUSTERS, MAX_WRITES};
use im_members::ABSENT;
use im_requests::write::{ENTRY_WORDS, WriteEntry, entry_in};
use node_access::Grants;
use node_schema::{TEXTS, WORDS};
use server_selection::DATA_VERSION_MISMATCH;
use server_selection::locate::Located;
use server_selection::reach::{Use, reach};
use tlv_reader::value_in;

// The version that was given, where one was, against the present one of the attribute's cluster.
fn at_version<'a>(
    w: &'a [u64; WORDS],
    versions: &'a [u32; CLUSTERS],
    given: u64,
    i: usize,
) -> Located
    requires { RowWithin w.now i }
    ensures { result ≡ at_version w.now versions.now given i }
{
    if given == ABSENT {
        return Located::Here(i);
    }
    if given != u64::from(versions[node_schema::attribute_cluster(w, i)]) {
        return Located::Refused(DATA_VERSION_MISMATCH);
    }
    Located::Here(i)
}

// Which attribute an entry may write.
fn may_write<'a>(
    w: &'a [u64; WORDS],
    g: Grants,
    versions: &'a [u32; CLUSTERS],
    x: WriteEntry,
) -> Located
    requires { InWidth x }
    ensures { result ≡ may_write w.now g versions.now x }
{
    let level = g.level;
    match reach(
        Use::Write,
        w,
        &level,
        x.endpoint as u16,
        x.cluster as u32,
        x.attribute as u32,
    ) {
        Located::Here(i) => at_version(w, versions, x.version, i),
        Located::Refused(code) => Located::Refused(code),
    }
}

// One entry: its status.
fn write_entry<'a>(
    w: &'a [u64; WORDS],
    g: Grants,
    defaults: &'a [u8],
    edits: &mut [u8],
    words: &mut [u64; ATTRIBUTES],
    nulls: &mut [bool; ATTRIBUTES],
    texts: &mut [u16; TEXTS],
    versions: &mut [u32; CLUSTERS],
    x: WriteEntry,
    s: &'a [u8],
) -> u8
    requires { (well_formed w.now ≡ true) × (InWidth x × (length edits.old ≡ text_size * count_of_texts w.now)) }
    ensures { record { code = result; held = held_of words.new nulls.new texts.new versions.new edits.new } ≡ entry_written w.now g defaults.now s.now (held_of words.old nulls.old texts.old versions.old edits.old) x }
{
    match may_write(w, g, versions, x) {
        Located::Here(i) => offer(
            w,
            defaults,
            edits,
            words,
            nulls,
            texts,
            versions,
            i,
            value_in(s, x.place),
            s,
        ),
        Located::Refused(code) => code,
    }
}

// All entries of a write, in order: their statuses.
pub fn write_all<'a>(
    w: &'a [u64; WORDS],
    g: Grants,
    defaults: &'a [u8],
    edits: &mut [u8],
    words: &mut [u64; ATTRIBUTES],
    nulls: &mut [bool; ATTRIBUTES],
    texts: &mut [u16; TEXTS],
    versions: &mut [u32; CLUSTERS],
    entries: &'a [u64; ENTRY_WORDS],
    n: usize,
    s: &'a [u8],
) -> [u8; MAX_WRITES]
    requires { (well_formed w.now ≡ true) × ((n ≤ write_limit) × (((i : ℕ) → i < n → InWidth (entry_in entries.now i)) × (length edits.old ≡ text_size * count_of_texts w.now))) }
    ensures { (held_of words.new nulls.new texts.new versions.new edits.new ≡ held_after w.now g defaults.now s.now (held_of words.old nulls.old texts.old versions.old edits.old) (entries_in entries.now n)) × (result ≡ codes_in (codes_of w.now g defaults.now s.now (held_of words.old nulls.old texts.old versions.old edits.old) (entries_in entries.now n))) }
{
    let mut codes = [0u8; MAX_WRITES];
    for i in 0..n {
        let x = entry_in(entries, i);
        codes[i] = write_entry(w, g, defaults, edits, words, nulls, texts, versions, x, s);
    }
    codes
}
