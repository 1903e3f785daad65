// Write Requests, read to their meaning (chapter 10, section 10.6.6; RULES 4, 6.10 and 6.11).
ghost use Rattle.std.specs.Prelude.{◌≡◌, refl, Some, List, ℕ, ◌<◌};
ghost use Rattle.base_bounds.specs.Bounds.{write_limit};
ghost use Rattle.im_members.specs.Pass.{pass_with};
ghost use Rattle.im_requests.specs.Lists.{entry-reads, entries-listed};
ghost use Rattle.im_requests.specs.Write.{EntryOf, entry_of, entry_at, entry_on, entry_struct, entry_size, entry_words, entry_in, entries_at, unchunked, write_in, write_with, write_left, write_kept, write_by};

use super::list::{Member, list_of};
use super::{begin_message, is_whole};
use base_bounds::MAX_WRITES;
use im_blocks::Data;
use im_members::{ABSENT, Stop};
use tlv_reader::{Cursor, Element};

// An entry of a write: the version it was given for or ABSENT, the attribute it names, and where its data stands.
#[derive(Clone, Copy)]
pub struct WriteEntry {
    pub version: u64,
    pub endpoint: u64,
    pub cluster: u64,
    pub attribute: u64,
    pub place: usize,
}

// An entry that is kept is five words, its fields in order.
const ENTRY_SIZE: usize = 5;

// The words that the first entries of a write are kept in.
pub const ENTRY_WORDS: usize = MAX_WRITES * ENTRY_SIZE;

// Entry number i.
pub fn entry_in(entries: &[u64; ENTRY_WORDS], i: usize) -> WriteEntry
    requires { i < write_limit }
    ensures { result ≡ entry_in entries.now i }
{
    let at = i * ENTRY_SIZE;
    WriteEntry {
        version: entries[at],
        endpoint: entries[at + 1],
        cluster: entries[at + 2],
        attribute: entries[at + 3],
        place: entries[at + 4] as usize,
    }
}

fn entry_of(d: Data) -> WriteEntry
    ensures { result ≡ entry_of d }
{
    let path = d.path;
    WriteEntry {
        version: d.version,
        endpoint: path.endpoint,
        cluster: path.cluster,
        attribute: path.attribute,
        place: d.place,
    }
}

impl Member for WriteEntry {
    ghost Meant = { EntryOf ℕ };

    ghost held = { entry_struct };

    ghost limit = { write_limit };

    ghost size = { entry_size };

    ghost words = { entry_words };

    ghost at = { entry_at };

    ghost on = { entry_on };

    ghost list = { entries_at };

    ghost reads = { entry-reads };

    ghost listed = { entries-listed };

    ghost wide = { λ x. refl };

    fn read(s: &[u8], e: Element, left: usize) -> Option<(WriteEntry, Cursor)> {
        let (p, next) = im_blocks::data_of(s, e, left)?;
        let path = p.path;
        if !im_blocks::exact(path) {
            return None;
        }
        Some((entry_of(p), next))
    }

    fn keep(self, kept: &mut [u64], count: usize) {
        if MAX_WRITES <= count {
            return;
        }
        let at = count * ENTRY_SIZE;
        kept[at] = self.version;
        kept[at + 1] = self.endpoint;
        kept[at + 2] = self.cluster;
        kept[at + 3] = self.attribute;
        kept[at + 4] = self.place as u64;
    }
}

// A write that is no part of a longer one: MoreChunkedMessages false or absent.
fn is_unchunked(more: u64) -> bool
    ensures { result ≡ unchunked more }
{
    if more == 0 {
        return true;
    }
    more == ABSENT
}

// A write request: whether its answer is suppressed, whether a timed one is meant, and how many entries it has.
#[derive(Clone, Copy)]
pub struct WriteCounts {
    pub suppress: u64,
    pub timed: u64,
    pub entries: usize,
}

const WRITE: [bool; 10] = [
    true, true, true, true, false, false, false, false, false, true,
];

// The request whose members were passed, with so many entries.
fn write_of(len: usize, m: Stop, codes: &[u64; 10], entries: usize) -> Option<WriteCounts>
    ensures { (at : List ℕ) → result ≡ write_by len (pass_with (Some m) at codes.now) entries }
{
    if !is_whole(Some(m), len) {
        return None;
    }
    let suppress = im_members::flag_by(codes[0]);
    let timed = im_members::flag_by(codes[1]);
    let more = im_members::flag_by(codes[3]);
    let revision = im_members::number_by(codes[9], 255, false);
    if ABSENT <= suppress {
        return None;
    }
    if ABSENT <= timed {
        return None;
    }
    if !is_unchunked(more) {
        return None;
    }
    if ABSENT <= revision {
        return None;
    }
    if entries == 0 {
        return None;
    }
    Some(WriteCounts {
        suppress,
        timed,
        entries,
    })
}

const ENTRIES: [bool; 10] = [
    false, false, true, false, false, false, false, false, false, false,
];

// Of a request that is refused nothing is said of what stands in the words of its entries.
fn write_entries(s: &[u8], entries: &mut [u64; ENTRY_WORDS]) -> Option<WriteCounts>
    ensures { write_left result entries.new ≡ write_kept entries.old (write_in s.now) }
{
    let listed = WRITE;
    let stops = ENTRIES;
    let mut at = [0usize; 10];
    let mut codes = [0u64; 10];
    let m = begin_message(s, &listed, &stops, &mut at, &mut codes)?;
    if 10 <= m.slot {
        return None;
    }
    let f = list_of::<WriteEntry>(s, m.head, base_bounds::MAX_DEPTH - 1, entries)?;
    let z = im_members::finish(
        s,
        f.next,
        base_bounds::MAX_DEPTH - 1,
        tlv_reader::STRUCTURE,
        &listed,
        &mut at,
        &mut codes,
    )?;
    write_of(s.len(), z, &codes, f.count)
}

// WriteRequestMessage: SuppressResponse (tag 0), TimedRequest (1), the entries (2), MoreChunkedMessages (3) and the revision. One that is
// refused leaves nothing in the words of its entries.
pub fn write_request(s: &[u8], entries: &mut [u64; ENTRY_WORDS]) -> Option<WriteCounts>
    ensures { write_with result entries.new ≡ write_kept entries.old (write_in s.now) }
{
    let r = write_entries(s, entries);
    if r.is_none() {
        *entries = [0u64; ENTRY_WORDS];
    }
    r
}
