// Writes and local changes: each entry judged, and stored where the rules allow it.

#![tactic(auto)]

ghost use Rattle.std.specs.Prelude.{◌≡◌, true, ◌<◌, ◌*◌, length};
ghost use Rattle.node_schema.specs.Layout.{text_size};
ghost use Rattle.node_schema.specs.Rows.{count_of_attributes};
ghost use Rattle.node_schema.specs.Check.{well_formed, count_of_texts};
ghost use Rattle.server_writes.specs.Offer.{held_of, offered, changed};

use base_bounds::{ATTRIBUTES, CLUSTERS};
use node_kinds::Verdict;
use node_kinds::limits::judge;
use node_plan::decode::kind_of;
use node_schema::{TEXTS, WORDS};
use server_selection::locate::{Located, locate};
use server_values::change::store;
use tlv_reader::Value;

pub mod entry; // entry.rt: the entries of a write action
pub mod response; // response.rt: the statuses of a write, written

// A value offered to attribute i: 8D, 87, or 00 stored.
pub fn offer<'a>(
    w: &'a [u64; WORDS],
    defaults: &'a [u8],
    edits: &mut [u8],
    words: &mut [u64; ATTRIBUTES],
    nulls: &mut [bool; ATTRIBUTES],
    texts: &mut [u16; TEXTS],
    versions: &mut [u32; CLUSTERS],
    i: usize,
    new: Value,
    src: &'a [u8],
) -> u8
    requires { (well_formed w.now ≡ true) × ((i < count_of_attributes w.now) × (length edits.old ≡ text_size * count_of_texts w.now)) }
    ensures { record { code = result; held = held_of words.new nulls.new texts.new versions.new edits.new } ≡ offered w.now defaults.now (held_of words.old nulls.old texts.old versions.old edits.old) i src.now new }
{
    let verdict = judge(kind_of(w, i), node_schema::is_nullable(w, i), new, src);
    match verdict {
        Verdict::Success => {
            store(
                w, defaults, edits, words, nulls, texts, versions, i, new, src,
            );
            u8::from(Verdict::Success)
        }
        Verdict::ConstraintError => u8::from(Verdict::ConstraintError),
        Verdict::InvalidDataType => u8::from(Verdict::InvalidDataType),
    }
}

// A change made at the server itself: kind and limits as a write, but no privilege, writability or version.
pub fn change<'a>(
    w: &'a [u64; WORDS],
    defaults: &'a [u8],
    edits: &mut [u8],
    words: &mut [u64; ATTRIBUTES],
    nulls: &mut [bool; ATTRIBUTES],
    texts: &mut [u16; TEXTS],
    versions: &mut [u32; CLUSTERS],
    endpoint: u16,
    cluster: u32,
    attribute: u32,
    new: Value,
    src: &'a [u8],
) -> u8
    requires { (well_formed w.now ≡ true) × (length edits.old ≡ text_size * count_of_texts w.now) }
    ensures { record { code = result; held = held_of words.new nulls.new texts.new versions.new edits.new } ≡ changed w.now defaults.now (held_of words.old nulls.old texts.old versions.old edits.old) endpoint cluster attribute src.now new }
{
    match locate(w, endpoint, cluster, attribute) {
        Located::Here(i) => offer(
            w, defaults, edits, words, nulls, texts, versions, i, new, src,
        ),
        Located::Refused(code) => code,
    }
}
