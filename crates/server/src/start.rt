// A fresh server, and a change made at the server itself.
ghost use Rattle.std.specs.Prelude.{◌≡◌, List, ℕ};
ghost use Rattle.server_values.specs.Values.{values_of};
ghost use Rattle.server_writes.specs.Offer.{held_of};
ghost use Rattle.server.specs.State.{server_in};
ghost use Rattle.server.specs.Start.{started, Starts, altered_by, Alters};

use super::{BROKEN, DONE, SCHEMA_REFUSED, server_ok};
use base_bounds::{ATTRIBUTES, CLUSTERS};
use node_schema::{TEXTS, WORDS};
use server_replies::MAX_MESSAGE;
use server_replies::words::read_standing;
use server_selection::request::ROW_WORDS;
use server_values::fresh::fresh;
use tlv_reader::Value;

// A fresh server of a schema and a factory page; where they break the rules there is none, and what was lent stays as it was. Its page of edits may be any bytes
// of the size that the schema leads to.
pub fn start<'a>(
    w: &'a [u64; WORDS],
    defaults: &'a [u8],
    words: &mut [u64; ATTRIBUTES],
    nulls: &mut [bool; ATTRIBUTES],
    texts: &mut [u16; TEXTS],
    versions: &mut [u32; CLUSTERS],
    row: &mut [u64; ROW_WORDS],
    kept: &mut [u8; MAX_MESSAGE],
) -> u8
    ensures { (edits : List ℕ) → Starts (started w.now defaults.now edits) result (values_of words.old nulls.old texts.old versions.old) (values_of words.new nulls.new texts.new versions.new) row.old row.new kept.old kept.new }
{
    if node_plan::check(w, defaults) != 0 {
        return SCHEMA_REFUSED;
    }
    fresh(w, words, nulls, texts, versions);
    *row = [0u64; ROW_WORDS];
    *kept = [0u8; MAX_MESSAGE];
    DONE
}

// A change made at the server itself.
pub fn change<'a>(
    w: &'a [u64; WORDS],
    defaults: &'a [u8],
    edits: &mut [u8],
    words: &mut [u64; ATTRIBUTES],
    nulls: &mut [bool; ATTRIBUTES],
    texts: &mut [u16; TEXTS],
    versions: &mut [u32; CLUSTERS],
    row: &'a [u64; ROW_WORDS],
    endpoint: u16,
    cluster: u32,
    attribute: u32,
    new: Value,
    src: &'a [u8],
) -> u8
    ensures { (kept : List ℕ) → Alters (altered_by (server_in w.now defaults.now (held_of words.old nulls.old texts.old versions.old edits.old) row.now kept) endpoint cluster attribute src.now new) result (held_of words.new nulls.new texts.new versions.new edits.new) }
{
    let t = read_standing(row);
    if !server_ok(w, defaults, edits, words, nulls, texts, t) {
        return BROKEN;
    }
    server_writes::change(
        w, defaults, edits, words, nulls, texts, versions, endpoint, cluster, attribute, new, src,
    )
}
