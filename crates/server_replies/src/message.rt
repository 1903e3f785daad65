// Whole messages written from the start of the buffer on.
ghost use Rattle.std.specs.Prelude.{◌≡◌, true, ℕ, ◌<◌, ◌≤◌, length, take};
ghost use Rattle.base_bounds.specs.Bounds.{path_limit, write_limit};
ghost use Rattle.base_octets.specs.Store.{Stored};
ghost use Rattle.node_schema.specs.Check.{well_formed};
ghost use Rattle.im_requests.specs.Write.{entry_in};
ghost use Rattle.im_writer.specs.Envelope.{exchange_limit};
ghost use Rattle.server_writes.specs.Entry.{InWidth, entries_in};
ghost use Rattle.server_replies.specs.Messages.{max_message, status_message, response_message};
ghost use Rattle.server_values.specs.Values.{values_of};
ghost use Rattle.server_selection.specs.Request.{filters_in};
ghost use Rattle.server_report.specs.Blocks.{view_of, blocks_from};
ghost use Rattle.server_replies.specs.Row.{paths_of, request_in};
ghost use Rattle.server_replies.specs.Sent.{Sent};

use super::ENVELOPE;
use base_bounds::{ATTRIBUTES, CLUSTERS, MAX_WRITES};
use im_exchange::{REPORT, STATUS, WRITE_RESPONSE};
use im_requests::write::ENTRY_WORDS;
use im_writer::envelope::put_envelope;
use im_writer::response::put_status_response;
use node_access::Grants;
use node_schema::{TEXTS, WORDS};
use server_report::part::make_part;
use server_report::{Filled, ReadPlace};
use server_selection::request::ROW_WORDS;
use server_writes::response::put_response;

// A status: a refusal of a whole request.
pub fn put_status(out: &mut [u8], edition: u8, exchange: u64, turn: u16, code: u8) -> usize
    requires { (edition < 16) × ((exchange < exchange_limit) × (max_message ≤ length out.old)) }
    ensures { Stored out.old 0 (status_message edition exchange turn code) out.new result }
{
    let p = put_envelope(out, 0, edition, STATUS as u8, exchange, turn);
    put_status_response(out, p, code)
}

// The statuses of a write.
pub fn put_statuses(
    entries: &[u64; ENTRY_WORDS],
    codes: [u8; MAX_WRITES],
    n: usize,
    out: &mut [u8],
    edition: u8,
    exchange: u64,
    turn: u16,
) -> usize
    requires { (n ≤ write_limit) × (((i : ℕ) → i < n → InWidth (entry_in entries.now i)) × ((edition < 16) × ((exchange < exchange_limit) × (max_message ≤ length out.old)))) }
    ensures { Stored out.old 0 (response_message edition exchange turn (entries_in entries.now n) (take n codes)) out.new result }
{
    let p = put_envelope(out, 0, edition, WRITE_RESPONSE as u8, exchange, turn);
    put_response(entries, codes, n, out, p)
}

// The part of a report from a place on.
pub fn put_part<'a>(
    w: &'a [u64; WORDS],
    words: &'a [u64; ATTRIBUTES],
    nulls: &'a [bool; ATTRIBUTES],
    texts: &'a [u16; TEXTS],
    versions: &'a [u32; CLUSTERS],
    defaults: &'a [u8],
    edits: &'a [u8],
    g: Grants,
    row: &'a [u64; ROW_WORDS],
    asked: usize,
    from: ReadPlace,
    out: &mut [u8],
    edition: u8,
    exchange: u64,
    turn: u16,
) -> Filled
    requires { (well_formed w.now ≡ true) × ((asked ≤ path_limit) × ((edition < 16) × ((exchange < exchange_limit) × (max_message ≤ length out.old)))) }
    ensures { Sent out.old edition exchange turn from (blocks_from (view_of w.now (values_of words.now nulls.now texts.now versions.now) defaults.now edits.now g (filters_in row.now)) (paths_of (request_in row.now asked)) from) out.new result }
{
    let p = put_envelope(out, 0, edition, REPORT as u8, exchange, turn);
    make_part(
        w, words, nulls, texts, versions, defaults, edits, g, row, asked, from, out, p,
    )
}
