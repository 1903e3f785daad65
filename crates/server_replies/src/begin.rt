// Requests that begin an exchange: each read whole, then refused or answered.
ghost use Rattle.std.specs.Prelude.{◌≡◌, true, List, ℕ, ◌<◌, ◌≤◌, ◌*◌, length};
ghost use Rattle.base_octets.specs.Store.{store};
ghost use Rattle.im_writer.specs.Envelope.{exchange_limit};
ghost use Rattle.node_schema.specs.Layout.{text_size};
ghost use Rattle.node_schema.specs.Check.{well_formed, count_of_texts};
ghost use Rattle.server_writes.specs.Offer.{held_of};
ghost use Rattle.server_replies.specs.Messages.{max_message};
ghost use Rattle.server_replies.specs.Server.{server_with};
ghost use Rattle.server_replies.specs.Row.{row_in, kept_reply};
ghost use Rattle.server_replies.specs.Begin.{refusal_of, once, read_begun, write_begun, Begins, Wrote};

use super::kept::{keep, next_of};
use super::message::{put_part, put_status, put_statuses};
use super::refusal::{Asks, refusal_code};
use super::{MAX_MESSAGE, RowStanding};
use base_bounds::{ATTRIBUTES, CLUSTERS};
use im_exchange::{FIRST_REPLY, NOTHING, Progress};
use im_requests::write::{ENTRY_WORDS, write_request};
use im_requests::{FILTER_WORDS, PATH_WORDS, read_request};
use im_writer::envelope::CACHE_EDITION;
use node_access::Grants;
use node_schema::{TEXTS, WORDS};
use server_report::{ATTRIBUTE_PHASE, ReadPlace};
use server_selection::filters::put_filters;
use server_selection::request::{ROW_WORDS, put_paths};
use server_writes::entry::write_all;

// The one reply of an exchange kept, and how the exchange then stands.
fn once_kept(
    kept: &mut [u8; MAX_MESSAGE],
    t: RowStanding,
    exchange: u64,
    reply: &[u8],
) -> RowStanding
    requires { length reply.now ≤ max_message }
    ensures by_index { (row : List ℕ) → row_in row result kept.new ≡ once (row_in row t kept.old) exchange reply.now }
    ensures whole { length kept.old ≡ max_message }
{
    keep(kept, reply);
    let place = t.place;
    RowStanding {
        progress: Progress {
            last: exchange,
            turn: FIRST_REPLY,
            next: NOTHING,
            closed: 0,
        },
        asked: t.asked,
        place,
        len: reply.len(),
    }
}

// The whole request refused.
fn refuse(
    kept: &mut [u8; MAX_MESSAGE],
    t: RowStanding,
    exchange: u64,
    code: u8,
    out: &mut [u8],
) -> RowStanding
    requires { (exchange < exchange_limit) × (max_message ≤ length out.old) }
    ensures { (row : List ℕ) → (row_in row result kept.new ≡ once (row_in row t kept.old) exchange (refusal_of exchange code)) × ((out.new ≡ store out.old 0 (kept_reply (row_in row result kept.new))) × (length (kept_reply (row_in row result kept.new)) ≡ result.len)) }
{
    let end = put_status(out, CACHE_EDITION, exchange, FIRST_REPLY as u16, code);
    once_kept(kept, t, exchange, &out[0..end])
}

// A read: reply 1, or the status that refuses it.
pub fn begin_read<'a>(
    w: &'a [u64; WORDS],
    words: &'a [u64; ATTRIBUTES],
    nulls: &'a [bool; ATTRIBUTES],
    texts: &'a [u16; TEXTS],
    versions: &'a [u32; CLUSTERS],
    defaults: &'a [u8],
    edits: &'a [u8],
    g: Grants,
    row: &mut [u64; ROW_WORDS],
    kept: &mut [u8; MAX_MESSAGE],
    t: RowStanding,
    exchange: u64,
    payload: &'a [u8],
    out: &mut [u8],
) -> RowStanding
    requires { (well_formed w.now ≡ true) × ((exchange < exchange_limit) × (max_message ≤ length out.old)) }
    ensures { Begins (read_begun (server_with w.now defaults.now (held_of words.now nulls.now texts.now versions.now edits.now) (row_in row.old t kept.old)) g exchange payload.now) result row.old row.new kept.new out.old out.new }
{
    let mut paths = [0u64; PATH_WORDS];
    let mut filters = [0u64; FILTER_WORDS];
    let Some(r) = read_request(payload, &mut paths, &mut filters) else {
        return refuse(kept, t, exchange, refusal_code(None), out);
    };
    let refusal = refusal_code(Some(Asks {
        timed: 0,
        paths: r.paths,
        filters: r.filters,
        writes: 0,
    }));
    if refusal != 0 {
        return refuse(kept, t, exchange, refusal, out);
    }
    let asked = r.paths;
    put_paths(row, &paths);
    put_filters(w, &filters, r.filters, row);
    let f = put_part(
        w,
        words,
        nulls,
        texts,
        versions,
        defaults,
        edits,
        g,
        row,
        asked,
        ReadPlace {
            phase: ATTRIBUTE_PHASE,
            path: 0,
            index: 0,
            sent: 0,
        },
        out,
        CACHE_EDITION,
        exchange,
        FIRST_REPLY as u16,
    );
    let place = f.place;
    let end = f.end;
    keep(kept, &out[0..end]);
    RowStanding {
        progress: Progress {
            last: exchange,
            turn: FIRST_REPLY,
            next: next_of(f.more),
            closed: 0,
        },
        asked,
        place,
        len: end,
    }
}

// A write: its statuses, silence, or the status that refuses it.
pub fn begin_write<'a>(
    w: &'a [u64; WORDS],
    g: Grants,
    defaults: &'a [u8],
    edits: &mut [u8],
    words: &mut [u64; ATTRIBUTES],
    nulls: &mut [bool; ATTRIBUTES],
    texts: &mut [u16; TEXTS],
    versions: &mut [u32; CLUSTERS],
    kept: &mut [u8; MAX_MESSAGE],
    t: RowStanding,
    exchange: u64,
    payload: &'a [u8],
    out: &mut [u8],
) -> RowStanding
    requires { (well_formed w.now ≡ true) × ((length edits.old ≡ text_size * count_of_texts w.now) × ((exchange < exchange_limit) × (max_message ≤ length out.old))) }
    ensures { (row : List ℕ) → Wrote (write_begun (server_with w.now defaults.now (held_of words.old nulls.old texts.old versions.old edits.old) (row_in row t kept.old)) g exchange payload.now) result (held_of words.new nulls.new texts.new versions.new edits.new) row row kept.new out.old out.new }
{
    let mut entries = [0u64; ENTRY_WORDS];
    let Some(r) = write_request(payload, &mut entries) else {
        return refuse(kept, t, exchange, refusal_code(None), out);
    };
    let refusal = refusal_code(Some(Asks {
        timed: r.timed,
        paths: 0,
        filters: 0,
        writes: r.entries,
    }));
    if refusal != 0 {
        return refuse(kept, t, exchange, refusal, out);
    }
    let n = r.entries;
    let codes = write_all(
        w, g, defaults, edits, words, nulls, texts, versions, &entries, n, payload,
    );
    if r.suppress == 1 {
        return once_kept(kept, t, exchange, &out[0..0]);
    }
    let end = put_statuses(
        &entries,
        codes,
        n,
        out,
        CACHE_EDITION,
        exchange,
        FIRST_REPLY as u16,
    );
    once_kept(kept, t, exchange, &out[0..end])
}
