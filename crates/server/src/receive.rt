// A message answered: the refusals in their order, then the exchange rules.
ghost use Rattle.std.specs.Prelude.{◌≡◌, true, ◌&&◌, List, ℕ, ◌≤◌, ◌<◌, length, take};
ghost use Rattle.im_writer.specs.Envelope.{exchange_limit};
ghost use Rattle.im_exchange.specs.declared.Step.TheVariants as steps;
ghost use Rattle.im_exchange.specs.Rules.{max_turn};
ghost use Rattle.node_access.specs.Access.{grants_of, table_ok};
ghost use Rattle.node_access.specs.Table.{table_right};
ghost use Rattle.server_writes.specs.Offer.{held_of};
ghost use Rattle.server_replies.specs.Messages.{max_message};
ghost use Rattle.server_replies.specs.Row.{row_in, standing_in};
ghost use Rattle.server.specs.State.{server_right, server_in};
ghost use Rattle.server.specs.Receive.{closing, step_of, begun, reacted, for_server, in_envelope, received, outcome_with, ServerReacted};

use super::{BROKEN, DONE, NO_MESSAGE, Outcome, SILENT, SMALL_BUFFER, server_ok};
use base_bounds::{ACCESS_ENTRIES, ATTRIBUTES, CLUSTERS};
use im_envelope::{Fields, envelope_of};
use im_exchange::{Action, Progress, Step, on_request, on_status};
use im_requests::status_response;
use im_writer::envelope::CACHE_EDITION;
use node_access::table::{search, search_in};
use node_access::{AccessEntry, Grants};
use node_schema::{TEXTS, WORDS, subject_served};
use server_replies::begin::{begin_read, begin_write};
use server_replies::kept::{next_part, resend};
use server_replies::words::{put_standing, read_standing};
use server_replies::{ENVELOPE, MAX_MESSAGE, RowStanding};
use server_selection::request::ROW_WORDS;

// A refusal, which leaves everything as it was.
fn refuse(number: u8) -> Outcome
    ensures { result ≡ record { number = number; len = 0 } }
{
    Outcome { number, len: 0 }
}

// A reply that stands in the buffer, or silence.
fn answer(len: usize) -> Outcome
    ensures { result ≡ outcome_with len }
{
    if len == 0 {
        return Outcome {
            number: SILENT,
            len,
        };
    }
    Outcome { number: DONE, len }
}

// What the message means for the exchange.
fn step_of(x: Progress, action: Action, e: Fields, payload: &[u8]) -> Step
    ensures { result ≡ step_of x action e payload.now }
{
    if action.begins() {
        return on_request(x, e.exchange, e.turn);
    }
    let Some(code) = status_response(payload) else {
        return Step::Silence;
    };
    on_status(x, e.exchange, e.turn, code)
}

fn closed(t: RowStanding) -> RowStanding
    ensures { (row kept : List ℕ) → row_in row result kept ≡ closing (row_in row t kept) }
{
    let was = t.progress;
    let place = t.place;
    RowStanding {
        progress: Progress {
            last: was.last,
            turn: was.turn,
            next: was.next,
            closed: 1,
        },
        asked: t.asked,
        place,
        len: t.len,
    }
}

// A request that begins an exchange; no other action does.
fn begin<'a>(
    w: &'a [u64; WORDS],
    defaults: &'a [u8],
    edits: &mut [u8],
    words: &mut [u64; ATTRIBUTES],
    nulls: &mut [bool; ATTRIBUTES],
    texts: &mut [u16; TEXTS],
    versions: &mut [u32; CLUSTERS],
    row: &mut [u64; ROW_WORDS],
    kept: &mut [u8; MAX_MESSAGE],
    t: RowStanding,
    g: Grants,
    action: Action,
    e: Fields,
    payload: &'a [u8],
    out: &mut [u8],
) -> Outcome
    requires { (t ≡ standing_in row.old) × ((server_right (server_in w.now defaults.now (held_of words.old nulls.old texts.old versions.old edits.old) row.old kept.old) ≡ true) × ((e.exchange < exchange_limit) × (max_message ≤ length out.old))) }
    ensures { ServerReacted (begun (server_in w.now defaults.now (held_of words.old nulls.old texts.old versions.old edits.old) row.old kept.old) g e payload.now action) result (held_of words.new nulls.new texts.new versions.new edits.new) row.old row.new kept.new out.old out.new }
{
    match action {
        Action::Read => {
            let n = begin_read(
                w, words, nulls, texts, versions, defaults, edits, g, row, kept, t, e.exchange,
                payload, out,
            );
            put_standing(row, n);
            answer(n.len)
        }
        Action::Write => {
            let n = begin_write(
                w, g, defaults, edits, words, nulls, texts, versions, kept, t, e.exchange, payload,
                out,
            );
            put_standing(row, n);
            answer(n.len)
        }
        Action::Status => answer(0),
        Action::Other => answer(0),
    }
}

// What the message gets.
fn react<'a>(
    w: &'a [u64; WORDS],
    defaults: &'a [u8],
    edits: &mut [u8],
    words: &mut [u64; ATTRIBUTES],
    nulls: &mut [bool; ATTRIBUTES],
    texts: &mut [u16; TEXTS],
    versions: &mut [u32; CLUSTERS],
    row: &mut [u64; ROW_WORDS],
    kept: &mut [u8; MAX_MESSAGE],
    t: RowStanding,
    g: Grants,
    action: Action,
    e: Fields,
    payload: &'a [u8],
    step: Step,
    out: &mut [u8],
) -> Outcome
    requires { (t ≡ standing_in row.old) × ((server_right (server_in w.now defaults.now (held_of words.old nulls.old texts.old versions.old edits.old) row.old kept.old) ≡ true) × ((e.exchange < exchange_limit) × ((step ≡ steps.Next → t.progress.turn < max_turn) × (max_message ≤ length out.old)))) }
    ensures { ServerReacted (reacted (server_in w.now defaults.now (held_of words.old nulls.old texts.old versions.old edits.old) row.old kept.old) g e payload.now action step) result (held_of words.new nulls.new texts.new versions.new edits.new) row.old row.new kept.new out.old out.new }
{
    match step {
        Step::Silence => answer(0),
        Step::Begin => begin(
            w, defaults, edits, words, nulls, texts, versions, row, kept, t, g, action, e, payload,
            out,
        ),
        Step::Repeat => {
            resend(kept, t.len, out);
            answer(t.len)
        }
        Step::Next => {
            let n = next_part(
                w, words, nulls, texts, versions, defaults, edits, g, row, kept, t, out,
            );
            put_standing(row, n);
            answer(n.len)
        }
        Step::Close => {
            put_standing(row, closed(t));
            answer(0)
        }
    }
}

// Whether a message is for a server: in the edition of a cache's exchanges, and an action that a server takes.
fn is_for_server(edition: u64, action: Action) -> bool
    ensures { result ≡ for_server edition action }
{
    if edition != CACHE_EDITION as u64 {
        return false;
    }
    action.is_taken()
}

// The core of receiving: what is granted to the subject is known, and whether the access table keeps the rules.
pub fn serve<'a>(
    w: &'a [u64; WORDS],
    defaults: &'a [u8],
    edits: &mut [u8],
    words: &mut [u64; ATTRIBUTES],
    nulls: &mut [bool; ATTRIBUTES],
    texts: &mut [u16; TEXTS],
    versions: &mut [u32; CLUSTERS],
    row: &mut [u64; ROW_WORDS],
    kept: &mut [u8; MAX_MESSAGE],
    table: bool,
    g: Grants,
    subject: u64,
    message: &'a [u8],
    out: &mut [u8],
) -> Outcome
    ensures { ServerReacted (received (server_in w.now defaults.now (held_of words.old nulls.old texts.old versions.old edits.old) row.old kept.old) (record { subject = subject; grants = g; table = table }) message.now (length out.old)) result (held_of words.new nulls.new texts.new versions.new edits.new) row.old row.new kept.new out.old out.new }
{
    let t = read_standing(row);
    if !server_ok(w, defaults, edits, words, nulls, texts, t) {
        return refuse(BROKEN);
    }
    if !table {
        return refuse(BROKEN);
    }
    if out.len() < MAX_MESSAGE {
        return refuse(SMALL_BUFFER);
    }
    let Some(e) = envelope_of(message) else {
        return refuse(NO_MESSAGE);
    };
    if MAX_MESSAGE < message.len() {
        return refuse(NO_MESSAGE);
    }
    let action = Action::from(e.opcode);
    if !is_for_server(e.edition, action) {
        return refuse(NO_MESSAGE);
    }
    if subject != subject_served(w) {
        return answer(0);
    }
    let payload = &message[ENVELOPE..message.len()];
    let step = step_of(t.progress, action, e, payload);
    react(
        w, defaults, edits, words, nulls, texts, versions, row, kept, t, g, action, e, payload,
        step, out,
    )
}

// A message from a subject: any bytes, any buffer, any state, any access table.
pub fn receive<'a>(
    w: &'a [u64; WORDS],
    defaults: &'a [u8],
    edits: &mut [u8],
    words: &mut [u64; ATTRIBUTES],
    nulls: &mut [bool; ATTRIBUTES],
    texts: &mut [u16; TEXTS],
    versions: &mut [u32; CLUSTERS],
    row: &mut [u64; ROW_WORDS],
    kept: &mut [u8; MAX_MESSAGE],
    table: &[AccessEntry],
    subject: u64,
    message: &'a [u8],
    out: &mut [u8],
) -> Outcome
    ensures { ServerReacted (received (server_in w.now defaults.now (held_of words.old nulls.old texts.old versions.old edits.old) row.old kept.old) (record { subject = subject; grants = grants_of table.now subject w.now; table = table_ok table.now }) message.now (length out.old)) result (held_of words.new nulls.new texts.new versions.new edits.new) row.old row.new kept.new out.old out.new }
{
    let access = search(table, table.len(), subject, w);
    serve(
        w,
        defaults,
        edits,
        words,
        nulls,
        texts,
        versions,
        row,
        kept,
        access.right,
        access.grants,
        subject,
        message,
        out,
    )
}

// The same for whoever has the access table by value: the first `count` of the entries are in use, and a count above 16 breaks the rules.
pub fn receive_in<'a>(
    w: &'a [u64; WORDS],
    defaults: &'a [u8],
    edits: &mut [u8],
    words: &mut [u64; ATTRIBUTES],
    nulls: &mut [bool; ATTRIBUTES],
    texts: &mut [u16; TEXTS],
    versions: &mut [u32; CLUSTERS],
    row: &mut [u64; ROW_WORDS],
    kept: &mut [u8; MAX_MESSAGE],
    entries: [AccessEntry; ACCESS_ENTRIES],
    count: usize,
    subject: u64,
    message: &'a [u8],
    out: &mut [u8],
) -> Outcome
    ensures { ServerReacted (received (server_in w.now defaults.now (held_of words.old nulls.old texts.old versions.old edits.old) row.old kept.old) (record { subject = subject; grants = grants_of (take count entries) subject w.now; table = table_right count entries }) message.now (length out.old)) result (held_of words.new nulls.new texts.new versions.new edits.new) row.old row.new kept.new out.old out.new }
{
    let access = search_in(entries, count, subject, w);
    let grants = access.grants;
    serve(
        w,
        defaults,
        edits,
        words,
        nulls,
        texts,
        versions,
        row,
        kept,
        access.right,
        grants,
        subject,
        message,
        out,
    )
}
