// Lines for the server: a message handed to it, the cache's newest message forwarded, a local change. No input and no output.

#![tactic(auto)]

ghost use Rattle.std.specs.Prelude.{◌≡◌, List, ℕ, length, take};
ghost use Rattle.server.specs.Start.{started};
ghost use Rattle.server.specs.Start.{altered_by};
ghost use Rattle.server.specs.Receive.{received};
ghost use Rattle.script_answer.specs.Messages.{content_of};
ghost use Rattle.script_server.specs.Lines.{is_server, no_server, StartsIn};
ghost use Rattle.script_server.specs.Replies.{edits_size, server_of, caller_by, from_at, change_turn, turn_at, Replies, RepliesIn, Changes, RepliesBy};

use base_bounds::{ATTRIBUTES, CLUSTERS};
use im_envelope::MAX_MESSAGE;
use node_kinds::stored::same_bytes;
use node_schema::texts::edits_size;
use node_schema::{TEXTS, WORDS, subject_served};
use script_answer::Fault;
use script_answer::message::{MessageWords, newest, spelled};
use script_lines::Scan;
use script_lines::hex::SPELLED;
use script_lines::number::read_number;
use script_lines::path::{PathWords, read_path};
use script_lines::sizes::clip;
use script_lines::value::read_value;
use script_setup::PAGE;
use script_setup::access::Table;
use server::Outcome;
use server::receive::receive_in;
use server_selection::request::ROW_WORDS;
use tlv_reader::Value;

// What a server is lent, kept by value between the lines of a script.
#[derive(Clone, Copy)]
pub struct ServerMemory {
    pub words: [u64; ATTRIBUTES],
    pub nulls: [bool; ATTRIBUTES],
    pub texts: [u16; TEXTS],
    pub versions: [u32; CLUSTERS],
    pub row: [u64; ROW_WORDS],
    pub kept: [u8; MAX_MESSAGE],
}

// The server after a line, and what it answered.
#[derive(Clone, Copy)]
pub struct ServerAnswered {
    pub server: ServerMemory,
    pub outcome: Outcome,
}

// Before any server is started.
pub fn no_server() -> ServerMemory
    ensures { result ≡ no_server }
{
    ServerMemory {
        words: [0u64; ATTRIBUTES],
        nulls: [false; ATTRIBUTES],
        texts: [0u16; TEXTS],
        versions: [0u32; CLUSTERS],
        row: [0u64; ROW_WORDS],
        kept: [0u8; MAX_MESSAGE],
    }
}

// A server started.
pub fn start<'a>(
    w: &'a [u64; WORDS],
    defaults: &'a [u8; PAGE],
    server: ServerMemory,
) -> ServerAnswered
    ensures by_index { (edits : List ℕ) → StartsIn (started w.now defaults.now edits) server result }
    ensures len_value { result.outcome.len ≡ 0 }
{
    let mut words = server.words;
    let mut nulls = server.nulls;
    let mut texts = server.texts;
    let mut versions = server.versions;
    let mut row = server.row;
    let mut kept = server.kept;
    let number = server::start::start(
        w,
        defaults,
        &mut words,
        &mut nulls,
        &mut texts,
        &mut versions,
        &mut row,
        &mut kept,
    );
    ServerAnswered {
        server: ServerMemory {
            words,
            nulls,
            texts,
            versions,
            row,
            kept,
        },
        outcome: Outcome { number, len: 0 },
    }
}

// A message, and the subject that it comes from.
#[derive(Clone, Copy)]
struct From {
    subject: u64,
    message: MessageWords,
}

// `server`, or `forward`: the cache's newest message, as the subject that the server serves.
fn handed(name: &[u8], line: &[u8], s: Scan, sent: MessageWords, served: u64) -> Result<From, Fault>
    ensures { result ≡ from_at name.now line.now s sent served }
{
    if same_bytes(name, b"forward") {
        let message = newest(s, sent, Fault::NotSent)?;
        return Ok(From {
            subject: served,
            message,
        });
    }
    let subject = read_number(line, s, u64::MAX);
    let message = spelled(line, subject.next)?;
    Ok(From {
        subject: subject.value,
        message,
    })
}

// The one place where the server is handed a message, with the access table.
fn hand<'a>(
    w: &'a [u64; WORDS],
    defaults: &'a [u8],
    edits: &mut [u8],
    server: ServerMemory,
    table: Table,
    subject: u64,
    message: &'a [u8],
    out: &mut [u8],
) -> ServerAnswered
    ensures { Replies (received (server_of w.now defaults.now edits.old server) (caller_by w.now table subject) message.now (length out.old)) server edits.new out.old out.new result }
{
    let entries = table.entries;
    let mut words = server.words;
    let mut nulls = server.nulls;
    let mut texts = server.texts;
    let mut versions = server.versions;
    let mut row = server.row;
    let mut kept = server.kept;
    let outcome = receive_in(
        w,
        defaults,
        edits,
        &mut words,
        &mut nulls,
        &mut texts,
        &mut versions,
        &mut row,
        &mut kept,
        entries,
        table.count,
        subject,
        message,
        out,
    );
    ServerAnswered {
        server: ServerMemory {
            words,
            nulls,
            texts,
            versions,
            row,
            kept,
        },
        outcome,
    }
}

// The same with the whole page of edits, of which the server's texts take the first part, and a buffer as long as the script says. A longer one than ours is
// lent as ours: from 1,032 bytes on, its length makes no difference to any answer.
fn hand_message<'a>(
    w: &'a [u64; WORDS],
    defaults: &'a [u8],
    edits: &mut [u8],
    server: ServerMemory,
    table: Table,
    subject: u64,
    m: MessageWords,
    out: &mut [u8],
    room: usize,
) -> ServerAnswered
    ensures { RepliesIn (edits_size w.now) room (received (server_of w.now defaults.now (take (edits_size w.now) edits.old) server) (caller_by w.now table subject) (content_of m) (length (take room out.old))) server edits.old edits.new out.old out.new result }
{
    let size = clip(edits_size(w), edits);
    let bytes = m.bytes;
    let n = clip(m.len, &bytes);
    let k = clip(room, out);
    hand(
        w,
        defaults,
        &mut edits[..size],
        server,
        table,
        subject,
        &bytes[..n],
        &mut out[..k],
    )
}

// The server's own change of an attribute.
fn alter<'a>(
    w: &'a [u64; WORDS],
    defaults: &'a [u8],
    edits: &mut [u8],
    server: ServerMemory,
    a: PathWords,
    new: Value,
    bytes: &'a [u8],
) -> ServerAnswered
    ensures { Changes (altered_by (server_of w.now defaults.now edits.old server) a.endpoint a.cluster a.attribute bytes.now new) server edits.new result }
{
    let mut words = server.words;
    let mut nulls = server.nulls;
    let mut texts = server.texts;
    let mut versions = server.versions;
    let row = server.row;
    let kept = server.kept;
    let number = server::start::change(
        w,
        defaults,
        edits,
        &mut words,
        &mut nulls,
        &mut texts,
        &mut versions,
        &row,
        a.endpoint,
        a.cluster,
        a.attribute,
        new,
        bytes,
    );
    ServerAnswered {
        server: ServerMemory {
            words,
            nulls,
            texts,
            versions,
            row,
            kept,
        },
        outcome: Outcome { number, len: 0 },
    }
}

// A local change: the wire code, or 2.
fn change_line<'a>(
    line: &[u8],
    s: Scan,
    server: ServerMemory,
    w: &'a [u64; WORDS],
    defaults: &'a [u8; PAGE],
    edits: &mut [u8],
) -> Result<ServerAnswered, Fault>
    ensures { (room : ℕ) (buffer : List ℕ) → RepliesBy (change_turn line.now s (server_of w.now defaults.now (take (edits_size w.now) edits.old) server)) (edits_size w.now) room server edits.old edits.new buffer buffer result }
{
    let a = read_path(line, s);
    let mut bytes = [0u8; SPELLED];
    let v = read_value(line, a.next, &mut bytes);
    if !v.ok {
        return Err(Fault::Unreadable);
    }
    let new = v.value;
    let size = clip(edits_size(w), edits);
    Ok(alter(w, defaults, &mut edits[..size], server, a, new, &bytes))
}

// Whether a line is for the server.
pub fn is_server(name: &[u8]) -> bool
    ensures { result ≡ is_server name.now }
{
    if same_bytes(name, b"sign") {
        return true;
    }
    if same_bytes(name, b"forward") {
        return true;
    }
    same_bytes(name, b"change")
}

pub fn server_line<'a>(
    name: &[u8],
    line: &[u8],
    s: Scan,
    server: ServerMemory,
    table: Table,
    sent: MessageWords,
    words: &'a [u64; WORDS],
    defaults: &'a [u8; PAGE],
    edits: &mut [u8; PAGE],
    out: &mut [u8; MAX_MESSAGE],
    room: usize,
) -> Result<ServerAnswered, Fault>
    ensures { RepliesBy (turn_at name.now line.now s (server_of words.now defaults.now (take (edits_size words.now) edits.old) server) table sent (length (take room out.old))) (edits_size words.now) room server edits.old edits.new out.old out.new result }
{
    if same_bytes(name, b"change") {
        return change_line(line, s, server, words, defaults, edits);
    }
    let f = handed(name, line, s, sent, subject_served(words))?;
    let m = f.message;
    Ok(hand_message(
        words, defaults, edits, server, table, f.subject, m, out, room,
    ))
}
