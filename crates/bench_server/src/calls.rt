// The calls of a server, with one access entry that grants everything.
ghost use Rattle.std.specs.Prelude.{◌≡◌, List, ℕ, length, take};
ghost use Rattle.node_access.specs.Access.{grants_of};
ghost use Rattle.node_access.specs.Table.{table_right};
ghost use Rattle.server_values.specs.Values.{values_of};
ghost use Rattle.server_writes.specs.Offer.{held_of};
ghost use Rattle.server.specs.State.{server_in};
ghost use Rattle.server.specs.Receive.{received, ServerReacted};
ghost use Rattle.server.specs.Start.{started, Starts, altered_by, Alters};
ghost use Rattle.bench_server.specs.Calls.{open_entries, outcome_of, given_value};

use base_bounds::{ACCESS_ENTRIES, ATTRIBUTES, CLUSTERS};
use node_access::{ADMINISTER, AccessEntry};
use node_kinds::stored::signed_of;
use node_schema::{TEXTS, WORDS};
use server::receive::receive_in;
use server::start::{change, start};
use server_replies::MAX_MESSAGE;
use server_selection::request::ROW_WORDS;
use tlv_reader::Value;

// The number of RULES 6.1, and the reply's length in the buffer.
#[repr(C)]
#[derive(Clone, Copy)]
pub struct Last {
    pub number: u8,
    pub len: usize,
}

// One access entry: every privilege, for anyone, everywhere.
fn open_entries() -> [AccessEntry; ACCESS_ENTRIES]
    ensures { result ≡ open_entries }
{
    let all = AccessEntry {
        privilege: ADMINISTER,
        any_subject: true,
        subject: 0,
        any_endpoint: true,
        endpoint: 0,
        any_cluster: true,
        cluster: 0,
    };
    [all; ACCESS_ENTRIES]
}

#[unsafe(no_mangle)]
pub extern "C" fn server_start<'a>(
    w: &'a [u64; WORDS],
    defaults: &'a [u8],
    words: &mut [u64; ATTRIBUTES],
    nulls: &mut [bool; ATTRIBUTES],
    texts: &mut [u16; TEXTS],
    versions: &mut [u32; CLUSTERS],
    row: &mut [u64; ROW_WORDS],
    kept: &mut [u8; MAX_MESSAGE],
) -> u8
    ensures { (edits : List ℕ) → Starts (started w.now defaults.now edits) result (values_of words.old nulls.old texts.old versions.old) (values_of words.new nulls.new texts.new versions.new) row.old row.new kept.old kept.new }
{
    start(w, defaults, words, nulls, texts, versions, row, kept)
}

#[unsafe(no_mangle)]
pub extern "C" fn server_receive<'a>(
    w: &'a [u64; WORDS],
    defaults: &'a [u8],
    edits: &mut [u8],
    words: &mut [u64; ATTRIBUTES],
    nulls: &mut [bool; ATTRIBUTES],
    texts: &mut [u16; TEXTS],
    versions: &mut [u32; CLUSTERS],
    row: &mut [u64; ROW_WORDS],
    kept: &mut [u8; MAX_MESSAGE],
    subject: u64,
    message: &'a [u8],
    out: &mut [u8],
) -> Last
    ensures { ServerReacted (received (server_in w.now defaults.now (held_of words.old nulls.old texts.old versions.old edits.old) row.old kept.old) (record { subject = subject; grants = grants_of (take 1 open_entries) subject w.now; table = table_right 1 open_entries }) message.now (length out.old)) (outcome_of result) (held_of words.new nulls.new texts.new versions.new edits.new) row.old row.new kept.new out.old out.new }
{
    let t = open_entries();
    let o = receive_in(
        w, defaults, edits, words, nulls, texts, versions, row, kept, t, 1, subject, message, out,
    );
    Last {
        number: o.number,
        len: o.len,
    }
}

// A value by its code: 1 boolean, 2 unsigned, 3 signed, 4 float, 5 the text, any other null.
pub fn given_value(code: u8, word: u64, len: usize) -> Value
    ensures { result ≡ given_value code word len }
{
    if code == 1 {
        return Value::Boolean(word != 0);
    }
    if code == 2 {
        return Value::Unsigned(word);
    }
    if code == 3 {
        return Value::Signed(signed_of(word));
    }
    if code == 4 {
        return Value::Float((word % 4294967296) as u32);
    }
    if code == 5 {
        return Value::Text { start: 0, len };
    }
    Value::Null
}

#[unsafe(no_mangle)]
pub extern "C" fn server_change<'a>(
    w: &'a [u64; WORDS],
    defaults: &'a [u8],
    edits: &mut [u8],
    words: &mut [u64; ATTRIBUTES],
    nulls: &mut [bool; ATTRIBUTES],
    texts: &mut [u16; TEXTS],
    versions: &mut [u32; CLUSTERS],
    row: &'a [u64; ROW_WORDS],
    endpoint: u16,
    cluster: u32,
    attribute: u32,
    code: u8,
    word: u64,
    text: &'a [u8],
) -> u8
    ensures { (kept : List ℕ) → Alters (altered_by (server_in w.now defaults.now (held_of words.old nulls.old texts.old versions.old edits.old) row.now kept) endpoint cluster attribute text.now (given_value code word (length text.now))) result (held_of words.new nulls.new texts.new versions.new edits.new) }
{
    let new = given_value(code, word, text.len());
    change(
        w, defaults, edits, words, nulls, texts, versions, row, endpoint, cluster, attribute, new,
        text,
    )
}
