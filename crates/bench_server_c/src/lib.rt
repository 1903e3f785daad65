// The calls of `bench_server` as C names them: a static library, which exports them and says of each what it says.

#![tactic(auto)]

ghost use Rattle.std.specs.Prelude.{◌≡◌, true, ◌≤◌, length, List, ℕ, take};
ghost use Rattle.base_bounds.specs.Bounds.{payload_limit, path_limit};
ghost use Rattle.node_schema.specs.Check.{well_formed};
ghost use Rattle.server_values.specs.Values.{values_of};
ghost use Rattle.server_selection.specs.Request.{filters_in, asked_paths};
ghost use Rattle.server_report.specs.Blocks.{start_of, view_of, blocks_from};
ghost use Rattle.server_report.specs.Part.{Made};
ghost use Rattle.bench_server.specs.Server.{server_right, all_granted};
ghost use Rattle.node_access.specs.Access.{grants_of};
ghost use Rattle.node_access.specs.Table.{table_right};
ghost use Rattle.server_writes.specs.Offer.{held_of};
ghost use Rattle.server.specs.State.{server_in};
ghost use Rattle.server.specs.Receive.{received, ServerReacted};
ghost use Rattle.server.specs.Start.{started, Starts, altered_by, Alters};
ghost use Rattle.bench_server.specs.Calls.{open_entries, outcome_of, given_value};

use base_bounds::{ATTRIBUTES, CLUSTERS};
use bench_server::MadePart;
use bench_server::calls::Last;
use node_schema::{TEXTS, WORDS};
use server_replies::MAX_MESSAGE;
use server_selection::request::ROW_WORDS;

// Whether a server that is lent these keeps the rules.
#[unsafe(no_mangle)]
pub extern "C" fn server_valid<'a>(
    w: &'a [u64; WORDS],
    words: &'a [u64; ATTRIBUTES],
    nulls: &'a [bool; ATTRIBUTES],
    texts: &'a [u16; TEXTS],
    versions: &'a [u32; CLUSTERS],
    defaults: &'a [u8],
    edits: &'a [u8],
) -> bool
    ensures { result ≡ server_right w.now defaults.now edits.now (values_of words.now nulls.now texts.now versions.now) }
{
    bench_server::server_valid(w, words, nulls, texts, versions, defaults, edits)
}

// One part of the read that a row's words keep, every privilege granted: from a place on, into the buffer from its start on.
#[unsafe(no_mangle)]
pub extern "C" fn server_part<'a>(
    w: &'a [u64; WORDS],
    words: &'a [u64; ATTRIBUTES],
    nulls: &'a [bool; ATTRIBUTES],
    texts: &'a [u16; TEXTS],
    versions: &'a [u32; CLUSTERS],
    defaults: &'a [u8],
    edits: &'a [u8],
    row: &'a [u64; ROW_WORDS],
    asked: usize,
    path: usize,
    index: usize,
    out: &mut [u8],
) -> MadePart
    requires { (well_formed w.now ≡ true) × ((asked ≤ path_limit) × (payload_limit ≤ length out.old)) }
    ensures { Made out.old 0 (start_of path index) (blocks_from (view_of w.now (values_of words.now nulls.now texts.now versions.now) defaults.now edits.now all_granted (filters_in row.now)) (asked_paths row.now asked) (start_of path index)) out.new (record { end = result.end; place = start_of result.path result.index; more = result.more }) }
{
    bench_server::server_part(
        w, words, nulls, texts, versions, defaults, edits, row, asked, path, index, out,
    )
}

#[unsafe(no_mangle)]
pub extern "C" fn server_start<'a>(
    w: &'a [u64; WORDS],
    defaults: &'a [u8],
    words: &mut [u64; ATTRIBUTES],
    nulls: &mut [bool; ATTRIBUTES],
    texts: &mut [u16; TEXTS],
    versions: &mut [u32; CLUSTERS],
    row: &mut [u64; ROW_WORDS],
    kept: &mut [u8; MAX_MESSAGE],
) -> u8
    ensures { (edits : List ℕ) → Starts (started w.now defaults.now edits) result (values_of words.old nulls.old texts.old versions.old) (values_of words.new nulls.new texts.new versions.new) row.old row.new kept.old kept.new }
{
    bench_server::calls::server_start(w, defaults, words, nulls, texts, versions, row, kept)
}

#[unsafe(no_mangle)]
pub extern "C" fn server_receive<'a>(
    w: &'a [u64; WORDS],
    defaults: &'a [u8],
    edits: &mut [u8],
    words: &mut [u64; ATTRIBUTES],
    nulls: &mut [bool; ATTRIBUTES],
    texts: &mut [u16; TEXTS],
    versions: &mut [u32; CLUSTERS],
    row: &mut [u64; ROW_WORDS],
    kept: &mut [u8; MAX_MESSAGE],
    subject: u64,
    message: &'a [u8],
    out: &mut [u8],
) -> Last
    ensures { ServerReacted (received (server_in w.now defaults.now (held_of words.old nulls.old texts.old versions.old edits.old) row.old kept.old) (record { subject = subject; grants = grants_of (take 1 open_entries) subject w.now; table = table_right 1 open_entries }) message.now (length out.old)) (outcome_of result) (held_of words.new nulls.new texts.new versions.new edits.new) row.old row.new kept.new out.old out.new }
{
    bench_server::calls::server_receive(
        w, defaults, edits, words, nulls, texts, versions, row, kept, subject, message, out,
    )
}

#[unsafe(no_mangle)]
pub extern "C" fn server_change<'a>(
    w: &'a [u64; WORDS],
    defaults: &'a [u8],
    edits: &mut [u8],
    words: &mut [u64; ATTRIBUTES],
    nulls: &mut [bool; ATTRIBUTES],
    texts: &mut [u16; TEXTS],
    versions: &mut [u32; CLUSTERS],
    row: &'a [u64; ROW_WORDS],
    endpoint: u16,
    cluster: u32,
    attribute: u32,
    code: u8,
    word: u64,
    text: &'a [u8],
) -> u8
    ensures { (kept : List ℕ) → Alters (altered_by (server_in w.now defaults.now (held_of words.old nulls.old texts.old versions.old edits.old) row.now kept) endpoint cluster attribute text.now (given_value code word (length text.now))) result (held_of words.new nulls.new texts.new versions.new edits.new) }
{
    bench_server::calls::server_change(
        w, defaults, edits, words, nulls, texts, versions, row, endpoint, cluster, attribute, code,
        word, text,
    )
}
