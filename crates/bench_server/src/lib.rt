// What a program in C or Rust links to measure a server: its calls over memory that the program owns, the test of refusal 2 alone, and one part of a read.

#![tactic(auto)]

ghost use Rattle.std.specs.Prelude.{◌≡◌, true, ◌≤◌, length};
ghost use Rattle.base_bounds.specs.Bounds.{payload_limit, path_limit};
ghost use Rattle.node_schema.specs.Check.{well_formed};
ghost use Rattle.server_values.specs.Values.{values_of};
ghost use Rattle.server_selection.specs.Request.{filters_in, asked_paths};
ghost use Rattle.server_report.specs.Blocks.{start_of, view_of, blocks_from};
ghost use Rattle.server_report.specs.Part.{Made};
ghost use Rattle.bench_server.specs.Server.{server_right, all_granted};

use base_bounds::{ATTRIBUTES, CLUSTERS};
use node_access::{ADMINISTER, Grants};
use node_schema::check::columns_right;
use node_schema::{TEXTS, WORDS};
use server_report::part::make_part;
use server_report::{ATTRIBUTE_PHASE, ReadPlace};
use server_selection::request::ROW_WORDS;
use server_values::valid::values_ok;

pub mod calls; // calls.rt: the calls of a server

// Where a part ends in the buffer, where the read goes on, and whether more is promised.
#[repr(C)]
#[derive(Clone, Copy)]
pub struct MadePart {
    pub end: usize,
    pub path: usize,
    pub index: usize,
    pub more: bool,
}

// Whether a server that is lent these keeps the rules.
#[unsafe(no_mangle)]
pub extern "C" fn server_valid<'a>(
    w: &'a [u64; WORDS],
    words: &'a [u64; ATTRIBUTES],
    nulls: &'a [bool; ATTRIBUTES],
    texts: &'a [u16; TEXTS],
    versions: &'a [u32; CLUSTERS],
    defaults: &'a [u8],
    edits: &'a [u8],
) -> bool
    ensures { result ≡ server_right w.now defaults.now edits.now (values_of words.now nulls.now texts.now versions.now) }
{
    if !columns_right(w) {
        return false;
    }
    values_ok(w, defaults, edits, words, nulls, texts)
}

// One part of the read that a row's words keep, every privilege granted: from a place on, into the buffer from its start on.
#[unsafe(no_mangle)]
pub extern "C" fn server_part<'a>(
    w: &'a [u64; WORDS],
    words: &'a [u64; ATTRIBUTES],
    nulls: &'a [bool; ATTRIBUTES],
    texts: &'a [u16; TEXTS],
    versions: &'a [u32; CLUSTERS],
    defaults: &'a [u8],
    edits: &'a [u8],
    row: &'a [u64; ROW_WORDS],
    asked: usize,
    path: usize,
    index: usize,
    out: &mut [u8],
) -> MadePart
    requires { (well_formed w.now ≡ true) × ((asked ≤ path_limit) × (payload_limit ≤ length out.old)) }
    ensures { Made out.old 0 (start_of path index) (blocks_from (view_of w.now (values_of words.now nulls.now texts.now versions.now) defaults.now edits.now all_granted (filters_in row.now)) (asked_paths row.now asked) (start_of path index)) out.new (record { end = result.end; place = start_of result.path result.index; more = result.more }) }
{
    let g = Grants {
        level: [ADMINISTER; CLUSTERS],
    };
    let f = make_part(
        w,
        words,
        nulls,
        texts,
        versions,
        defaults,
        edits,
        g,
        row,
        asked,
        ReadPlace {
            phase: ATTRIBUTE_PHASE,
            path,
            index,
            sent: 0,
        },
        out,
        0,
    );
    MadePart {
        end: f.end,
        path: f.place.path,
        index: f.place.index,
        more: f.more,
    }
}
