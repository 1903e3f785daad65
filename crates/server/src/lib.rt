// The server: a server of the Interaction Model. Every call takes any bytes, any buffer, any state, and answers a number of RULES 6.1.

#![tactic(auto)]

ghost use Rattle.std.specs.Prelude.{◌≡◌, List, ℕ};
ghost use Rattle.server_writes.specs.Offer.{held_of};
ghost use Rattle.server_replies.specs.Server.{server_with};
ghost use Rattle.server_replies.specs.Row.{row_in};
ghost use Rattle.server.specs.State.{server_right};

use base_bounds::ATTRIBUTES;
use node_schema::check::columns_right;
use node_schema::{TEXTS, WORDS};
use server_replies::RowStanding;
use server_replies::words::row_ok;
use server_values::valid::values_ok;

pub mod receive; // receive.rt: a message answered
pub mod start; // start.rt: a fresh server, and a change made at the server itself

// The number of RULES 6.1, and the reply's length in the buffer.
#[derive(Clone, Copy)]
pub struct Outcome {
    pub number: u8,
    pub len: usize,
}

// The numbers of RULES 6.1.
pub const DONE: u8 = 0;

pub const SILENT: u8 = 1;

pub const BROKEN: u8 = 2;

pub const SMALL_BUFFER: u8 = 3;

pub const NO_MESSAGE: u8 = 4;

pub const SCHEMA_REFUSED: u8 = 11;

// Whether schema, pages and state keep the rules (refusal 2, RULES 6.1).
pub fn server_ok<'a>(
    w: &'a [u64; WORDS],
    defaults: &'a [u8],
    edits: &'a [u8],
    words: &'a [u64; ATTRIBUTES],
    nulls: &'a [bool; ATTRIBUTES],
    texts: &'a [u16; TEXTS],
    t: RowStanding,
) -> bool
    ensures { (versions row kept : List ℕ) → result ≡ server_right (server_with w.now defaults.now (held_of words.now nulls.now texts.now versions edits.now) (row_in row t kept)) }
{
    if !columns_right(w) {
        return false;
    }
    if !values_ok(w, defaults, edits, words, nulls, texts) {
        return false;
    }
    row_ok(t)
}
