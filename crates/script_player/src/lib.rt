// One line of a script played, by its first word. No input and no output.

#![tactic(auto)]

use cache_entries::PAGE_SIZE;
use ends::{Played, Player, started};
use im_envelope::MAX_MESSAGE;
use node_kinds::stored::same_bytes;
use node_schema::WORDS;
use script_answer::Fault;
use script_cache::ask::ask_line;
use script_cache::{cache_line, is_cache};
use script_lines::{Scan, is_done};
use script_server::{is_server, server_line};
use script_setup::access::access_line;
use script_setup::plan::set_schema;
use script_setup::{PAGE, SETUP, is_setup, setup_line};
use turns::{acted, asked, buffer_line, given, replied, silent, used_line, wrong};

pub mod ends; // ends.rt: what a script has made so far
mod turns; // turns.rt: what a line leaves behind

// `start`
fn start_line(
    s: Scan,
    p: Player,
    setup: &[u64; SETUP],
    words: &mut [u64; WORDS],
    defaults: &[u8; PAGE],
) -> Played {
    if !is_done(s) {
        return wrong(p, Fault::Unreadable);
    }
    set_schema(setup, words);
    started(p, words, defaults)
}

// Whether a line wants no server: it is skipped, or it sets one up.
fn wants_none(name: &[u8], line: &[u8]) -> bool {
    if script_lines::is_skipped(line) {
        return true;
    }
    if is_setup(name) {
        return true;
    }
    if same_bytes(name, b"access") {
        return true;
    }
    same_bytes(name, b"start")
}

// Such a line. A factory text stands at a place that no server made before it looks at, so it goes to the page at once.
fn setting_up(
    name: &[u8],
    line: &[u8],
    s: Scan,
    p: Player,
    setup: &mut [u64; SETUP],
    words: &mut [u64; WORDS],
    defaults: &mut [u8; PAGE],
) -> Played {
    if script_lines::is_skipped(line) {
        return silent(p, true);
    }
    if is_setup(name) {
        return silent(p, setup_line(name, line, s, setup, defaults));
    }
    if same_bytes(name, b"access") {
        return given(p, access_line(line, s, p.given));
    }
    start_line(s, p, setup, words, defaults)
}

fn server_turn<'a>(
    name: &[u8],
    line: &[u8],
    s: Scan,
    p: Player,
    words: &'a [u64; WORDS],
    defaults: &'a [u8; PAGE],
    edits: &mut [u8; PAGE],
    out: &mut [u8; MAX_MESSAGE],
) -> Played {
    let r = server_line(
        name, line, s, p.server, p.table, p.sent, words, defaults, edits, out, p.room,
    );
    replied(p, r, out)
}

// A line for the cache, or one about the run itself.
fn cache_turn(
    name: &[u8],
    line: &[u8],
    s: Scan,
    p: Player,
    page: &mut [u8; PAGE_SIZE],
    out: &mut [u8; MAX_MESSAGE],
) -> Played {
    if is_cache(name) {
        let a = cache_line(name, line, s, p.cache, p.replied, page, out, p.room);
        return acted(p, a, out);
    }
    if same_bytes(name, b"buffer") {
        return buffer_line(line, s, p);
    }
    if same_bytes(name, b"used") {
        return used_line(line, s, p);
    }
    let said = ask_line(name, line, s, p.cache, page, out);
    asked(p, said)
}

// Every line that wants a server.
fn end_line<'a>(
    name: &[u8],
    line: &[u8],
    s: Scan,
    p: Player,
    words: &'a [u64; WORDS],
    defaults: &'a [u8; PAGE],
    edits: &mut [u8; PAGE],
    page: &mut [u8; PAGE_SIZE],
    out: &mut [u8; MAX_MESSAGE],
) -> Played {
    if !p.live {
        return wrong(p, Fault::NoServer);
    }
    if is_server(name) {
        return server_turn(name, line, s, p, words, defaults, edits, out);
    }
    cache_turn(name, line, s, p, page, out)
}

pub fn play_line(
    line: &[u8],
    p: Player,
    setup: &mut [u64; SETUP],
    words: &mut [u64; WORDS],
    defaults: &mut [u8; PAGE],
    edits: &mut [u8; PAGE],
    page: &mut [u8; PAGE_SIZE],
    out: &mut [u8; MAX_MESSAGE],
) -> Played {
    let w = script_lines::next_word(line, script_lines::begin());
    let from = w.start;
    let to = w.end;
    let name = &line[from..to];
    if wants_none(name, line) {
        return setting_up(name, line, w.next, p, setup, words, defaults);
    }
    end_line(name, line, w.next, p, words, defaults, edits, page, out)
}
