// The script player: reads a script on standard input, line by line, and prints one line an answer: its number in decimal, then for each byte a space and
// two capital hex digits. A line that can't be read, or has nothing to work on, is named on standard error and stops the run; what was answered so far
// stands. The lines of a script are listed in docs/SCRIPTS.md.

#![tactic(auto)]

use cache_entries::PAGE_SIZE;
use im_envelope::MAX_MESSAGE;
use input::INPUT;
use node_schema::WORDS;
use script_player::ends::Player;
use script_player::play_line;
use script_setup::{PAGE, SETUP};
use std::io;
use std::io::Read;

mod input; // input.rt: standard input
mod print; // print.rt: answers, and what is wrong

// The whole script. A proved loop has to end, and nothing says that the input does: so it takes a number of turns that no run uses up.
fn run(
    rt: &(impl Print + Eprint),
    stdin: &mut impl Read,
    input: &mut [u8; INPUT],
    p: Player,
    setup: &mut [u64; SETUP],
    words: &mut [u64; WORDS],
    defaults: &mut [u8; PAGE],
    edits: &mut [u8; PAGE],
    page: &mut [u8; PAGE_SIZE],
    out: &mut [u8; MAX_MESSAGE],
) -> io::Result<()> {
    let mut player = p;
    let mut reader = input::begin();
    for _ in 0..u64::MAX {
        reader = input::next_line(rt, stdin, input, reader)?;
        if reader.over {
            return Ok(());
        }
        let line = input::line_of(input, reader.from, reader.to);
        let done = play_line(line, player, setup, words, defaults, edits, page, out);
        let said = done.said;
        if !print::show(rt, said, reader.number, out)? {
            return Ok(());
        }
        let next = done.player;
        player = next;
    }
    Ok(())
}

fn main(rt: HostRuntime) -> io::Result<()> {
    let mut stdin = rt.stdin();
    let mut input = [0u8; INPUT];
    let mut setup = [0u64; SETUP];
    let mut words = [0u64; WORDS];
    let mut defaults = [0u8; PAGE];
    let mut edits = [0u8; PAGE];
    let mut page = [0u8; PAGE_SIZE];
    let mut out = [0u8; MAX_MESSAGE];
    let p = script_player::ends::fresh();
    run(
        &rt,
        &mut stdin,
        &mut input,
        p,
        &mut setup,
        &mut words,
        &mut defaults,
        &mut edits,
        &mut page,
        &mut out,
    )
}
