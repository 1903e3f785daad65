// The published TLV examples, read and written again. Standard input has an example to a line: its octets in hex, ` | `, what
// they are; lines that start with # and empty ones are skipped. Each example gives one line: what the reader makes of the
// octets, ` | `, and the octets that the writer writes for that, or - where we write none. Of the input the first 4,096 bytes
// are looked at; a line of more than 256 bytes gives `too long`, and octets that are no element `malformed`.

#![tactic(auto)]

ghost use Rattle.std.specs.Prelude.{◌≡◌, ◌≤◌, length};
ghost use Rattle.std.specs.Io.{ReadsAtMost};
ghost use Rattle.base_bounds.specs.Bounds.{depth_limit};
ghost use Rattle.tlv_reader.specs.Walk.{element_at, ends_at};

use std::io;
use std::io::Read;
use tlv_reader::Cursor;

mod hex; // hex.rt: octets in hex digits
mod rewrite; // rewrite.rt: an element written again
mod show; // show.rt: an element in words

const MAX_LINE: usize = 256;

const MAX_INPUT: usize = 4_096;

fn main(rt: HostRuntime) -> io::Result<()> {
    let mut input = [0u8; MAX_INPUT];
    let mut stdin = rt.stdin();
    let n = fill(&mut stdin, &mut input)?;
    examples(&rt, &input[..n])
}

// Reads until the buffer is full or the input ends; answers how many bytes came.
fn fill(input: &mut impl Read, buf: &mut [u8]) -> io::Result<usize>
    ensures { ReadsAtMost result buf.new }
{
    let mut done = 0;
    while done < buf.len() {
        let n = input.read(&mut buf[done..])?;
        if n == 0 {
            break;
        }
        done += n;
    }
    Ok(done)
}

fn examples(rt: &impl Print, s: &[u8]) -> io::Result<()> {
    for line in s.split(|c| *c == b'\n') {
        example(rt, line)?;
    }
    Ok(())
}

fn example(rt: &impl Print, line: &[u8]) -> io::Result<()> {
    if line.len() == 0 {
        return Ok(());
    }
    if line[0] == b'#' {
        return Ok(());
    }
    if MAX_LINE < line.len() {
        return rt.print("too long\n");
    }
    let mut octets = [0u8; MAX_LINE];
    let n = hex::octets(line, &mut octets);
    answer(rt, &octets[..n])
}

fn answer(rt: &impl Print, s: &[u8]) -> io::Result<()> {
    if !is_element(s) {
        return rt.print("malformed\n");
    }
    show::elements(rt, s)?;
    rt.print(" | ")?;
    written(rt, s)?;
    rt.print("\n")
}

// Whether the octets are one element of depth at most 10 that ends where they end.
fn is_element(s: &[u8]) -> bool
    ensures { result ≡ ends_at (length s.now) (element_at depth_limit s.now 0) }
{
    let start = Cursor { at: 0 };
    let Some(n) = start.walk(s, base_bounds::MAX_DEPTH) else {
        return false;
    };
    n.at == s.len()
}

fn written(rt: &impl Print, s: &[u8]) -> io::Result<()> {
    let mut b = [0u8; 256];
    let Some(n) = rewrite::elements(s, &mut b) else {
        return rt.print("-");
    };
    hex::write_octets(rt, &b[..n])
}
