// Standard input, read in pieces behind what is left of the last one, and taken line by line.
use super::print::wrong;
use script_answer::Fault;
use script_lines::sizes::clip;
use std::io;
use std::io::Read;

// A line has fewer bytes than this, its end counted.
pub const INPUT: usize = 65_536;

// How far the script has been read.
#[derive(Clone, Copy)]
pub struct Reader {
    // The bytes from `at` to n of the buffer are to be played; whether no more will come.
    pub at: usize,
    pub n: usize,
    pub last: bool,
    // The line in hand, and how many lines that makes.
    pub from: usize,
    pub to: usize,
    pub number: u64,
    // Whether the run is at its end.
    pub over: bool,
}

// No line in hand: all that is to be played stands at the start of the buffer.
fn no_line(n: usize, last: bool, number: u64, over: bool) -> Reader {
    Reader {
        at: 0,
        n,
        last,
        from: 0,
        to: 0,
        number,
        over,
    }
}

pub fn begin() -> Reader {
    no_line(0, false, 0, false)
}

// Where the line that starts here ends; n where no end has come yet.
fn end_of(input: &[u8], at: usize, n: usize) -> usize {
    let k = clip(n, input);
    if k <= at {
        return n;
    }
    let end = script_lines::find::find(input, at, k, b'\n');
    if end < k { end } else { n }
}

// The bytes from `at` to n go to the start; answers how many they are.
fn shift(input: &mut [u8], at: usize, n: usize) -> usize {
    let end = clip(n, input);
    let start = at.min(end);
    input.copy_within(start..end, 0);
    end - start
}

// One read behind the kept bytes; answers how many came.
fn more(stdin: &mut impl Read, input: &mut [u8], kept: usize) -> io::Result<usize> {
    let at = clip(kept, input);
    stdin.read(&mut input[at..])
}

// More of the script. Where nothing comes, a line end is put behind what is left, so that the last line of a script may have none.
fn refill(
    rt: &impl Eprint,
    stdin: &mut impl Read,
    input: &mut [u8; INPUT],
    r: Reader,
) -> io::Result<Reader> {
    let kept = shift(input, r.at, r.n);
    if INPUT <= kept {
        wrong(rt, std::num::wrapping_add_u64(r.number, 1), Fault::Overlong)?;
        return Ok(no_line(kept, true, r.number, true));
    }
    let came = more(stdin, input, kept)?.min(INPUT - kept);
    if came == 0 {
        input[kept] = b'\n';
        return Ok(no_line(kept + 1, true, r.number, false));
    }
    Ok(no_line(kept + came, false, r.number, false))
}

// The next line; an empty one, not counted, where more has to come before it is known.
pub fn next_line(
    rt: &impl Eprint,
    stdin: &mut impl Read,
    input: &mut [u8; INPUT],
    r: Reader,
) -> io::Result<Reader> {
    let end = end_of(input, r.at, r.n);
    if end < r.n {
        return Ok(Reader {
            at: end + 1,
            n: r.n,
            last: r.last,
            from: r.at,
            to: end,
            number: std::num::wrapping_add_u64(r.number, 1),
            over: false,
        });
    }
    if r.last {
        return Ok(no_line(0, true, r.number, true));
    }
    refill(rt, stdin, input, r)
}

// The line in hand.
pub fn line_of(input: &[u8; INPUT], from: usize, to: usize) -> &[u8] {
    let all: &[u8] = input;
    let end = clip(to, all);
    let start = from.min(end);
    &all[start..end]
}
