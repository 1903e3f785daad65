// The lines of a script: words separated by single spaces, numbers, bytes and values. No input and no output.

#![tactic(auto)]

ghost use Rattle.std.specs.Prelude.{◌≡◌, length};
ghost use Rattle.script_lines.specs.Words.{at_first, failed_at, is_done, is_skipped, no_word, next_word, WordWithin};

pub mod find; // find.rt: where a byte stands first
pub mod hex; // hex.rt: bytes of two hex digits each
pub mod number; // number.rt: decimal and hexadecimal numbers
pub mod path; // path.rt: endpoint, cluster and attribute
pub mod sizes; // sizes.rt: numbers held to what there is
pub mod value; // value.rt: a value of one of the kinds, or null

// How far a line has been read. What can't be read makes every later step fail, so that one test at the end of a line is enough.
#[derive(Clone, Copy)]
pub struct Scan {
    // Where the next word starts, if there is one.
    pub at: usize,
    pub more: bool,
    // Whether everything so far could be read.
    pub ok: bool,
}

// Where a word stands, and what comes after it.
#[derive(Clone, Copy)]
pub struct Word {
    pub start: usize,
    pub end: usize,
    pub next: Scan,
}

// At the first word of a line.
pub fn begin() -> Scan
    ensures { result ≡ at_first }
{
    Scan {
        at: 0,
        more: true,
        ok: true,
    }
}

// The same place, and something before it could not be read.
pub fn failed(s: Scan) -> Scan
    ensures { result ≡ failed_at s }
{
    Scan {
        at: s.at,
        more: s.more,
        ok: false,
    }
}

// Whether the whole line was read and nothing is left.
pub fn is_done(s: Scan) -> bool
    ensures { result ≡ is_done s }
{
    if s.more { false } else { s.ok }
}

// A line to skip: an empty one, or one that starts with #.
pub fn is_skipped(line: &[u8]) -> bool
    ensures { result ≡ is_skipped line.now }
{
    if line.len() == 0 {
        return true;
    }
    line[0] == b'#'
}

// The next word; an empty one where none is left, which could not be read. Two spaces side by side have an empty word between them.
pub fn next_word(line: &[u8], s: Scan) -> Word
    ensures value { result ≡ next_word line.now s }
    ensures word_within { WordWithin result (length line.now) }
{
    let at = s.at;
    if !s.more {
        return missing(at);
    }
    if line.len() < at {
        return missing(at);
    }
    let end = find::find(line, at, line.len(), b' ');
    if end < line.len() {
        return Word {
            start: at,
            end,
            next: Scan {
                at: end + 1,
                more: true,
                ok: s.ok,
            },
        };
    }
    Word {
        start: at,
        end,
        next: Scan {
            at: end,
            more: false,
            ok: s.ok,
        },
    }
}

fn missing(at: usize) -> Word
    ensures { result ≡ no_word at }
{
    Word {
        start: 0,
        end: 0,
        next: Scan {
            at,
            more: false,
            ok: false,
        },
    }
}
