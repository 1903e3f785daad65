// Bytes of a script: two hex digits each, to the end of the line.
ghost use Rattle.std.specs.Prelude.{◌≡◌, ◌+◌, ◌≤◌, min, length, set};
ghost use Rattle.script_lines.specs.Words.{Filled};
ghost use Rattle.script_lines.specs.Bytes.{byte_in, rest_at, rest_kept};

use super::Scan;
use super::number::hex_digit;

// A message of up to this many bytes can be written on a line, and one more is kept, to tell an overlong one.
pub const SPELLED: usize = 2_049;

// How many bytes were read, and whether the line could be read to its end.
#[derive(Clone, Copy)]
pub struct Bytes {
    pub len: usize,
    pub ok: bool,
}

// The next place of a buffer takes a byte; a full buffer stays as it is.
fn keep(out: &mut [u8], n: usize, byte: u8) -> usize
    ensures value { result ≡ min (n + 1) (length out.old) }
    ensures out_after { out.new ≡ set out.old n byte }
{
    if n < out.len() {
        out[n] = byte;
        return n + 1;
    }
    out.len()
}

// The byte that two hex digits at the start say.
fn first_byte(s: &[u8]) -> Option<u8>
    ensures { result ≡ byte_in s.now }
{
    let [high, low, ..] = s else {
        return None;
    };
    let high = hex_digit(*high)?;
    let low = hex_digit(*low)?;
    Some(high * 16 + low)
}

// The rest of the line, a byte a word. A full buffer takes no more: then len is the buffer's length, however many follow.
pub fn rest(line: &[u8], s: Scan, out: &mut [u8]) -> Bytes
    ensures value { result ≡ rest_at line.now s (length out.old) }
    ensures out_after { out.new ≡ rest_kept line.now s out.old }
    ensures filled { Filled result.len out.new }
{
    if !s.more {
        return Bytes { len: 0, ok: s.ok };
    }
    let mut n = 0;
    // The place goes on by three, and a line that ends with a space is none.
    let mut at = s.at;
    while at < line.len() {
        let Some(byte) = first_byte(&line[at..]) else {
            return Bytes { len: 0, ok: false };
        };
        n = keep(out, n, byte);
        if line.len() - at == 2 {
            return Bytes { len: n, ok: s.ok };
        }
        if line.len() - at < 3 {
            return Bytes { len: 0, ok: false };
        }
        if line[at + 2] != b' ' {
            return Bytes { len: 0, ok: false };
        }
        at += 3;
    }
    Bytes { len: 0, ok: false }
}
