// Numbers of a script: decimal ones, and the bits of a float in hex digits.
ghost use Rattle.std.specs.Prelude.{◌≡◌, ◌≤◌, ◌<◌, IfSome};
ghost use Rattle.script_lines.specs.Numbers.{decimal_of, hex_digit, hex_of, unread_at, at_most, number_at, float_at, is_byte, marked_at, flag_at, negated_of, signed_at};

use super::{Scan, failed, next_word};

// A number that was read, 0 where none could be, and what comes after it.
#[derive(Clone, Copy)]
pub struct Number {
    pub value: u64,
    pub next: Scan,
}

// A number, or none where the mark stands, which is for none or any; and what comes after it.
#[derive(Clone, Copy)]
pub struct MarkedNumber {
    pub value: Option<u64>,
    pub next: Scan,
}

// Ten times this and a digit more is past 64 bits, or nearly so.
const TENTH: u64 = u64::MAX / 10;

const HALF_RANGE: u64 = 9_223_372_036_854_775_808;

fn unread(s: Scan) -> Number
    ensures { result ≡ unread_at s }
{
    Number {
        value: 0,
        next: failed(s),
    }
}

// One or more digits, nothing else, up to 64 bits. Zeros may stand in front.
pub fn decimal(w: &[u8]) -> Option<u64>
    ensures { result ≡ decimal_of w.now }
{
    if w.len() == 0 {
        return None;
    }
    let mut n: u64 = 0;
    for c in w {
        if *c < b'0' {
            return None;
        }
        if b'9' < *c {
            return None;
        }
        let d = (*c - b'0') as u64;
        if TENTH < n {
            return None;
        }
        if u64::MAX - n * 10 < d {
            return None;
        }
        n = n * 10 + d;
    }
    Some(n)
}

// The number of a hex digit in either case, or none for a byte that is no digit.
pub fn hex_digit(c: u8) -> Option<u8>
    ensures value { result ≡ hex_digit c }
    ensures small { IfSome result (λ n. n < 16) }
{
    match c {
        b'0'..=b'9' => Some(c - b'0'),
        b'A'..=b'F' => Some(c - b'A' + 10),
        b'a'..=b'f' => Some(c - b'a' + 10),
        _ => None,
    }
}

// Eight hex digits, 32 bits.
pub fn hex8(w: &[u8]) -> Option<u64>
    ensures { result ≡ hex_of w.now }
{
    if w.len() != 8 {
        return None;
    }
    let mut n: u64 = 0;
    for c in w {
        let d = hex_digit(*c)?;
        n = n % 268_435_456 * 16 + d as u64;
    }
    Some(n)
}

// The number that was read, if it is at most the highest.
fn at_most(d: Option<u64>, highest: u64, next: Scan) -> Number
    ensures value { result ≡ at_most highest next d }
    ensures value_le_highest { result.value ≤ highest }
{
    let Some(n) = d else {
        return unread(next);
    };
    if highest < n {
        return unread(next);
    }
    Number { value: n, next }
}

// The next word as a decimal number.
pub fn read_number(line: &[u8], s: Scan, highest: u64) -> Number
    ensures value { result ≡ number_at line.now s highest }
    ensures value_le_highest { result.value ≤ highest }
{
    let w = next_word(line, s);
    let start = w.start;
    let end = w.end;
    at_most(decimal(&line[start..end]), highest, w.next)
}

// The next word as the bits of a float32.
pub fn read_float(line: &[u8], s: Scan) -> Number
    ensures value { result ≡ float_at line.now s }
    ensures value_bound { result.value < 4294967296 }
{
    let w = next_word(line, s);
    let start = w.start;
    let end = w.end;
    at_most(hex8(&line[start..end]), 4_294_967_295, w.next)
}

// Whether the word is this one byte.
fn is_byte(w: &[u8], byte: u8) -> bool
    ensures { result ≡ is_byte w.now byte }
{
    if w.len() != 1 {
        return false;
    }
    w[0] == byte
}

// The next word as a mark or as a decimal number.
pub fn read_marked(line: &[u8], s: Scan, mark: u8, highest: u64) -> MarkedNumber
    ensures value { result ≡ marked_at line.now s mark highest }
    ensures value_le_highest { IfSome result.value (λ n. n ≤ highest) }
{
    let w = next_word(line, s);
    let start = w.start;
    let end = w.end;
    if is_byte(&line[start..end], mark) {
        let next = w.next;
        return MarkedNumber { value: None, next };
    }
    let n = read_number(line, s, highest);
    let next = n.next;
    MarkedNumber {
        value: Some(n.value),
        next,
    }
}

// The next word as 0 or 1.
pub fn read_flag(line: &[u8], s: Scan) -> Number
    ensures value { result ≡ flag_at line.now s }
    ensures value_bound { result.value ≤ 1 }
{
    let w = next_word(line, s);
    let start = w.start;
    let end = w.end;
    let next = w.next;
    if is_byte(&line[start..end], b'0') {
        return Number { value: 0, next };
    }
    if is_byte(&line[start..end], b'1') {
        return Number { value: 1, next };
    }
    unread(next)
}

// A number below zero by its magnitude, in two's complement of 64 bits.
fn negated(n: Number) -> Number
    ensures value { result ≡ negated_of n }
    ensures value_bound { result.value < 18446744073709551616 }
{
    let m = n.value;
    if m == 0 {
        return n;
    }
    let next = n.next;
    Number {
        value: u64::MAX - m + 1,
        next,
    }
}

// The next word as a signed number, in two's complement of 64 bits.
pub fn read_signed(line: &[u8], s: Scan) -> Number
    ensures value { result ≡ signed_at line.now s }
    ensures value_bound { result.value < 18446744073709551616 }
{
    let w = next_word(line, s);
    let start = w.start;
    let end = w.end;
    if start < end {
        if line[start] == b'-' {
            let digits = start + 1;
            return negated(at_most(decimal(&line[digits..end]), HALF_RANGE, w.next));
        }
    }
    at_most(decimal(&line[start..end]), HALF_RANGE - 1, w.next)
}
