// Octets in hex digits, capital letters.
ghost use Rattle.std.specs.Prelude.{◌≡◌, ◌≤◌, ◌<◌, length, IfSome};
ghost use Rattle.tlv_vectors.specs.Hex.{IsPrefixLen, hex_digit, hex_value};

use std::io;

// The digit of a number below 16.
fn digit(n: u8) -> u8
    requires { n < 16 }
    ensures { result ≡ hex_digit n }
{
    if n < 10 { b'0' + n } else { b'A' + (n - 10) }
}

// The number of a digit, or none for a byte that is no digit.
fn value(c: u8) -> Option<u8>
    ensures value { result ≡ hex_value c }
    ensures small { IfSome result (λ n. n < 16) }
{
    match c {
        b'0'..=b'9' => Some(c - b'0'),
        b'A'..=b'F' => Some(c - b'A' + 10),
        _ => None,
    }
}

// The octet that two digits at the start say.
fn octet(digits: &[u8]) -> Option<u8> {
    let [high, low, ..] = digits else {
        return None;
    };
    Some(value(*high)? * 16 + value(*low)?)
}

// The octets at the start of a line, two digits and a space each, up to where no two digits stand; answers how many.
pub fn octets(line: &[u8], out: &mut [u8]) -> usize
    requires { length line.now ≤ length out.old }
    ensures { IsPrefixLen result out.new }
{
    let mut n = 0;
    for digits in line.chunks(3) {
        let Some(x) = octet(digits) else {
            return n;
        };
        out[n] = x;
        n += 1;
    }
    n
}

pub fn write_octet(rt: &impl Print, x: u8) -> io::Result<()> {
    rt.write_all(&[digit(x / 16), digit(x % 16)])
}

// The low 16 bits of a number.
pub fn write_low16(rt: &impl Print, n: u64) -> io::Result<()> {
    write_octet(rt, (n / 256 % 256) as u8)?;
    write_octet(rt, (n % 256) as u8)
}

// Octets with single spaces between them.
pub fn write_octets(rt: &impl Print, b: &[u8]) -> io::Result<()> {
    for (i, x) in b.iter().enumerate() {
        if 0 < i {
            rt.print(" ")?;
        }
        write_octet(rt, *x)?;
    }
    Ok(())
}
