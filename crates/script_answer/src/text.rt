// An answer as a line of text: its number in decimal, then for each byte a space and two capital hex digits.
ghost use Rattle.std.specs.Prelude.{◌≡◌, [], ◌∷◌, ◌+◌, ◌*◌, ◌/◌, ◌%◌, ◌<◌, ◌≤◌, length};
ghost use Rattle.base_octets.specs.Store.{Stored};
ghost use Rattle.script_answer.specs.Text.{digit_of, decimal_text, hex_text, answer_text};

use base_octets::{put1, put2};
use im_envelope::MAX_MESSAGE;

// Room for a number of three digits, a space and two digits a byte, and the line's end.
pub const TEXT: usize = 3 + 3 * MAX_MESSAGE + 1;

fn digit(n: u8) -> u8
    requires { n < 16 }
    ensures { result ≡ digit_of n }
{
    if n < 10 { b'0' + n } else { b'A' + (n - 10) }
}

fn put_decimal(text: &mut [u8], n: u8) -> usize
    requires { 3 ≤ length text.old }
    ensures { Stored text.old 0 (decimal_text n) text.new result }
{
    if n < 10 {
        return put1(text, 0, digit(n));
    }
    if n < 100 {
        return put2(text, 0, digit(n / 10), digit(n % 10));
    }
    let at = put1(text, 0, digit(n / 100));
    put2(text, at, digit(n / 10 % 10), digit(n % 10))
}

fn put_byte(text: &mut [u8], at: usize, x: u8) -> usize
    requires { at + 3 ≤ length text.old }
    ensures { Stored text.old at (32 ∷ digit_of (x / 16) ∷ digit_of (x % 16) ∷ []) text.new result }
{
    let next = put1(text, at, b' ');
    put2(text, next, digit(x / 16), digit(x % 16))
}

fn put_bytes(text: &mut [u8], at: usize, bytes: &[u8]) -> usize
    requires { at + 3 * length bytes.now ≤ length text.old }
    ensures { Stored text.old at (hex_text bytes.now) text.new result }
{
    let mut next = at;
    for x in bytes {
        next = put_byte(text, next, *x);
    }
    next
}

// The whole line; answers its length.
pub fn answer_line(text: &mut [u8], number: u8, bytes: &[u8]) -> usize
    requires { 4 + 3 * length bytes.now ≤ length text.old }
    ensures { Stored text.old 0 (answer_text number bytes.now) text.new result }
{
    let at = put_decimal(text, number);
    let end = put_bytes(text, at, bytes);
    put1(text, end, b'\n')
}
