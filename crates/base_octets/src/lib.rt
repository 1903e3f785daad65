// Little-endian numbers in bytes, and bytes stored in a lent buffer. Every writer stores from `at` on and answers the
// place after what it stored; the rest of the buffer stays as it was.

#![tactic(auto)]

ghost use Rattle.std.specs.Prelude.{◌≡◌, List, [], ◌∷◌, ℕ, ◌+◌, ◌≤◌, ◌<◌, length};
ghost use Rattle.base_octets.specs.Number.{number_at, bytes_of};
ghost use Rattle.base_octets.specs.Store.{store, Stored};

// The number in two bytes.
fn pair(s: &[u8], at: usize) -> u64
    requires { at + 2 ≤ length s.now }
    ensures value { result ≡ number_at 2 s.now at }
    ensures small { result < 65536 }
{
    u64::from(s[at]) + 256 * u64::from(s[at + 1])
}

// In four.
fn quad(s: &[u8], at: usize) -> u64
    requires { at + 4 ≤ length s.now }
    ensures value { result ≡ number_at 4 s.now at }
    ensures small { result < 4294967296 }
{
    pair(s, at) + 65536 * pair(s, at + 2)
}

// In at most four. By one load where there are one, two or four, as nearly always.
fn short(s: &[u8], at: usize, w: usize) -> u64
    requires { (w ≤ 4) × (at + w ≤ length s.now) }
    ensures value { result ≡ number_at w s.now at }
    ensures small { result < 4294967296 }
{
    if w == 1 {
        return u64::from(s[at]);
    }
    if w == 0 {
        return 0;
    }
    if w == 2 {
        return pair(s, at);
    }
    if w == 3 {
        return pair(s, at) + 65536 * u64::from(s[at + 2]);
    }
    quad(s, at)
}

// The number in the w bytes from at on.
pub fn number(s: &[u8], at: usize, w: usize) -> u64
    requires { (w ≤ 8) × (at + w ≤ length s.now) }
    ensures { result ≡ number_at w s.now at }
{
    if w <= 4 {
        return short(s, at, w);
    }
    quad(s, at) + 4294967296 * short(s, at + 4, w - 4)
}

// The two low bytes of v.
fn put_pair(b: &mut [u8], at: usize, v: u64) -> usize
    requires { at + 2 ≤ length b.old }
    ensures { Stored b.old at (bytes_of 2 v) b.new result }
{
    put2(b, at, (v % 256) as u8, (v / 256 % 256) as u8)
}

// The w low bytes of v, one by one.
fn put_long(b: &mut [u8], at: usize, w: usize, v: u64) -> usize
    requires { at + w ≤ length b.old }
    ensures { Stored b.old at (bytes_of w v) b.new result }
{
    let mut x = v;
    for i in 0..w {
        b[at + i] = (x % 256) as u8;
        x /= 256;
    }
    at + w
}

// The same. Most have one, two or four bytes: without a loop they are one store.
pub fn put_number(b: &mut [u8], at: usize, w: usize, v: u64) -> usize
    requires { at + w ≤ length b.old }
    ensures { Stored b.old at (bytes_of w v) b.new result }
{
    if w == 1 {
        return put1(b, at, (v % 256) as u8);
    }
    if w == 2 {
        return put_pair(b, at, v);
    }
    if w == 4 {
        let p = put_pair(b, at, v);
        return put_pair(b, p, v / 256 / 256);
    }
    put_long(b, at, w, v)
}

// The bytes of src.
pub fn put_bytes(b: &mut [u8], at: usize, src: &[u8]) -> usize
    requires { at + length src.now ≤ length b.old }
    ensures { Stored b.old at src.now b.new result }
{
    // Not `copy_from_slice`: a library for C would then ask its board for one function more, `memmove`.
    for i in 0..src.len() {
        b[at + i] = src[i];
    }
    at + src.len()
}

pub fn put1(b: &mut [u8], at: usize, x: u8) -> usize
    requires { at + 1 ≤ length b.old }
    ensures { Stored b.old at (x ∷ []) b.new result }
{
    b[at] = x;
    at + 1
}

pub fn put2(b: &mut [u8], at: usize, x: u8, y: u8) -> usize
    requires { at + 2 ≤ length b.old }
    ensures { Stored b.old at (x ∷ y ∷ []) b.new result }
{
    b[at] = x;
    b[at + 1] = y;
    at + 2
}
