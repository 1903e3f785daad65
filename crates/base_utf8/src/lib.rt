// Whether bytes are well-formed UTF-8.

#![tactic(auto)]

ghost use Rattle.std.specs.Prelude.{◌≡◌, true, cond, ◌&&◌, ◌-◌, ◌≤◌, ◌<◌, leb, length, get_or};
ghost use Rattle.base_utf8.specs.WellFormed.{well_formed};
ghost use Rattle.base_utf8.specs.Bytewise.{Greatest, all_below, back, due, allowed, allowed3, allowed2};
ghost use Rattle.base_utf8.specs.Boundary.{boundary, cut_well};

// The greatest byte. No way out of the loop, so that it becomes a vector maximum.
fn greatest(s: &[u8]) -> u8
    ensures { Greatest result s.now }
{
    let mut m: u8 = 0;
    for &b in s {
        m = m.max(b);
    }
    m
}

// By how much x lies past k.
fn over(x: u8, k: u8) -> u8
    ensures { result ≡ x - k }
{
    x.saturating_sub(k)
}

// n if d is a byte from 80 to h, else 0.
fn low(d: u8, h: u8, n: u8) -> u8
    ensures { result ≡ cond (leb 0x80 d && leb d h) n 0 }
{
    if (0x80 <= d) & (d <= h) { n } else { 0 }
}

// Whether d may come after c, in a text of sequences of one and two bytes. Every test is made, whatever the others say: no branch, so that the loop over
// it becomes vector code. The same holds of the two functions for longer sequences.
fn is_allowed_two(c: u8, d: u8) -> bool
    ensures { result ≡ allowed2 c d }
{
    let due = 0xC0 <= c;
    let trails = (0x80 <= d) & (d <= 0xBF);
    ((due | !trails) & (!due | trails)) & ((c < 0xC0) | (0xC2 <= c))
}

// The same after b and c, where sequences have at most three bytes. After E0 no byte from 80 to 9F may come, after ED no other: one comparison tells, of
// how far c lies past DF with 13, how far ED lies past E0, for such a byte. It takes half the vector code that the four comparisons take.
fn is_allowed_three(b: u8, c: u8, d: u8) -> bool
    ensures { result ≡ allowed3 b c d }
{
    let due = (0xC0 <= c) | (0xE0 <= b);
    let trails = (0x80 <= d) & (d <= 0xBF);
    let begins = (c < 0xC0) | (0xC2 <= c);
    let three = over(c, 0xDF) + low(d, 0x9F, 13) != 14;
    ((due | !trails) & (!due | trails)) & (begins & three)
}

// Whether a trailing byte must come next, after these three.
fn is_due(a: u8, b: u8, c: u8) -> bool
    ensures { result ≡ due a b c }
{
    (0xC0 <= c) | ((0xE0 <= b) | (0xF0 <= a))
}

// Whether d may come next, after these three: any sequence. After F0 no byte from 80 to 8F may come, after F4 no other.
fn is_allowed(a: u8, b: u8, c: u8, d: u8) -> bool
    ensures { result ≡ allowed a b c d }
{
    let due = is_due(a, b, c);
    let trails = (0x80 <= d) & (d <= 0xBF);
    let begins = ((c < 0xC0) | (0xC2 <= c)) & (c < 0xF5);
    let past = over(c, 0xDF);
    let three = past + low(d, 0x9F, 13) != 14;
    let four = past + low(d, 0x8F, 4) != 21;
    ((due | !trails) & (!due | trails)) & (begins & (three & four))
}

// Whether bytes are well-formed, the last three carried along: for a few bytes.
fn few(s: &[u8]) -> bool
    ensures { result ≡ well_formed s.now }
{
    let mut a: u8 = 0;
    let mut b: u8 = 0;
    let mut c: u8 = 0;
    let mut good = true;
    for &d in s {
        good = good & is_allowed(a, b, c, d);
        a = b;
        b = c;
        c = d;
    }
    good & !is_due(a, b, c)
}

// Whether bytes of which none begins a sequence of three bytes or four are well-formed. The byte before each is read again and not carried along: one load
// of vector code in place of three steps. The same holds of the two functions for longer sequences.
fn up_to_two(s: &[u8]) -> bool
    requires { (1 ≤ length s.now) × (all_below 0xE0 s.now ≡ true) }
    ensures { result ≡ well_formed s.now }
{
    let mut good = is_allowed_two(0, s[0]);
    for i in 1..s.len() {
        good = good & is_allowed_two(s[i - 1], s[i]);
    }
    good & (s[s.len() - 1] < 0xC0)
}

// Whether byte i may come where it stands, where sequences have at most three bytes.
fn is_allowed_three_at(s: &[u8], i: usize) -> bool
    requires { (2 ≤ i) × (i < length s.now) }
    ensures { result ≡ allowed3 (back s.now i 2) (back s.now i 1) (get_or s.now i 0) }
{
    is_allowed_three(s[i - 2], s[i - 1], s[i])
}

// Whether bytes of which none begins a sequence of four are well-formed.
fn up_to_three(s: &[u8]) -> bool
    requires { (2 ≤ length s.now) × (all_below 0xF0 s.now ≡ true) }
    ensures { result ≡ well_formed s.now }
{
    let b = s[0];
    let mut good = is_allowed_three(0, 0, b) & is_allowed_three(0, b, s[1]);
    for i in 2..s.len() {
        good = good & is_allowed_three_at(s, i);
    }
    let end = s.len();
    good & ((s[end - 1] < 0xC0) & (s[end - 2] < 0xE0))
}

// Whether a trailing byte must come at i.
fn is_due_at(s: &[u8], i: usize) -> bool
    requires { (3 ≤ i) × (i ≤ length s.now) }
    ensures { result ≡ due (back s.now i 3) (back s.now i 2) (back s.now i 1) }
{
    is_due(s[i - 3], s[i - 2], s[i - 1])
}

// Whether byte i may come where it stands.
fn is_allowed_at(s: &[u8], i: usize) -> bool
    requires { (3 ≤ i) × (i < length s.now) }
    ensures { result ≡ allowed (back s.now i 3) (back s.now i 2) (back s.now i 1) (get_or s.now i 0) }
{
    is_allowed(s[i - 3], s[i - 2], s[i - 1], s[i])
}

fn up_to_four(s: &[u8]) -> bool
    requires { 3 ≤ length s.now }
    ensures { result ≡ well_formed s.now }
{
    let a = s[0];
    let b = s[1];
    let mut good = (is_allowed(0, 0, 0, a) & is_allowed(0, 0, a, b)) & is_allowed(0, a, b, s[2]);
    for i in 3..s.len() {
        good = good & is_allowed_at(s, i);
    }
    good & !is_due_at(s, s.len())
}

// Whether every byte is below 128: bytes like that are well-formed, and so is each part of them. It is for whole pages: the quarters are read side by side,
// which is faster than one after the other where they come from further away than the nearest cache.
pub fn ascii(s: &[u8]) -> bool
    ensures { result ≡ all_below 0x80 s.now }
{
    let side = s.len() / 4;
    let mut bits: u8 = 0;
    for i in 0..side {
        bits = bits | s[i] | s[side + i] | s[2 * side + i] | s[3 * side + i];
    }
    // The last bytes, where the quarters leave some.
    (bits < 0x80) & (greatest(&s[4 * side..]) < 0x80)
}

// Whether the bytes are well-formed UTF-8: at once where all are below 128, else each byte by those before it, as many as the longest sequence there can
// be asks for.
pub fn valid(s: &[u8]) -> bool
    ensures { result ≡ well_formed s.now }
{
    let m = greatest(s);
    if m < 0x80 {
        return true;
    }
    if s.len() < 3 {
        return few(s);
    }
    if m < 0xE0 {
        return up_to_two(s);
    }
    if m < 0xF0 {
        return up_to_three(s);
    }
    up_to_four(s)
}

// Whether a sequence may begin at this place of a page: the byte there is no trailing one.
fn is_boundary(page: &[u8], at: usize) -> bool
    requires { at < length page.now }
    ensures { result ≡ boundary page.now at }
{
    let d = page[at];
    !((0x80 <= d) & (d <= 0xBF))
}

// Whether a part of a page is cut at boundaries: then it is well-formed where the page is. The part may reach past the end of the page, which ends it. An
// empty part, which may lie anywhere, is looked for last.
pub fn is_cut_well(page: &[u8], start: usize, len: usize) -> bool
    ensures { result ≡ cut_well page.now start len }
{
    if page.len() <= start {
        return true;
    }
    if page.len() - start <= len {
        return is_boundary(page, start);
    }
    if !is_boundary(page, start) {
        return len == 0;
    }
    if !is_boundary(page, start + len) {
        return len == 0;
    }
    true
}
