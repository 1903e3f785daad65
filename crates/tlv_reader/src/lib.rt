// Matter TLV, read (Matter Core Specification, Appendix A).

#![tactic(auto)]

ghost use Rattle.std.specs.Prelude.{◌≡◌, ◌+◌, ◌≤◌, ◌<◌, length};
ghost use Rattle.base_octets.specs.Number.{number_at};
ghost use Rattle.tlv_reader.specs.Octet.{tag_width, number_width, is_string};
ghost use Rattle.tlv_reader.specs.Head.{head_at, closed_at};
ghost use Rattle.tlv_reader.specs.Walk.{allowed_in, element_end, members_end, element_at, is_message, ended};
ghost use Rattle.tlv_reader.specs.Tree.{complement};
ghost use Rattle.tlv_reader.specs.Value.{signed_of, value_of, value_in};

pub const STRUCTURE: u8 = 21;

pub const ARRAY: u8 = 22;

pub const LIST: u8 = 23;

pub const END: u8 = 24;

// A place in a message.
#[derive(Clone, Copy)]
pub struct Cursor {
    pub at: usize,
}

// The head of an element: its tag form and tag, its element type, the number after the tag (a value, or the length of a
// string), where the bytes after that number start, and the place after the head and a string's bytes.
#[derive(Clone, Copy)]
pub struct Element {
    pub form: u8,
    pub kind: u8,
    pub tag: u64,
    pub number: u64,
    pub body: usize,
    pub next: Cursor,
}

// A value: a float by its bits, a text by where its bytes lie.
#[derive(Clone, Copy)]
pub enum Value {
    Null,
    Boolean(bool),
    Unsigned(u64),
    Signed(i64),
    Float(u32),
    Text { start: usize, len: usize },
    Other,
}

// How many bytes a tag of this form takes. By comparisons: a table would be written out anew at each call.
fn tag_width(form: u8) -> usize
    requires { form < 8 }
    ensures value { result ≡ tag_width form }
    ensures small { result ≤ 8 }
{
    if form < 2 {
        return form as usize;
    }
    if form == 6 {
        return 6;
    }
    if form == 7 {
        return 8;
    }
    if form % 2 == 0 { 2 } else { 4 }
}

// How many bytes the number after the tag takes: none of false, true, null and containers, else 1, 2, 4 or 8 by the two low bits.
fn number_width(kind: u8) -> usize
    requires { kind < 25 }
    ensures value { result ≡ number_width kind }
    ensures small { result ≤ 8 }
{
    if 19 < kind {
        return 0;
    }
    if kind / 2 == 4 {
        return 0;
    }
    let low = (kind % 4) as usize;
    if low == 3 { 8 } else { low + 1 + low / 2 }
}

// The tag in the w bytes from at on. Most are context tags, of one byte, or none: then there is one test, and no table of jumps.
fn tag_at(s: &[u8], at: usize, form: u8, w: usize) -> u64
    requires { (w ≡ tag_width form) × ((w ≤ 8) × (at + w ≤ length s.now)) }
    ensures { result ≡ number_at w s.now at }
{
    if form == 1 {
        return base_octets::number(s, at, 1);
    }
    if form == 0 {
        return base_octets::number(s, at, 0);
    }
    base_octets::number(s, at, w)
}

// Whether a member with this tag form may stand in a container of this type.
pub fn allowed(kind: u8, form: u8) -> bool
    ensures { result ≡ allowed_in kind form }
{
    if kind == STRUCTURE {
        return 0 < form;
    }
    if kind == ARRAY {
        return form == 0;
    }
    true
}

// An element type whose number is the length of the bytes that follow.
fn is_string(kind: u8) -> bool
    ensures { result ≡ is_string kind }
{
    if kind < 12 {
        return false;
    }
    kind < 20
}

// The element with these parts in a message of len bytes: what follows its head must fit.
fn closed(len: usize, form: u8, kind: u8, tag: u64, number: u64, body: usize) -> Option<Element>
    requires { body ≤ len }
    ensures { result ≡ closed_at len form kind tag number body }
{
    if is_string(kind) {
        if ((len - body) as u64) < number {
            return None;
        }
        let next = Cursor {
            at: body + number as usize,
        };
        return Some(Element {
            form,
            kind,
            tag,
            number,
            body,
            next,
        });
    }
    let next = Cursor { at: body };
    Some(Element {
        form,
        kind,
        tag,
        number,
        body,
        next,
    })
}

impl Cursor {
    // The head of the element that stands here.
    pub fn head(self, s: &[u8]) -> Option<Element>
        ensures { result ≡ head_at s.now self.at }
    {
        let at = self.at;
        if s.len() <= at {
            return None;
        }
        let c = s[at];
        let form = c / 32;
        let kind = c % 32;
        if END < kind {
            return None;
        }
        if kind == END {
            if 0 < form {
                return None;
            }
        }
        let tw = tag_width(form);
        let nw = number_width(kind);
        let b = at + 1;
        if s.len() - b < tw + nw {
            return None;
        }
        let tag = tag_at(s, b, form, tw);
        let number = base_octets::number(s, b + tw, nw);
        closed(s.len(), form, kind, tag, number, b + tw + nw)
    }

    // The end of the element that stands here, with so many levels of containers left.
    pub fn walk(self, s: &[u8], left: usize) -> Option<Cursor>
        ensures { result ≡ ended (element_at left s.now self.at) }
    {
        let e = self.head(s)?;
        walk_element(s, e, left)
    }
}

// The end of an element whose head was read.
#[cycle(walk_container_walk_element)]
pub fn walk_element(s: &[u8], e: Element, left: usize) -> Option<Cursor>
    ensures { result ≡ ended (element_end left s.now e) }
{
    let kind = e.kind;
    let next = e.next;
    if kind < STRUCTURE {
        return Some(next);
    }
    if LIST < kind {
        return None;
    }
    if left == 0 {
        return None;
    }
    walk_container(s, next, left - 1, kind)
}

// The end of a container of a type, from one of its members on.
#[cycle(walk_container_walk_element)]
pub fn walk_container(s: &[u8], c: Cursor, left: usize, kind: u8) -> Option<Cursor>
    ensures { result ≡ ended (members_end left s.now kind c.at) }
{
    let mut at = c.at;
    loop {
        let here = Cursor { at };
        let e = here.head(s)?;
        if e.kind == END {
            let next = e.next;
            return Some(next);
        }
        if !allowed(kind, e.form) {
            return None;
        }
        let n = walk_element(s, e, left)?;
        at = n.at;
    }
}

// Whether the bytes are a message: one untagged structure that ends where they end.
pub fn message(s: &[u8]) -> bool
    ensures { result ≡ is_message s.now }
{
    let start = Cursor { at: 0 };
    let Some(e) = start.head(s) else {
        return false;
    };
    if e.form != 0 {
        return false;
    }
    if e.kind != STRUCTURE {
        return false;
    }
    let Some(n) = walk_element(s, e, base_bounds::MAX_DEPTH) else {
        return false;
    };
    n.at == s.len()
}

// The two's complement number of a width whose largest unsigned number is top.
fn signed(v: u64, top: u64) -> i64
    requires { v ≤ top }
    ensures { result ≡ complement top v }
{
    if v <= top / 2 {
        v as i64
    } else {
        !((top - v) as i64)
    }
}

// The number of a signed element type, from its low bytes.
fn signed_number(kind: u8, n: u64) -> i64
    requires { kind < 4 }
    ensures { result ≡ signed_of kind n }
{
    if kind == 0 {
        return signed(n % 256, 255);
    }
    if kind == 1 {
        return signed(n % 65536, 65535);
    }
    if kind == 2 {
        return signed(n % 4294967296, 4294967295);
    }
    signed(n, 18446744073709551615)
}

impl Element {
    // The value of the element.
    pub fn value(self) -> Value
        ensures { result ≡ value_of self }
    {
        let n = self.number;
        let kind = self.kind;
        if kind < 4 {
            return Value::Signed(signed_number(kind, n));
        }
        if kind < 8 {
            return Value::Unsigned(n);
        }
        if kind == 8 {
            return Value::Boolean(false);
        }
        if kind == 9 {
            return Value::Boolean(true);
        }
        if kind == 10 {
            return Value::Float((n % 4294967296) as u32);
        }
        if kind < 12 {
            return Value::Other;
        }
        if kind < 16 {
            let start = self.body;
            return Value::Text {
                start,
                len: n as usize,
            };
        }
        if kind == 20 {
            return Value::Null;
        }
        Value::Other
    }
}

// The value that stands at a place; a place where no element stands has none of ours.
pub fn value_in(s: &[u8], at: usize) -> Value
    ensures { result ≡ value_in s.now at }
{
    let here = Cursor { at };
    let Some(e) = here.head(s) else {
        return Value::Other;
    };
    e.value()
}
