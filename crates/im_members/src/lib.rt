// The listed members of a container: one loop for all schemas, which says where each stands and stops where another reader is to read.

#![tactic(auto)]

ghost use Rattle.std.specs.Prelude.{◌≡◌, false, replicate};
ghost use Rattle.im_members.specs.Fields.{slot_of};
ghost use Rattle.im_members.specs.Pass.{no_pass, pass_with, pass_from, pass_of, code_of, number_by, flag_by, wide_by};
ghost use Rattle.im_members.specs.Item.{item_at};

use tlv_reader::{Cursor, Element};

// Codes of a field that is no number below 2^32.
pub const ABSENT: u64 = 4294967296;

pub const NULL: u64 = 4294967297;

pub const WRONG: u64 = 4294967298;

// The slot of a listed tag, or 10.
fn slot(listed: &[bool; 10], form: u8, tag: u64) -> usize
    ensures { result ≡ slot_of listed.now form tag }
{
    if form != 1 {
        return 10;
    }
    if tag < 9 {
        let i = tag as usize;
        if listed[i] {
            return i;
        }
        return 10;
    }
    if tag == 255 {
        if listed[9] {
            return 9;
        }
    }
    10
}

// Where a pass over the members of a container stopped: the slot of the member, or 10 at the container's end; and the head that it read
// last. What it has seen is lent: where each listed member stands, plus one, or 0, and each one's scalar as a code. Context tags 0 to 8
// have slots of their own, and 255 has the last.
#[derive(Clone, Copy)]
pub struct Stop {
    pub slot: usize,
    pub head: Element,
}

// No pass: what is read is malformed, and nothing is seen.
pub fn refused(at: &mut [usize; 10], codes: &mut [u64; 10]) -> Option<Stop>
    ensures { pass_with result at.new codes.new ≡ no_pass }
{
    *at = [0usize; 10];
    *codes = [0u64; 10];
    None
}

// A pass that stops only at the container's end, at the member of slot 0, or at that of slot 1.
pub const NO_STOP: [bool; 10] = [false; 10];

pub const FIRST: [bool; 10] = [
    true, false, false, false, false, false, false, false, false, false,
];

pub const SECOND: [bool; 10] = [
    false, true, false, false, false, false, false, false, false, false,
];

// The code of a scalar.
fn code_of(kind: u8, n: u64) -> u64
    ensures { result ≡ code_of kind n }
{
    if kind == 20 {
        return 1;
    }
    if kind < 4 {
        return 2;
    }
    if 7 < kind {
        if kind == 8 {
            return 4;
        }
        if kind == 9 {
            return 5;
        }
        return 2;
    }
    if 4294967295 < n {
        return 3;
    }
    n + 6
}

// The members of a container of a type from a cursor on, after those seen: to its end, or to a member where it is to stop.
pub fn resume(
    s: &[u8],
    c: Cursor,
    left: usize,
    kind: u8,
    listed: &[bool; 10],
    stops: &[bool; 10],
    at: &mut [usize; 10],
    codes: &mut [u64; 10],
) -> Option<Stop>
    ensures { pass_with result at.new codes.new ≡ pass_from left s.now kind listed.now stops.now at.old codes.old c.at }
{
    let mut p = c.at;
    loop {
        let here = Cursor { at: p };
        let Some(e) = here.head(s) else {
            return refused(at, codes);
        };
        if e.kind == tlv_reader::END {
            return Some(Stop { slot: 10, head: e });
        }
        if !tlv_reader::allowed(kind, e.form) {
            return refused(at, codes);
        }
        let i = slot(listed, e.form, e.tag);
        if 10 <= i {
            let Some(n) = tlv_reader::walk_element(s, e, left) else {
                return refused(at, codes);
            };
            p = n.at;
        } else {
            if at[i] != 0 {
                return refused(at, codes);
            }
            at[i] = p + 1;
            codes[i] = code_of(e.kind, e.number);
            if stops[i] {
                return Some(Stop { slot: i, head: e });
            }
            let Some(n) = tlv_reader::walk_element(s, e, left) else {
                return refused(at, codes);
            };
            p = n.at;
        }
    }
}

// The same with no stop, to the container's end.
pub fn finish(
    s: &[u8],
    c: Cursor,
    left: usize,
    kind: u8,
    listed: &[bool; 10],
    at: &mut [usize; 10],
    codes: &mut [u64; 10],
) -> Option<Stop>
    ensures { pass_with result at.new codes.new ≡ pass_from left s.now kind listed.now (replicate 10 false) at.old codes.old c.at }
{
    let never = NO_STOP;
    resume(s, c, left, kind, listed, &never, at, codes)
}

// A pass from the first member of the container whose head was read, whatever was seen before.
pub fn begin(
    s: &[u8],
    e: Element,
    left: usize,
    kind: u8,
    listed: &[bool; 10],
    stops: &[bool; 10],
    at: &mut [usize; 10],
    codes: &mut [u64; 10],
) -> Option<Stop>
    ensures { pass_with result at.new codes.new ≡ pass_of kind left s.now listed.now stops.now e }
{
    let none = refused(at, codes);
    if e.kind != kind {
        return none;
    }
    if left == 0 {
        return none;
    }
    let next = e.next;
    resume(s, next, left - 1, kind, listed, stops, at, codes)
}

// The unsigned number, at most so large, that a code stands for, or null where that is allowed.
pub fn number_by(c: u64, most: u64, nullable: bool) -> u64
    ensures { result ≡ number_by most nullable c }
{
    if 5 < c {
        if most < c - 6 {
            return WRONG;
        }
        return c - 6;
    }
    if c == 0 {
        return ABSENT;
    }
    if c == 1 {
        if nullable {
            return NULL;
        }
        return WRONG;
    }
    WRONG
}

// The boolean that a code stands for: 0 or 1.
pub fn flag_by(c: u64) -> u64
    ensures { result ≡ flag_by c }
{
    if c == 0 {
        return ABSENT;
    }
    if c == 4 {
        return 0;
    }
    if c == 5 {
        return 1;
    }
    WRONG
}

// Whether a code stands for an unsigned number of any size: 0 if it does.
pub fn wide_by(c: u64) -> u64
    ensures { result ≡ wide_by c }
{
    if c == 0 {
        return ABSENT;
    }
    if c == 3 {
        return 0;
    }
    if 5 < c {
        return 0;
    }
    WRONG
}

// What stands at a cursor in a container.
#[derive(Clone, Copy)]
pub enum MemberAt {
    Member(Element),
    Ended(Cursor),
    BadItem,
}

pub fn item_at(s: &[u8], c: Cursor, kind: u8) -> MemberAt
    ensures { result ≡ item_at kind s.now c.at }
{
    let Some(e) = c.head(s) else {
        return MemberAt::BadItem;
    };
    if e.kind == tlv_reader::END {
        let next = e.next;
        return MemberAt::Ended(next);
    }
    if !tlv_reader::allowed(kind, e.form) {
        return MemberAt::BadItem;
    }
    MemberAt::Member(e)
}
