// An element that was read, written again.
ghost use Rattle.std.specs.Prelude.{◌≤◌, length};
ghost use Rattle.tlv_reader.specs.Octet.{structure};
ghost use Rattle.tlv_reader.specs.Value.{value_of};
ghost use Rattle.tlv_writer.specs.Element.{InPage};
ghost use Rattle.tlv_vectors.specs.Put.{Within};

use tlv_reader::{Cursor, Element, Value};
use tlv_writer::{Tag, lengths};

// The elements that stand one after the other, from the first octet on.
pub fn elements(s: &[u8], b: &mut [u8]) -> Option<usize>
    ensures { Within (length b.new) result }
{
    let mut at = 0;
    let mut p = 0;
    while at < s.len() {
        let here = Cursor { at };
        let e = here.head(s)?;
        let n = element(s, e, b, p)?;
        p = n;
        let next = e.next;
        at = next.at;
    }
    Some(p)
}

// An element, of a container its opening.
fn element(s: &[u8], e: Element, b: &mut [u8], at: usize) -> Option<usize>
    requires { (InPage s.now (value_of e)) × (at ≤ length b.old) }
    ensures { Within (length b.new) result }
{
    if 1 < e.form {
        return None;
    }
    let tag = tag_of(e.form, e.tag);
    let kind = e.kind;
    if kind < tlv_reader::STRUCTURE {
        return value(b, at, tag, e.value(), s);
    }
    bracket(b, at, tag, kind)
}

// The tag of one of the two forms that we write.
fn tag_of(form: u8, n: u64) -> Tag {
    if form == 0 {
        Tag::Anonymous
    } else {
        Tag::Context((n % 256) as u8)
    }
}

// A value; one that is Other has no octets.
fn value(b: &mut [u8], at: usize, tag: Tag, v: Value, s: &[u8]) -> Option<usize>
    requires { (InPage s.now v) × (at ≤ length b.old) }
    ensures { Within (length b.new) result }
{
    let n = lengths::value_len(tag, v, s);
    if n == 0 {
        return None;
    }
    if b.len() - at < n {
        return None;
    }
    Some(tlv_writer::put_value(b, at, tag, v, s))
}

// The opening of a container, or its end.
fn bracket(b: &mut [u8], at: usize, tag: Tag, kind: u8) -> Option<usize>
    requires { (structure ≤ kind) × (at ≤ length b.old) }
    ensures { Within (length b.new) result }
{
    if b.len() - at < lengths::head_len(tag) {
        return None;
    }
    if tlv_reader::LIST < kind {
        return Some(tlv_writer::put_end(b, at));
    }
    Some(tlv_writer::put_open(b, at, tag, kind))
}
