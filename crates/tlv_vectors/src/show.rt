// What the reader makes of an element, in words: tag, type, value; a container's members in braces.
ghost use Rattle.tlv_reader.specs.Value.{value_of};
ghost use Rattle.tlv_writer.specs.Element.{InPage};

use super::hex;
use std::io;
use tlv_reader::{Cursor, Element, Value};

// The elements that stand one after the other, from the first octet on.
pub fn elements(rt: &impl Print, s: &[u8]) -> io::Result<()> {
    let mut at = 0;
    let mut comma = false;
    while at < s.len() {
        let here = Cursor { at };
        let Some(e) = here.head(s) else {
            return Ok(());
        };
        comma = element(rt, s, e, comma)?;
        let next = e.next;
        at = next.at;
    }
    Ok(())
}

// An element, of a container its opening; answers whether a comma goes before a member that follows.
fn element(rt: &impl Print, s: &[u8], e: Element, comma: bool) -> io::Result<bool>
    requires { InPage s.now (value_of e) }
{
    let kind = e.kind;
    if kind == tlv_reader::END {
        rt.print("}")?;
        return Ok(true);
    }
    if comma {
        rt.print(", ")?;
    }
    tag(rt, e.form, e.tag)?;
    if kind < tlv_reader::STRUCTURE {
        value(rt, s, e.value())?;
        return Ok(true);
    }
    opening(rt, kind)?;
    Ok(false)
}

fn tag(rt: &impl Print, form: u8, n: u64) -> io::Result<()> {
    if form == 0 {
        return Ok(());
    }
    if form == 1 {
        named(rt, "context ", n)?;
    } else if form < 4 {
        named(rt, "common ", n)?;
    } else if form < 6 {
        named(rt, "implicit ", n)?;
    } else {
        qualified(rt, n)?;
    }
    rt.print(" ")
}

// A word and a number.
fn named(rt: &impl Print, word: &str, n: u64) -> io::Result<()> {
    rt.print(word)?;
    rt.print(n)
}

// Vendor and profile, in hex, and the tag's number.
fn qualified(rt: &impl Print, n: u64) -> io::Result<()> {
    rt.print("qualified ")?;
    hex::write_low16(rt, n)?;
    rt.print(" ")?;
    hex::write_low16(rt, n / 65536)?;
    named(rt, " ", n / 4294967296)
}

fn opening(rt: &impl Print, kind: u8) -> io::Result<()> {
    if kind == tlv_reader::STRUCTURE {
        rt.print("structure {")
    } else if kind == tlv_reader::ARRAY {
        rt.print("array {")
    } else {
        rt.print("list {")
    }
}

fn value(rt: &impl Print, s: &[u8], v: Value) -> io::Result<()>
    requires { InPage s.now v }
{
    match v {
        Value::Null => rt.print("null"),
        Value::Boolean(x) => boolean(rt, x),
        Value::Unsigned(n) => named(rt, "unsigned ", n),
        Value::Signed(z) => signed(rt, z),
        Value::Float(bits) => float(rt, bits as u64),
        Value::Text { start, len } => {
            let end = start + len;
            text(rt, &s[start..end])
        }
        Value::Other => rt.print("other"),
    }
}

fn boolean(rt: &impl Print, x: bool) -> io::Result<()> {
    if x {
        rt.print("boolean true")
    } else {
        rt.print("boolean false")
    }
}

fn signed(rt: &impl Print, z: i64) -> io::Result<()> {
    if z < 0 {
        named(rt, "signed -", (!z) as u64 + 1)
    } else {
        named(rt, "signed ", z as u64)
    }
}

// A float32 by its bits.
fn float(rt: &impl Print, bits: u64) -> io::Result<()> {
    rt.print("float32 ")?;
    hex::write_low16(rt, bits / 65536)?;
    hex::write_low16(rt, bits)
}

fn text(rt: &impl Print, t: &[u8]) -> io::Result<()> {
    rt.print("text \"")?;
    rt.write_all(t)?;
    rt.print("\"")
}
