// A value of a script, to the end of the line: null | bool 0|1 | unsigned N | signed N | float HEX8 | text BYTES..
ghost use Rattle.std.specs.Prelude.{◌≡◌, false, length};
ghost use Rattle.tlv_reader.specs.declared.Value.TheVariants.{Null};
ghost use Rattle.script_lines.specs.Bytes.{rest_at, rest_kept};
ghost use Rattle.script_lines.specs.Values.{parsed, text_of, numeric_at, value_at, value_kept};

use super::hex::rest;
use super::number::{read_flag, read_float, read_number, read_signed};
use super::{Scan, is_done, next_word};
use node_kinds::stored::{same_bytes, signed_of};
use tlv_reader::Value;

// A value, and whether it and all before it could be read. A text is the first bytes of the buffer.
#[derive(Clone, Copy)]
pub struct Parsed {
    pub value: Value,
    pub ok: bool,
}

fn unread() -> Parsed
    ensures { result ≡ parsed Null false }
{
    Parsed {
        value: Value::Null,
        ok: false,
    }
}

fn text(line: &[u8], s: Scan, out: &mut [u8]) -> Parsed
    ensures value { result ≡ text_of (rest_at line.now s (length out.old)) }
    ensures out_after { out.new ≡ rest_kept line.now s out.old }
{
    let b = rest(line, s, out);
    Parsed {
        value: Value::Text {
            start: 0,
            len: b.len,
        },
        ok: b.ok,
    }
}

// A number of one of the kinds, by the kind's word.
fn numeric(kind: &[u8], line: &[u8], s: Scan) -> Parsed
    ensures { result ≡ numeric_at kind.now line.now s }
{
    if same_bytes(kind, b"bool") {
        let n = read_flag(line, s);
        return Parsed {
            value: Value::Boolean(n.value == 1),
            ok: is_done(n.next),
        };
    }
    if same_bytes(kind, b"unsigned") {
        let n = read_number(line, s, u64::MAX);
        return Parsed {
            value: Value::Unsigned(n.value),
            ok: is_done(n.next),
        };
    }
    if same_bytes(kind, b"signed") {
        let n = read_signed(line, s);
        return Parsed {
            value: Value::Signed(signed_of(n.value)),
            ok: is_done(n.next),
        };
    }
    if same_bytes(kind, b"float") {
        let n = read_float(line, s);
        return Parsed {
            value: Value::Float(n.value as u32),
            ok: is_done(n.next),
        };
    }
    unread()
}

// What the next words say; the buffer takes the bytes of a text.
pub fn read_value(line: &[u8], s: Scan, out: &mut [u8]) -> Parsed
    ensures value { result ≡ value_at line.now s (length out.old) }
    ensures out_after { out.new ≡ value_kept line.now s out.old }
{
    let w = next_word(line, s);
    let start = w.start;
    let end = w.end;
    let kind = &line[start..end];
    if same_bytes(kind, b"null") {
        return Parsed {
            value: Value::Null,
            ok: is_done(w.next),
        };
    }
    if same_bytes(kind, b"text") {
        return text(line, w.next, out);
    }
    numeric(kind, line, w.next)
}
