// How long an element will be, known before it is written.
ghost use Rattle.std.specs.Prelude.{◌≡◌, ◌+◌, ◌≤◌, length};
ghost use Rattle.tlv_reader.specs.Value.{datum_in};
ghost use Rattle.tlv_writer.specs.Element.{head_length, unsigned_octets, signed_octets, float_octets, text_octets, datum_octets, InPage};

use super::Tag;
use super::width::{length_width, signed_width, unsigned_width};
use tlv_reader::Value;

// Control octet and tag: an opening, a boolean or null whole.
pub fn head_len(tag: Tag) -> usize
    ensures value { result ≡ head_length tag }
    ensures small { result ≤ 2 }
{
    match tag {
        Tag::Anonymous => 1,
        Tag::Context(_) => 2,
    }
}

pub fn unsigned_len(tag: Tag, v: u64) -> usize
    ensures value { result ≡ length (unsigned_octets tag v) }
    ensures small { result ≤ 10 }
{
    head_len(tag) + unsigned_width(v)
}

pub fn signed_len(tag: Tag, z: i64) -> usize
    ensures value { result ≡ length (signed_octets tag z) }
    ensures small { result ≤ 10 }
{
    head_len(tag) + signed_width(z)
}

// The same for every float.
pub fn float_len(tag: Tag, bits: u32) -> usize
    ensures value { result ≡ length (float_octets tag bits) }
    ensures small { result ≤ 6 }
{
    head_len(tag) + 4
}

pub fn text_len(tag: Tag, text: &[u8]) -> usize
    ensures value { result ≡ length (text_octets tag text.now) }
    ensures small { result ≤ 10 + length text.now }
{
    let n = text.len();
    head_len(tag) + length_width(n) + n
}

// A value's length, its text in the page.
pub fn value_len(tag: Tag, v: Value, page: &[u8]) -> usize
    requires { InPage page.now v }
    ensures value { result ≡ length (datum_octets tag (datum_in page.now v)) }
    ensures small { result ≤ 10 + length page.now }
{
    match v {
        Value::Null => head_len(tag),
        Value::Boolean(_) => head_len(tag),
        Value::Unsigned(n) => unsigned_len(tag, n),
        Value::Signed(z) => signed_len(tag, z),
        Value::Float(n) => float_len(tag, n),
        Value::Text { start, len } => {
            let end = start + len;
            text_len(tag, &page[start..end])
        }
        Value::Other => 0,
    }
}
