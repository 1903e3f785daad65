// TLV elements written into a lent buffer, untagged or with a context tag, integers and lengths in the least width. Every
// writer stores from `at` on and answers the place after what it stored; the rest of the buffer stays as it was.

#![tactic(auto)]

ghost use Rattle.std.specs.Prelude.{◌≡◌, ◌+◌, ◌≤◌, ◌<◌, length};
ghost use Rattle.base_octets.specs.Store.{Stored};
ghost use Rattle.tlv_reader.specs.Octet.{number_width, structure, end_of_container};
ghost use Rattle.tlv_reader.specs.Value.{datum_in};
ghost use Rattle.tlv_writer.specs.Element.{start_octets, head_for, unsigned_octets, signed_octets, boolean_octets, null_octets, float_octets, text_octets, open_octets, end_octets, datum_octets, InPage};

use tlv_reader::Value;

pub mod lengths; // lengths.rt: how long an element will be
pub mod width; // width.rt: the least width of a number

#[derive(Clone, Copy)]
pub enum Tag {
    Anonymous,
    Context(u8),
}

// Element types (tlv has those of containers); of four widths the narrowest. The signed integers are the types 0 to 3.
const UNSIGNED: u8 = 4;

const FALSE: u8 = 8;

const TRUE: u8 = 9;

const FLOAT32: u8 = 10;

const TEXT: u8 = 12;

const NULL: u8 = 20;

// Control octet and tag.
pub fn put_head(b: &mut [u8], at: usize, tag: Tag, kind: u8) -> usize
    requires { (kind < 32) × (at + length (start_octets tag kind) ≤ length b.old) }
    ensures { Stored b.old at (start_octets tag kind) b.new result }
{
    match tag {
        Tag::Anonymous => base_octets::put1(b, at, kind),
        Tag::Context(number) => base_octets::put2(b, at, 32 + kind, number),
    }
}

// Control octet, tag and the low w octets of a number.
fn put_numbered(b: &mut [u8], at: usize, tag: Tag, kind: u8, w: usize, v: u64) -> usize
    requires { (kind < 32) × ((w ≡ number_width kind) × (at + length (head_for tag kind v) ≤ length b.old)) }
    ensures { Stored b.old at (head_for tag kind v) b.new result }
{
    let p = put_head(b, at, tag, kind);
    base_octets::put_number(b, p, w, v)
}

pub fn put_unsigned(b: &mut [u8], at: usize, tag: Tag, v: u64) -> usize
    requires { at + length (unsigned_octets tag v) ≤ length b.old }
    ensures { Stored b.old at (unsigned_octets tag v) b.new result }
{
    let w = width::unsigned_width(v);
    let kind = UNSIGNED + width::width_code(w);
    put_numbered(b, at, tag, kind, w, v)
}

pub fn put_signed(b: &mut [u8], at: usize, tag: Tag, z: i64) -> usize
    requires { at + length (signed_octets tag z) ≤ length b.old }
    ensures { Stored b.old at (signed_octets tag z) b.new result }
{
    let w = width::signed_width(z);
    let kind = width::width_code(w);
    put_numbered(b, at, tag, kind, w, width::bits_of(z))
}

pub fn put_boolean(b: &mut [u8], at: usize, tag: Tag, x: bool) -> usize
    requires { at + length (boolean_octets tag x) ≤ length b.old }
    ensures { Stored b.old at (boolean_octets tag x) b.new result }
{
    if x {
        put_head(b, at, tag, TRUE)
    } else {
        put_head(b, at, tag, FALSE)
    }
}

pub fn put_null(b: &mut [u8], at: usize, tag: Tag) -> usize
    requires { at + length (null_octets tag) ≤ length b.old }
    ensures { Stored b.old at (null_octets tag) b.new result }
{
    put_head(b, at, tag, NULL)
}

// A float32 by its bits.
pub fn put_float(b: &mut [u8], at: usize, tag: Tag, bits: u32) -> usize
    requires { at + length (float_octets tag bits) ≤ length b.old }
    ensures { Stored b.old at (float_octets tag bits) b.new result }
{
    put_numbered(b, at, tag, FLOAT32, 4, bits as u64)
}

pub fn put_text(b: &mut [u8], at: usize, tag: Tag, text: &[u8]) -> usize
    requires { at + length (text_octets tag text.now) ≤ length b.old }
    ensures { Stored b.old at (text_octets tag text.now) b.new result }
{
    let n = text.len();
    let w = width::length_width(n);
    let kind = TEXT + width::width_code(w);
    let p = put_numbered(b, at, tag, kind, w, n as u64);
    base_octets::put_bytes(b, p, text)
}

// The opening of a container of an element type: tlv_reader::STRUCTURE, tlv_reader::ARRAY or tlv_reader::LIST.
pub fn put_open(b: &mut [u8], at: usize, tag: Tag, kind: u8) -> usize
    requires { (structure ≤ kind) × ((kind < end_of_container) × (at + length (open_octets tag kind) ≤ length b.old)) }
    ensures { Stored b.old at (open_octets tag kind) b.new result }
{
    put_head(b, at, tag, kind)
}

pub fn put_end(b: &mut [u8], at: usize) -> usize
    requires { at + length end_octets ≤ length b.old }
    ensures { Stored b.old at end_octets b.new result }
{
    base_octets::put1(b, at, tlv_reader::END)
}

// A value, its text in the page; of one that is Other, nothing.
pub fn put_value(b: &mut [u8], at: usize, tag: Tag, v: Value, page: &[u8]) -> usize
    requires { (InPage page.now v) × (at + length (datum_octets tag (datum_in page.now v)) ≤ length b.old) }
    ensures { Stored b.old at (datum_octets tag (datum_in page.now v)) b.new result }
{
    match v {
        Value::Null => put_null(b, at, tag),
        Value::Boolean(x) => put_boolean(b, at, tag, x),
        Value::Unsigned(n) => put_unsigned(b, at, tag, n),
        Value::Signed(z) => put_signed(b, at, tag, z),
        Value::Float(bits) => put_float(b, at, tag, bits),
        Value::Text { start, len } => {
            let end = start + len;
            put_text(b, at, tag, &page[start..end])
        }
        Value::Other => at,
    }
}
