// Stored values: 64 bits and a null flag; the version after a change.
ghost use Rattle.std.specs.Prelude.{◌≡◌};
ghost use Rattle.std.specs.Int.{w64};
ghost use Rattle.std.proofs.Common.{to_z, of_z};
ghost use Rattle.node_kinds.specs.Stored.{word_of, value_from, equal, next_version};

use super::Kind;
use base_bounds::VERSIONS;
use tlv_reader::Value;

// Two's complement.
pub fn signed_of(n: u64) -> i64
    ensures { result ≡ to_z w64 n }
{
    if n < 9223372036854775808 {
        n as i64
    } else {
        !((18446744073709551615 - n) as i64)
    }
}

pub fn bits_of(z: i64) -> u64
    ensures { result ≡ of_z w64 z }
{
    if z < 0 {
        18446744073709551615 - ((!z) as u64)
    } else {
        z as u64
    }
}

// What a value is stored as. A text's word is its length.
pub fn word_of(v: Value) -> u64
    ensures { result ≡ word_of v }
{
    match v {
        Value::Null => 0,
        Value::Boolean(b) => if b { 1 } else { 0 },
        Value::Unsigned(n) => n,
        Value::Signed(z) => bits_of(z),
        Value::Float(n) => n as u64,
        Value::Text { start: _, len } => len as u64,
        Value::Other => 0,
    }
}

// The value that is stored. A text is shown at start.
pub fn value_of(kind: Kind, word: u64, null: bool, start: usize) -> Value
    ensures { result ≡ value_from kind word null start }
{
    if null {
        return Value::Null;
    }
    match kind {
        Kind::Boolean => Value::Boolean(word != 0),
        Kind::Unsigned { low: _, high: _ } => Value::Unsigned(word),
        Kind::Signed { low: _, high: _ } => Value::Signed(signed_of(word)),
        Kind::Float(_) => Value::Float((word % 4294967296) as u32),
        Kind::Text => Value::Text {
            start,
            len: word as usize,
        },
    }
}

// Texts are compared by their bytes.
pub fn same_bytes(a: &[u8], b: &[u8]) -> bool
    ensures { result ≡ equal a.now b.now }
{
    a == b
}

pub fn next_version(v: u32) -> u32
    ensures { result ≡ next_version v }
{
    if v as u64 + 1 == VERSIONS { 0 } else { v + 1 }
}
