// A value that the cache can keep or send.
ghost use Rattle.std.specs.Prelude.{◌≡◌};
ghost use Rattle.cache_entries.specs.Values.{inside_usable, usable_in, long_v};

use super::TEXT_SIZE;
use tlv_reader::Value;

// A text lies in the message and is UTF-8.
fn text_usable(s: &[u8], start: usize, len: usize) -> bool
    ensures { result ≡ inside_usable s.now start len }
{
    if s.len() < len {
        return false;
    }
    if s.len() - len < start {
        return false;
    }
    base_utf8::valid(&s[start..start + len])
}

// Null or one of the five kinds.
pub fn usable(s: &[u8], v: Value) -> bool
    ensures { result ≡ usable_in s.now v }
{
    match v {
        Value::Other => false,
        Value::Text { start, len } => text_usable(s, start, len),
        Value::Null => true,
        Value::Boolean(_) => true,
        Value::Unsigned(_) => true,
        Value::Signed(_) => true,
        Value::Float(_) => true,
    }
}

pub fn is_long(v: Value) -> bool
    ensures { result ≡ long_v v }
{
    let Value::Text { start: _, len } = v else {
        return false;
    };
    TEXT_SIZE < len
}
