// A new value against a kind and its limits. (Stored values are judged by their words: `node_plan::held`.)
ghost use Rattle.std.specs.Prelude.{◌≡◌, List, ℕ};
ghost use Rattle.node_kinds.specs.Limits.{status_code, between, between_z, limited, null_of, against_in, judged_in};

use super::float::in_range;
use super::{Kind, Range, Verdict};
use base_bounds::TEXT_MAX;
use tlv_reader::Value;

// The status code of RULES 5.14.
impl From<Verdict> for u8 {
    ghost from_gives = { λ verdict code. code ≡ status_code verdict };

    #[tactic(auto, unfolding(crate::specs::Limits::status_code))]
    fn from(verdict: Verdict) -> u8 {
        match verdict {
            Verdict::Success => 0x00,
            Verdict::ConstraintError => 0x87,
            Verdict::InvalidDataType => 0x8D,
        }
    }
}

fn limited(ok: bool) -> Verdict
    ensures { result ≡ limited ok }
{
    if ok {
        Verdict::Success
    } else {
        Verdict::ConstraintError
    }
}

fn unsigned_within(low: u64, n: u64, high: u64) -> bool
    ensures { result ≡ between low n high }
{
    if low <= n { n <= high } else { false }
}

fn signed_within(low: i64, z: i64, high: i64) -> bool
    ensures { result ≡ between_z low z high }
{
    if low <= z { z <= high } else { false }
}

pub fn is_null(v: Value) -> bool
    ensures { result ≡ null_of v }
{
    matches!(v, Value::Null)
}

// A value that is not null, against each kind: another type is refused before any limit. The first four look at no message, so
// their contracts hold for every message s that the value may come from.
fn judge_boolean(v: Value) -> Verdict
    ensures { (s : List ℕ) → result ≡ against_in s v Kind.Boolean }
{
    let Value::Boolean(_) = v else {
        return Verdict::InvalidDataType;
    };
    Verdict::Success
}

fn judge_unsigned(low: u64, high: u64, v: Value) -> Verdict
    ensures { (s : List ℕ) → result ≡ against_in s v (Kind.Unsigned low high) }
{
    let Value::Unsigned(n) = v else {
        return Verdict::InvalidDataType;
    };
    limited(unsigned_within(low, n, high))
}

fn judge_signed(low: i64, high: i64, v: Value) -> Verdict
    ensures { (s : List ℕ) → result ≡ against_in s v (Kind.Signed low high) }
{
    let Value::Signed(z) = v else {
        return Verdict::InvalidDataType;
    };
    limited(signed_within(low, z, high))
}

fn judge_float(range: Range, v: Value) -> Verdict
    ensures { (s : List ℕ) → result ≡ against_in s v (Kind.Float range) }
{
    let Value::Float(bits) = v else {
        return Verdict::InvalidDataType;
    };
    limited(in_range(range, bits))
}

fn judge_text(v: Value, src: &[u8]) -> Verdict
    ensures { result ≡ against_in src.now v Kind.Text }
{
    let Value::Text { start, len } = v else {
        return Verdict::InvalidDataType;
    };
    if TEXT_MAX < len {
        return Verdict::ConstraintError;
    }
    if src.len() < len {
        return Verdict::ConstraintError;
    }
    if src.len() - len < start {
        return Verdict::ConstraintError;
    }
    limited(base_utf8::valid(&src[start..start + len]))
}

// The verdict on a new value; a text is a part of src, and one that does not lie inside src is past the limits.
pub fn judge(kind: Kind, nullable: bool, v: Value, src: &[u8]) -> Verdict
    ensures { result ≡ judged_in src.now kind nullable v }
{
    if is_null(v) {
        return limited(nullable);
    }
    match kind {
        Kind::Boolean => judge_boolean(v),
        Kind::Unsigned { low, high } => judge_unsigned(low, high, v),
        Kind::Signed { low, high } => judge_signed(low, high, v),
        Kind::Float(range) => judge_float(range, v),
        Kind::Text => judge_text(v, src),
    }
}
