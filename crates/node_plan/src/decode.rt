// A row of the schema as a typed attribute.
ghost use Rattle.std.specs.Prelude.{◌≡◌, ◌<◌, ◌%◌};
ghost use Rattle.base_bounds.specs.Bounds.{attribute_limit};
ghost use Rattle.node_schema.specs.Layout.{half};
ghost use Rattle.node_schema.specs.Rows.{attribute_row};
ghost use Rattle.node_plan.specs.Attributes.{kind_of};

use super::{FLOAT, SIGNED, UNSIGNED};
use node_kinds::Kind;
use node_kinds::float::range_of;
use node_kinds::stored::signed_of;
use node_schema::{HALF, TEXT, WORDS};

pub fn low_half(x: u64) -> u32
    ensures { result ≡ x % half }
{
    (x % HALF) as u32
}

// The kind of attribute i, with its limits.
pub fn kind_of(w: &[u64; WORDS], i: usize) -> Kind
    requires { i < attribute_limit }
    ensures { result ≡ kind_of (attribute_row w.now i) }
{
    let code = node_schema::kind_code(w, i);
    let low = node_schema::lowest(w, i);
    let high = node_schema::highest(w, i);
    let first = node_schema::first_value(w, i);
    match code {
        UNSIGNED => Kind::Unsigned { low, high },
        SIGNED => Kind::Signed {
            low: signed_of(low),
            high: signed_of(high),
        },
        FLOAT => Kind::Float(range_of(low_half(low), low_half(high), low_half(first))),
        TEXT => Kind::Text,
        _ => Kind::Boolean,
    }
}
