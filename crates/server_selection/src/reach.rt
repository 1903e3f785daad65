// Which attribute may be read or written: one ordered chain for both uses, with its first refusal.
ghost use Rattle.std.specs.Prelude.{◌≡◌, ◌<◌};
ghost use Rattle.base_bounds.specs.Bounds.{attribute_limit};
ghost use Rattle.node_schema.specs.Rows.{attribute_row};
ghost use Rattle.server_selection.specs.Reach as reach;

use super::locate::{Located, locate};
use super::{UNSUPPORTED_ACCESS, UNSUPPORTED_READ, UNSUPPORTED_WRITE};
use base_bounds::CLUSTERS;
use node_access::is_granted;
use node_schema::WORDS;

#[derive(Clone, Copy)]
pub enum Use {
    Read,
    Write,
}

// The privilege that a use needs of attribute i, 0 where the attribute is not for it.
fn needed(purpose: Use, w: &[u64; WORDS], i: usize) -> u64
    requires { i < attribute_limit }
    ensures { result ≡ reach.needed purpose (attribute_row w.now i) }
{
    match purpose {
        Use::Read => node_schema::read_privilege(w, i),
        Use::Write => node_schema::write_privilege(w, i),
    }
}

// The status where it is not.
fn unsupported(purpose: Use) -> u8
    ensures { result ≡ reach.unsupported purpose }
{
    match purpose {
        Use::Read => UNSUPPORTED_READ,
        Use::Write => UNSUPPORTED_WRITE,
    }
}

// An attribute that is there: not readable or not writable, then privilege.
pub fn allow<'a>(purpose: Use, w: &'a [u64; WORDS], level: &'a [u8; CLUSTERS], i: usize) -> Located
    requires { i < attribute_limit }
    ensures { result ≡ reach.allowed purpose w.now (record { level = level.entry.now }) i }
{
    let need = needed(purpose, w, i);
    if need == 0 {
        return Located::Refused(unsupported(purpose));
    }
    if !is_granted(level, node_schema::attribute_cluster(w, i), need) {
        return Located::Refused(UNSUPPORTED_ACCESS);
    }
    Located::Here(i)
}

// The whole chain for a concrete path.
pub fn reach<'a>(
    purpose: Use,
    w: &'a [u64; WORDS],
    level: &'a [u8; CLUSTERS],
    endpoint: u16,
    cluster: u32,
    attribute: u32,
) -> Located
    ensures { result ≡ reach.reached purpose w.now (record { level = level.entry.now }) endpoint cluster attribute }
{
    match locate(w, endpoint, cluster, attribute) {
        Located::Here(i) => allow(purpose, w, level, i),
        Located::Refused(code) => Located::Refused(code),
    }
}
