// Which attribute a path names: exactly that one, or the status that says what is not there.
ghost use Rattle.std.specs.Prelude.{◌≡◌};
ghost use Rattle.server_selection.specs.Locate.{located};

use super::{UNSUPPORTED_ATTRIBUTE, UNSUPPORTED_CLUSTER, UNSUPPORTED_ENDPOINT};
use node_schema::WORDS;
use node_schema::find::{find_attribute, find_cluster, has_endpoint};

#[derive(Clone, Copy)]
pub enum Located {
    Here(usize),
    Refused(u8),
}

pub fn locate(w: &[u64; WORDS], endpoint: u16, cluster: u32, attribute: u32) -> Located
    ensures { result ≡ located w.now endpoint cluster attribute }
{
    if !has_endpoint(w, endpoint) {
        return Located::Refused(UNSUPPORTED_ENDPOINT);
    }
    let Some(k) = find_cluster(w, endpoint, cluster) else {
        return Located::Refused(UNSUPPORTED_CLUSTER);
    };
    let Some(i) = find_attribute(w, k, attribute) else {
        return Located::Refused(UNSUPPORTED_ATTRIBUTE);
    };
    Located::Here(i)
}
