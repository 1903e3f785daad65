// Paths of a script: an endpoint, a cluster, an attribute.
ghost use Rattle.std.specs.Prelude.{◌≡◌};
ghost use Rattle.script_lines.specs.Paths.{place_at, path_at};

use super::Scan;
use super::number::read_number;

pub const ENDPOINT_MAX: u64 = 65_535;

// The highest number of a cluster, an attribute and a version.
pub const ID_MAX: u64 = 4_294_967_295;

// A cluster's place, and what comes after it.
#[derive(Clone, Copy)]
pub struct ClusterWords {
    pub endpoint: u16,
    pub cluster: u32,
    pub next: Scan,
}

// An attribute's path, and what comes after it.
#[derive(Clone, Copy)]
pub struct PathWords {
    pub endpoint: u16,
    pub cluster: u32,
    pub attribute: u32,
    pub next: Scan,
}

pub fn read_place(line: &[u8], s: Scan) -> ClusterWords
    ensures { result ≡ place_at line.now s }
{
    let endpoint = read_number(line, s, ENDPOINT_MAX);
    let cluster = read_number(line, endpoint.next, ID_MAX);
    let next = cluster.next;
    ClusterWords {
        endpoint: endpoint.value as u16,
        cluster: cluster.value as u32,
        next,
    }
}

pub fn read_path(line: &[u8], s: Scan) -> PathWords
    ensures { result ≡ path_at line.now s }
{
    let p = read_place(line, s);
    let attribute = read_number(line, p.next, ID_MAX);
    let next = attribute.next;
    PathWords {
        endpoint: p.endpoint,
        cluster: p.cluster,
        attribute: attribute.value as u32,
        next,
    }
}
