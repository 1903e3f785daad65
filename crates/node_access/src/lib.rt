// Access (RULES 2.11 to 2.15): what one entry covers, and the grants that the server works with.

#![tactic(auto)]

ghost use Rattle.std.specs.Prelude.{◌≡◌, ◌||◌, max};
ghost use Rattle.node_access.specs.Access.{covers_place, given_by, privilege_ok, is_granted};

use base_bounds::CLUSTERS;

pub mod table;

// The privileges, each including those before it.
pub const VIEW: u8 = 1;

pub const ADMINISTER: u8 = 4;

// An access entry gives a privilege to a subject, on an endpoint and a cluster, each one or any.
#[derive(Clone, Copy)]
pub struct AccessEntry {
    pub privilege: u8,
    pub any_subject: bool,
    pub subject: u64,
    pub any_endpoint: bool,
    pub endpoint: u16,
    pub any_cluster: bool,
    pub cluster: u32,
}

// For each of the schema's clusters, by the index of its row, the highest privilege granted to the subject; 0 for none.
#[derive(Clone, Copy)]
pub struct Grants {
    pub level: [u8; CLUSTERS],
}

// A field of an entry is any, or the same as what is asked for.
fn any_or(any: bool, same: bool) -> bool
    ensures { result ≡ (any || same) }
{
    if any { true } else { same }
}

// Whether the entry is for this subject at this endpoint and cluster, whatever privilege it gives.
pub fn covers_place(e: AccessEntry, subject: u64, endpoint: u64, cluster: u64) -> bool
    ensures { result ≡ covers_place e subject endpoint cluster }
{
    if !any_or(e.any_subject, e.subject == subject) {
        return false;
    }
    if !any_or(e.any_endpoint, e.endpoint as u64 == endpoint) {
        return false;
    }
    any_or(e.any_cluster, e.cluster as u64 == cluster)
}

// One step of a search for the highest privilege: the level found so far, or this entry's where it covers the place and gives more.
pub fn raised(level: u8, e: AccessEntry, subject: u64, endpoint: u64, cluster: u64) -> u8
    ensures { result ≡ max (given_by e subject endpoint cluster) level }
{
    if e.privilege <= level {
        return level;
    }
    if covers_place(e, subject, endpoint, cluster) {
        e.privilege
    } else {
        level
    }
}

// Whether there is such a privilege.
pub fn privilege_ok(privilege: u8) -> bool
    ensures { result ≡ privilege_ok privilege }
{
    if privilege < VIEW {
        return false;
    }
    privilege <= ADMINISTER
}

// Whether a privilege is granted at the cluster whose row is at i: false where the schema can have no such row.
pub fn is_granted(level: &[u8; CLUSTERS], i: usize, privilege: u64) -> bool
    ensures { result ≡ is_granted (record { level = level.entry.now }) i privilege }
{
    if CLUSTERS <= i {
        return false;
    }
    privilege <= u64::from(level[i])
}
