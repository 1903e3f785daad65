// The access list: a lent table of entries, searched from its end. What is done with one entry stands in covered functions.
ghost use Rattle.std.specs.Prelude.{◌≡◌, min};
ghost use Rattle.node_access.specs.Table.{beginning, grants_with, with_entry, searched};

use super::{AccessEntry, Grants, privilege_ok, raised};
use base_bounds::{ACCESS_ENTRIES, CLUSTERS};
use node_schema::WORDS;

// What a table says for a subject: whether it keeps the rules, refusal 2 where it does not, and what it grants.
#[derive(Clone, Copy)]
pub struct Access {
    pub right: bool,
    pub grants: Grants,
}

// How many entries are looked at.
fn used(count: usize, len: usize) -> usize
    ensures { result ≡ min count len }
{
    if count < len { count } else { len }
}

// Nothing looked at yet: the rule on the number of entries, and no grant.
fn begin(count: usize) -> Access
    ensures { result ≡ beginning count }
{
    let right = count <= ACCESS_ENTRIES;
    let level = [0u8; CLUSTERS];
    let grants = Grants { level };
    Access { right, grants }
}

// What one entry grants, added at each of the schema's clusters.
fn granted_by(g: Grants, e: AccessEntry, subject: u64, w: &[u64; WORDS]) -> Grants
    ensures { result ≡ grants_with g e subject w.now }
{
    let n = node_schema::cluster_count(w);
    let mut level = g.level;
    for i in 0..n {
        let endpoint = node_schema::cluster_endpoint(w, i);
        let cluster = node_schema::cluster_id(w, i);
        level[i] = raised(level[i], e, subject, endpoint, cluster);
    }
    Grants { level }
}

// One step of the search: this entry beside those already looked at.
fn with_entry(a: Access, e: AccessEntry, subject: u64, w: &[u64; WORDS]) -> Access
    ensures { result ≡ with_entry a e subject w.now }
{
    let had = a.grants;
    let grants = granted_by(had, e, subject, w);
    if !privilege_ok(e.privilege) {
        return Access {
            right: false,
            grants,
        };
    }
    Access {
        right: a.right,
        grants,
    }
}

// The search: the first `count` entries of the table, or all where it has fewer.
pub fn search(table: &[AccessEntry], count: usize, subject: u64, w: &[u64; WORDS]) -> Access
    ensures { result ≡ searched count table.now subject w.now }
{
    let n = used(count, table.len());
    let mut access = begin(count);
    for i in (0..n).rev() {
        access = with_entry(access, table[i], subject, w);
    }
    access
}

// For whoever has the table by value: it is lent here, so that nobody above needs to.
pub fn search_in(
    entries: [AccessEntry; ACCESS_ENTRIES],
    count: usize,
    subject: u64,
    w: &[u64; WORDS],
) -> Access
    ensures { result ≡ searched count entries subject w.now }
{
    search(&entries, count, subject, w)
}
