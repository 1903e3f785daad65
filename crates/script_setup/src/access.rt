// The access table as the lines give it.
ghost use Rattle.std.specs.Prelude.{◌≡◌};
ghost use Rattle.script_setup.specs.Access.{no_entries, with_entry, access_at};

use base_bounds::ACCESS_ENTRIES;
use node_access::AccessEntry;
use script_lines::number::{read_marked, read_number};
use script_lines::path::{ENDPOINT_MAX, ID_MAX};
use script_lines::{Scan, is_done};

// The first `count` of the entries are in use.
#[derive(Clone, Copy)]
pub struct Table {
    pub entries: [AccessEntry; ACCESS_ENTRIES],
    pub count: usize,
}

// The table after an access line, and whether it could be read.
#[derive(Clone, Copy)]
pub struct Given {
    pub table: Table,
    pub ok: bool,
}

const ANYBODY: AccessEntry = AccessEntry {
    privilege: 0,
    any_subject: true,
    subject: 0,
    any_endpoint: true,
    endpoint: 0,
    any_cluster: true,
    cluster: 0,
};

pub fn no_entries() -> Table
    ensures { result ≡ no_entries }
{
    Table {
        entries: [ANYBODY; ACCESS_ENTRIES],
        count: 0,
    }
}

// A table with one entry more; the seventeenth is counted and not kept, and the server refuses the table.
fn with_entry(t: Table, e: AccessEntry) -> Table
    ensures { result ≡ with_entry t e }
{
    let n = t.count;
    let mut entries = t.entries;
    if n < ACCESS_ENTRIES {
        entries[n] = e;
        return Table {
            entries,
            count: n + 1,
        };
    }
    Table {
        entries,
        count: ACCESS_ENTRIES + 1,
    }
}

pub fn access_line(line: &[u8], s: Scan, table: Table) -> Given
    ensures { result ≡ access_at line.now s table }
{
    let privilege = read_number(line, s, 255);
    let subject = read_marked(line, privilege.next, b'*', u64::MAX);
    let endpoint = read_marked(line, subject.next, b'*', ENDPOINT_MAX);
    let cluster = read_marked(line, endpoint.next, b'*', ID_MAX);
    if !is_done(cluster.next) {
        return Given { table, ok: false };
    }
    let e = AccessEntry {
        privilege: privilege.value as u8,
        any_subject: subject.value.is_none(),
        subject: subject.value.unwrap_or(0),
        any_endpoint: endpoint.value.is_none(),
        endpoint: endpoint.value.unwrap_or(0) as u16,
        any_cluster: cluster.value.is_none(),
        cluster: cluster.value.unwrap_or(0) as u32,
    };
    let more = with_entry(table, e);
    Given {
        table: more,
        ok: true,
    }
}
