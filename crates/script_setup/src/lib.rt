// Setup lines: the schema's words as the lines give them, row by row. A row past a limit is counted and not kept: the schema is then refused,
// as it is for every other rule that the lines break. No input and no output.

#![tactic(auto)]

ghost use Rattle.std.specs.Prelude.{◌≡◌};
ghost use Rattle.script_lines.specs.Words.{is_done};
ghost use Rattle.script_setup.specs.Setup.{is_setup, count_up, subject_at, subject_set, cluster_added, cluster_read, cluster_line};
ghost use Rattle.script_setup.specs.Lines.{setup_read, setup_line, texts_line};

use base_bounds::{ATTRIBUTES, CLUSTERS};
use node_kinds::stored::same_bytes;
use node_schema::{CLUSTER_COUNT_WORD, HALF, PATH, SUBJECT_WORD, TEXT_SIZE, VERSION, WORDS};
use script_lines::number::read_number;
use script_lines::path::{ID_MAX, read_place};
use script_lines::{Scan, is_done};

pub mod access; // access.rt: the access table
pub mod attribute; // attribute.rt: the line of an attribute
pub mod plan; // plan.rt: the schema of all lines so far

// What is set up: a schema's words, in which a key is the attribute alone, since its cluster's line may still come; then the column of the attributes' paths
// (endpoint, cluster).
pub const SETUP: usize = PATHS + ATTRIBUTES;

const PATHS: usize = WORDS;

// The factory texts: 256 texts of 200 bytes, each at the place of its attribute's row.
pub const PAGE: usize = ATTRIBUTES * TEXT_SIZE;

// A count up by one, as far as the limit.
fn count_up(n: u64, limit: u64) -> u64
    ensures { result ≡ count_up n limit }
{
    if n < limit { n + 1 } else { n }
}

fn subject_line(line: &[u8], s: Scan, setup: &mut [u64; SETUP]) -> bool
    ensures value { result ≡ is_done (subject_at line.now s).next }
    ensures setup_after { setup.new ≡ subject_set setup.old (subject_at line.now s) }
{
    let n = read_number(line, s, u64::MAX);
    if !is_done(n.next) {
        return false;
    }
    setup[SUBJECT_WORD] = n.value;
    true
}

fn add_cluster(setup: &mut [u64; SETUP], path: u64, version: u64)
    ensures { setup.new ≡ cluster_added setup.old path version }
{
    let n = setup[CLUSTER_COUNT_WORD];
    setup[CLUSTER_COUNT_WORD] = count_up(n, CLUSTERS as u64 + 1);
    if n < CLUSTERS as u64 {
        let i = n as usize;
        setup[PATH + i] = path;
        setup[VERSION + i] = version;
    }
}

fn cluster_line(line: &[u8], s: Scan, setup: &mut [u64; SETUP]) -> bool
    ensures value { result ≡ cluster_read line.now s }
    ensures setup_after { setup.new ≡ cluster_line line.now s setup.old }
{
    let p = read_place(line, s);
    let version = read_number(line, p.next, ID_MAX);
    if !is_done(version.next) {
        return false;
    }
    add_cluster(
        setup,
        p.endpoint as u64 * HALF + p.cluster as u64,
        version.value,
    );
    true
}

// Whether a line gives the schema.
pub fn is_setup(name: &[u8]) -> bool
    ensures { result ≡ is_setup name.now }
{
    if same_bytes(name, b"subject") {
        return true;
    }
    if same_bytes(name, b"cluster") {
        return true;
    }
    same_bytes(name, b"attribute")
}

// One of these lines; answers whether it could be read.
pub fn setup_line(
    name: &[u8],
    line: &[u8],
    s: Scan,
    setup: &mut [u64; SETUP],
    texts: &mut [u8; PAGE],
) -> bool
    ensures value { result ≡ setup_read name.now line.now s }
    ensures setup_after { setup.new ≡ setup_line name.now line.now s setup.old }
    ensures texts_after { texts.new ≡ texts_line name.now line.now s setup.old texts.old }
{
    if same_bytes(name, b"subject") {
        return subject_line(line, s, setup);
    }
    if same_bytes(name, b"cluster") {
        return cluster_line(line, s, setup);
    }
    attribute::attribute_line(line, s, setup, texts)
}
