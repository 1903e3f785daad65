// Information blocks of the Interaction Model, read (chapter 10, section 10.5).

#![tactic(auto)]

ghost use Rattle.std.specs.Prelude.{◌≡◌};
ghost use Rattle.im_blocks.specs.Path.{sound_path, path_on, banned, loose, askable_p, exact_p};
ghost use Rattle.im_blocks.specs.Filter.{sound_cluster, cluster_on, filter_on};
ghost use Rattle.im_blocks.specs.Status.{sound_status, status_on, status_at, answer_on};
ghost use Rattle.im_blocks.specs.Data.{data_on, data_read, report_on, report_read};
ghost use Rattle.tlv_reader.specs.Walk.{read_of};

use im_members::{ABSENT, WRONG};
use tlv_reader::{Cursor, Element, STRUCTURE};

// An attribute path: each part its number, ABSENT, or (of a list index) NULL.
#[derive(Clone, Copy)]
pub struct Path {
    pub compress: u64,
    pub node: u64,
    pub endpoint: u64,
    pub cluster: u64,
    pub attribute: u64,
    pub index: u64,
}

// The tags that a schema lists.
const PATH: [bool; 10] = [
    true, true, true, true, true, true, false, false, false, false,
];

fn sound_path(p: Path) -> bool
    ensures { result ≡ sound_path p }
{
    if p.compress == WRONG {
        return false;
    }
    if p.node == WRONG {
        return false;
    }
    if p.endpoint == WRONG {
        return false;
    }
    if p.cluster == WRONG {
        return false;
    }
    if p.attribute == WRONG {
        return false;
    }
    p.index != WRONG
}

// AttributePathIB: a list with context tags 0 to 5, whose head was read.
pub fn path_of(s: &[u8], e: Element, left: usize) -> Option<(Path, Cursor)>
    ensures { result ≡ read_of (path_on left s.now e) }
{
    let listed = PATH;
    let stops = im_members::NO_STOP;
    let mut at = [0usize; 10];
    let mut codes = [0u64; 10];
    let m = im_members::begin(
        s,
        e,
        left,
        tlv_reader::LIST,
        &listed,
        &stops,
        &mut at,
        &mut codes,
    )?;
    let p = Path {
        compress: im_members::flag_by(codes[0]),
        node: im_members::wide_by(codes[1]),
        endpoint: im_members::number_by(codes[2], 65535, false),
        cluster: im_members::number_by(codes[3], 4294967295, false),
        attribute: im_members::number_by(codes[4], 4294967295, false),
        index: im_members::number_by(codes[5], 65535, true),
    };
    if !sound_path(p) {
        return None;
    }
    Some((p, m.head.next))
}

// A path with compression, a node or a list index gets 80 (RULES 6.11).
fn is_banned(p: Path) -> bool
    ensures { result ≡ banned p }
{
    if p.compress == 1 {
        return true;
    }
    if p.node != ABSENT {
        return true;
    }
    p.index != ABSENT
}

// A path with no cluster that names an attribute other than a global one.
fn is_loose(p: Path) -> bool
    ensures { result ≡ loose p }
{
    if p.cluster != ABSENT {
        return false;
    }
    if p.attribute == ABSENT {
        return false;
    }
    if p.attribute < 0xFFF8 {
        return true;
    }
    0xFFFD < p.attribute
}

// A path that a read request may have.
pub fn askable(p: Path) -> bool
    ensures { result ≡ askable_p p }
{
    if is_banned(p) {
        return false;
    }
    !is_loose(p)
}

// A path that names one attribute, as in a write or a report.
pub fn exact(p: Path) -> bool
    ensures { result ≡ exact_p p }
{
    if is_banned(p) {
        return false;
    }
    if p.endpoint == ABSENT {
        return false;
    }
    if p.cluster == ABSENT {
        return false;
    }
    p.attribute != ABSENT
}

// A cluster path, as a filter has it.
#[derive(Clone, Copy)]
pub struct ClusterPath {
    pub node: u64,
    pub endpoint: u64,
    pub cluster: u64,
}

const TRIPLE: [bool; 10] = [
    true, true, true, false, false, false, false, false, false, false,
];

fn sound_cluster(p: ClusterPath) -> bool
    ensures { result ≡ sound_cluster p }
{
    if p.node == WRONG {
        return false;
    }
    if ABSENT <= p.endpoint {
        return false;
    }
    p.cluster < ABSENT
}

// ClusterPathIB: a list with context tags 0 to 2, whose head was read.
pub fn cluster_of(s: &[u8], e: Element, left: usize) -> Option<(ClusterPath, Cursor)>
    ensures { result ≡ read_of (cluster_on left s.now e) }
{
    let listed = TRIPLE;
    let stops = im_members::NO_STOP;
    let mut at = [0usize; 10];
    let mut codes = [0u64; 10];
    let m = im_members::begin(
        s,
        e,
        left,
        tlv_reader::LIST,
        &listed,
        &stops,
        &mut at,
        &mut codes,
    )?;
    let p = ClusterPath {
        node: im_members::wide_by(codes[0]),
        endpoint: im_members::number_by(codes[1], 65535, false),
        cluster: im_members::number_by(codes[2], 4294967295, false),
    };
    if !sound_cluster(p) {
        return None;
    }
    Some((p, m.head.next))
}

// A data version filter.
#[derive(Clone, Copy)]
pub struct Filter {
    pub path: ClusterPath,
    pub version: u64,
}

const PAIR: [bool; 10] = [
    true, true, false, false, false, false, false, false, false, false,
];

// DataVersionFilterIB: a structure with a cluster path (tag 0) and a version (tag 1), whose head was read.
pub fn filter_of(s: &[u8], e: Element, left: usize) -> Option<(Filter, Cursor)>
    ensures { result ≡ read_of (filter_on left s.now e) }
{
    if left == 0 {
        return None;
    }
    let listed = PAIR;
    let stops = im_members::FIRST;
    let mut at = [0usize; 10];
    let mut codes = [0u64; 10];
    let m = im_members::begin(s, e, left, STRUCTURE, &listed, &stops, &mut at, &mut codes)?;
    if 10 <= m.slot {
        return None;
    }
    let (path, after) = cluster_of(s, m.head, left - 1)?;
    let z = im_members::finish(s, after, left - 1, STRUCTURE, &listed, &mut at, &mut codes)?;
    let version = im_members::number_by(codes[1], 4294967295, false);
    if ABSENT <= version {
        return None;
    }
    Some((Filter { path, version }, z.head.next))
}

// A status: its code, and a cluster's own or ABSENT.
#[derive(Clone, Copy)]
pub struct Status {
    pub code: u64,
    pub cluster: u64,
}

fn sound_status(x: Status) -> bool
    ensures { result ≡ sound_status x }
{
    if ABSENT <= x.code {
        return false;
    }
    x.cluster != WRONG
}

// StatusIB: a structure with context tags 0 and 1, whose head was read.
pub fn status_of(s: &[u8], e: Element, left: usize) -> Option<(Status, Cursor)>
    ensures { result ≡ read_of (status_on left s.now e) }
{
    let listed = PAIR;
    let stops = im_members::NO_STOP;
    let mut at = [0usize; 10];
    let mut codes = [0u64; 10];
    let m = im_members::begin(s, e, left, STRUCTURE, &listed, &stops, &mut at, &mut codes)?;
    let x = Status {
        code: im_members::number_by(codes[0], 255, false),
        cluster: im_members::number_by(codes[1], 255, false),
    };
    if !sound_status(x) {
        return None;
    }
    Some((x, m.head.next))
}

// The same where its head is still to be read.
fn status_at(s: &[u8], c: Cursor, left: usize) -> Option<(Status, Cursor)>
    ensures { result ≡ read_of (status_at left s.now c.at) }
{
    let e = c.head(s)?;
    status_of(s, e, left)
}

// An attribute's status.
#[derive(Clone, Copy)]
pub struct Answer {
    pub path: Path,
    pub status: Status,
}

// AttributeStatusIB: a structure with a path (tag 0) and a status (tag 1), whose head was read.
pub fn answer_of(s: &[u8], e: Element, left: usize) -> Option<(Answer, Cursor)>
    ensures { result ≡ read_of (answer_on left s.now e) }
{
    if left == 0 {
        return None;
    }
    let listed = PAIR;
    let stops = im_members::FIRST;
    let mut at = [0usize; 10];
    let mut codes = [0u64; 10];
    let m = im_members::begin(s, e, left, STRUCTURE, &listed, &stops, &mut at, &mut codes)?;
    if 10 <= m.slot {
        return None;
    }
    let (path, after) = path_of(s, m.head, left - 1)?;
    let z = im_members::finish(s, after, left - 1, STRUCTURE, &listed, &mut at, &mut codes)?;
    let q = at[1];
    if q == 0 {
        return None;
    }
    let (status, _) = status_at(s, Cursor { at: q - 1 }, left - 1)?;
    Some((Answer { path, status }, z.head.next))
}

// An attribute's data: its version or ABSENT, its path, and where its data stands.
#[derive(Clone, Copy)]
pub struct Data {
    pub version: u64,
    pub path: Path,
    pub place: usize,
}

// AttributeDataIB: a structure with a version (tag 0, optional), a path (tag 1) and data (tag 2), whose head was read.
pub fn data_of(s: &[u8], e: Element, left: usize) -> Option<(Data, Cursor)>
    ensures { result ≡ data_read (data_on left s.now e) }
{
    if left == 0 {
        return None;
    }
    let listed = TRIPLE;
    let stops = im_members::SECOND;
    let mut at = [0usize; 10];
    let mut codes = [0u64; 10];
    let m = im_members::begin(s, e, left, STRUCTURE, &listed, &stops, &mut at, &mut codes)?;
    if 10 <= m.slot {
        return None;
    }
    let (path, after) = path_of(s, m.head, left - 1)?;
    let z = im_members::finish(s, after, left - 1, STRUCTURE, &listed, &mut at, &mut codes)?;
    let q = at[2];
    if q == 0 {
        return None;
    }
    let version = im_members::number_by(codes[0], 4294967295, false);
    if version == WRONG {
        return None;
    }
    let place = q - 1;
    let data = Data {
        version,
        path,
        place,
    };
    Some((data, z.head.next))
}

// A block of a report: an attribute's data, or its status.
#[derive(Clone, Copy)]
pub enum Report {
    Shown(Data),
    Refused(Answer),
}

// AttributeReportIB: a structure with a status (tag 0) or data (tag 1), not both, whose head was read.
pub fn report_of(s: &[u8], e: Element, left: usize) -> Option<(Report, Cursor)>
    ensures { result ≡ report_read (report_on left s.now e) }
{
    if left == 0 {
        return None;
    }
    let listed = PAIR;
    let mut at = [0usize; 10];
    let mut codes = [0u64; 10];
    let m = im_members::begin(s, e, left, STRUCTURE, &listed, &listed, &mut at, &mut codes)?;
    if 10 <= m.slot {
        return None;
    }
    if m.slot == 0 {
        let (x, after) = answer_of(s, m.head, left - 1)?;
        let z = im_members::finish(s, after, left - 1, STRUCTURE, &listed, &mut at, &mut codes)?;
        if at[1] != 0 {
            return None;
        }
        return Some((Report::Refused(x), z.head.next));
    }
    let (d, after) = data_of(s, m.head, left - 1)?;
    let z = im_members::finish(s, after, left - 1, STRUCTURE, &listed, &mut at, &mut codes)?;
    if at[0] != 0 {
        return None;
    }
    Some((Report::Shown(d), z.head.next))
}
