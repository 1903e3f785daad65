// Payloads of the Interaction Model, read to their meaning (chapter 10, section 10.6; RULES 4).

#![tactic(auto)]

ghost use Rattle.std.specs.Prelude.{◌≡◌, refl, Some, List, [], ◌∷◌, ℕ, ◌≤◌, ◌*◌, length};
ghost use Rattle.base_bounds.specs.Bounds.{path_limit, filter_limit};
ghost use Rattle.im_members.specs.Pass.{pass_with};
ghost use Rattle.im_requests.specs.declared.Target.{Target};
ghost use Rattle.im_requests.specs.declared.VersionFilter.{VersionFilter};
ghost use Rattle.im_requests.specs.Message.{open_pass, whole_pass, keep_more};
ghost use Rattle.im_requests.specs.Status.{response_in};
ghost use Rattle.im_requests.specs.Read.{target_of, target_size, target_words, asked_at, asked_on, paths_at, version_filter_on, local_f, version_filter_of, version_filter_size, version_filter_words, version_filter_at, version_filters_at, read_in, passed_with, pass_paths, pass_version_filters, readable, read_with, read_left, read_kept};
ghost use Rattle.im_requests.specs.Lists.{asked-reads, paths-listed, version-filter-reads, version-filters-listed};

use base_bounds::{MAX_FILTERS, MAX_PATHS};
use im_blocks::{Filter, Path};
use im_members::{ABSENT, Stop};
use list::Member;
use tlv_reader::{Cursor, Element};

pub mod list; // list.rt: the lists that a message has
pub mod write; // write.rt: Write Requests

// A pass over the members of a message, from the untagged structure on that it starts with.
pub fn begin_message(
    s: &[u8],
    listed: &[bool; 10],
    stops: &[bool; 10],
    at: &mut [usize; 10],
    codes: &mut [u64; 10],
) -> Option<Stop>
    ensures { pass_with result at.new codes.new ≡ open_pass listed.now stops.now s.now }
{
    let start = Cursor { at: 0 };
    let Some(e) = start.head(s) else {
        return im_members::refused(at, codes);
    };
    if e.form != 0 {
        return im_members::refused(at, codes);
    }
    im_members::begin(
        s,
        e,
        base_bounds::MAX_DEPTH,
        tlv_reader::STRUCTURE,
        listed,
        stops,
        at,
        codes,
    )
}

// Whether a pass has ended where the payload ends; one that was refused has not.
pub fn is_whole(m: Option<Stop>, len: usize) -> bool
    ensures { (at codes : List ℕ) → result ≡ whole_pass len (pass_with m at codes) }
{
    match m {
        Some(end) => end.head.next.at == len,
        None => false,
    }
}

const STATUS: [bool; 10] = [
    true, false, false, false, false, false, false, false, false, true,
];

// StatusResponseMessage: a status code (tag 0) and the revision.
pub fn status_response(s: &[u8]) -> Option<u64>
    ensures { result ≡ response_in s.now }
{
    let listed = STATUS;
    let never = im_members::NO_STOP;
    let mut at = [0usize; 10];
    let mut codes = [0u64; 10];
    let m = begin_message(s, &listed, &never, &mut at, &mut codes)?;
    if !is_whole(Some(m), s.len()) {
        return None;
    }
    let code = im_members::number_by(codes[0], 255, false);
    if ABSENT <= code {
        return None;
    }
    let revision = im_members::number_by(codes[9], 255, false);
    if ABSENT <= revision {
        return None;
    }
    Some(code)
}

// What a read path asks for: each part its number, or ABSENT for any.
#[derive(Clone, Copy)]
pub struct Target {
    pub endpoint: u64,
    pub cluster: u64,
    pub attribute: u64,
}

fn target_of(p: Path) -> Target
    ensures { result ≡ target_of p }
{
    Target {
        endpoint: p.endpoint,
        cluster: p.cluster,
        attribute: p.attribute,
    }
}

// A path that is kept is three words: endpoint, cluster, attribute; a filter too: endpoint, cluster, version.
pub const PATH_SIZE: usize = 3;

pub const FILTER_SIZE: usize = 3;

// The words that the first paths and filters of a read are kept in.
pub const PATH_WORDS: usize = MAX_PATHS * PATH_SIZE;

pub const FILTER_WORDS: usize = MAX_FILTERS * FILTER_SIZE;

// A list that was read from an array: how many members it has, and where it ends. The first of them are in words that are lent.
#[derive(Clone, Copy)]
pub struct Listed {
    pub count: usize,
    pub next: Cursor,
}

// None: what is read is no such list.
pub const NO_LIST: Option<Listed> = None;

// One member more of a list, in three words, if there is room.
pub fn keep_three(kept: &mut [u64], limit: usize, count: usize, a: u64, b: u64, c: u64)
    requires { limit * 3 ≤ length kept.old }
    ensures { kept.new ≡ keep_more limit 3 (λ l. l) kept.old count (a ∷ b ∷ c ∷ []) }
{
    if limit <= count {
        return;
    }
    let at = count * 3;
    kept[at] = a;
    kept[at + 1] = b;
    kept[at + 2] = c;
}

impl Member for Target {
    ghost Meant = { Target };

    ghost held = { λ t. t };

    ghost limit = { path_limit };

    ghost size = { target_size };

    ghost words = { target_words };

    ghost at = { asked_at };

    ghost on = { asked_on };

    ghost list = { paths_at };

    ghost reads = { asked-reads };

    ghost listed = { paths-listed };

    ghost wide = { λ t. refl };

    fn read(s: &[u8], e: Element, left: usize) -> Option<(Target, Cursor)> {
        let (p, next) = im_blocks::path_of(s, e, left)?;
        if !im_blocks::askable(p) {
            return None;
        }
        Some((target_of(p), next))
    }

    fn keep(self, kept: &mut [u64], count: usize) {
        keep_three(
            kept,
            MAX_PATHS,
            count,
            self.endpoint,
            self.cluster,
            self.attribute,
        );
    }
}

// A cluster with the version that the reader of it has.
#[derive(Clone, Copy)]
pub struct VersionFilter {
    pub endpoint: u64,
    pub cluster: u64,
    pub version: u64,
}

fn version_filter_of(f: Filter) -> VersionFilter
    ensures { result ≡ version_filter_of f }
{
    let path = f.path;
    VersionFilter {
        endpoint: path.endpoint,
        cluster: path.cluster,
        version: f.version,
    }
}

// A filter with no node in its path.
fn is_local(f: Filter) -> bool
    ensures { result ≡ local_f f }
{
    let path = f.path;
    path.node == ABSENT
}

impl Member for VersionFilter {
    ghost Meant = { VersionFilter };

    ghost held = { λ f. f };

    ghost limit = { filter_limit };

    ghost size = { version_filter_size };

    ghost words = { version_filter_words };

    ghost at = { version_filter_at };

    ghost on = { version_filter_on };

    ghost list = { version_filters_at };

    ghost reads = { version-filter-reads };

    ghost listed = { version-filters-listed };

    ghost wide = { λ f. refl };

    fn read(s: &[u8], e: Element, left: usize) -> Option<(VersionFilter, Cursor)> {
        let (p, next) = im_blocks::filter_of(s, e, left)?;
        if !is_local(p) {
            return None;
        }
        Some((version_filter_of(p), next))
    }

    fn keep(self, kept: &mut [u64], count: usize) {
        keep_three(
            kept,
            MAX_FILTERS,
            count,
            self.endpoint,
            self.cluster,
            self.version,
        );
    }
}

// A read request: how many paths and filters it has.
#[derive(Clone, Copy)]
pub struct ReadCounts {
    pub paths: usize,
    pub filters: usize,
}

const READ: [bool; 10] = [
    true, false, false, true, true, false, false, false, false, true,
];

const EITHER_LIST: [bool; 10] = [
    true, false, false, false, true, false, false, false, false, false,
];

const PATHS: [bool; 10] = [
    true, false, false, false, false, false, false, false, false, false,
];

const FILTERS: [bool; 10] = [
    false, false, false, false, true, false, false, false, false, false,
];

// Where a pass over a request's members stopped, if they are well-formed so far, and how many members a list of it has that was read by
// then.
#[derive(Clone, Copy)]
pub struct Passed {
    pub stop: Option<Stop>,
    pub count: usize,
}

// If the pass has stopped at the paths, they are read, and it goes on.
fn pass_paths(
    s: &[u8],
    m: Option<Stop>,
    before: usize,
    stops: &[bool; 10],
    at: &mut [usize; 10],
    codes: &mut [u64; 10],
    kept: &mut [u64; PATH_WORDS],
) -> Passed
    ensures { passed_with result at.new codes.new kept.new ≡ pass_paths s.now stops.now (pass_with m at.old codes.old) (record { count = before; words = kept.old }) }
{
    let Some(here) = m else {
        return Passed {
            stop: None,
            count: before,
        };
    };
    if here.slot != 0 {
        return Passed {
            stop: m,
            count: before,
        };
    }
    let Some(f) = list::list_of::<Target>(s, here.head, base_bounds::MAX_DEPTH - 1, kept) else {
        let stop = im_members::refused(at, codes);
        return Passed { stop, count: 0 };
    };
    let listed = READ;
    let stop = im_members::resume(
        s,
        f.next,
        base_bounds::MAX_DEPTH - 1,
        tlv_reader::STRUCTURE,
        &listed,
        stops,
        at,
        codes,
    );
    Passed {
        stop,
        count: f.count,
    }
}

// If the pass has stopped at the filters, they are read, and it goes on.
fn pass_version_filters(
    s: &[u8],
    m: Option<Stop>,
    stops: &[bool; 10],
    at: &mut [usize; 10],
    codes: &mut [u64; 10],
    kept: &mut [u64; FILTER_WORDS],
) -> Passed
    ensures { passed_with result at.new codes.new kept.new ≡ pass_version_filters s.now stops.now (pass_with m at.old codes.old) (record { count = 0; words = kept.old }) }
{
    let Some(here) = m else {
        return Passed {
            stop: None,
            count: 0,
        };
    };
    if here.slot != 4 {
        return Passed { stop: m, count: 0 };
    }
    let Some(f) = list::list_of::<VersionFilter>(s, here.head, base_bounds::MAX_DEPTH - 1, kept)
    else {
        let stop = im_members::refused(at, codes);
        return Passed { stop, count: 0 };
    };
    let listed = READ;
    let stop = im_members::resume(
        s,
        f.next,
        base_bounds::MAX_DEPTH - 1,
        tlv_reader::STRUCTURE,
        &listed,
        stops,
        at,
        codes,
    );
    Passed {
        stop,
        count: f.count,
    }
}

// Whether the members that were passed make a request.
fn is_read(len: usize, m: Stop, codes: &[u64; 10]) -> bool
    ensures { (at : List ℕ) → result ≡ readable len (pass_with (Some m) at codes.now) }
{
    if !is_whole(Some(m), len) {
        return false;
    }
    let filtered = im_members::flag_by(codes[3]);
    if ABSENT <= filtered {
        return false;
    }
    let revision = im_members::number_by(codes[9], 255, false);
    revision < ABSENT
}

// The lists come in either order: the pass stops at whichever comes first, then at the other. Of a request that is refused nothing is said
// of what stands in their words.
fn read_lists(
    s: &[u8],
    paths: &mut [u64; PATH_WORDS],
    filters: &mut [u64; FILTER_WORDS],
) -> Option<ReadCounts>
    ensures { read_left result paths.new filters.new ≡ read_kept paths.old filters.old (read_in s.now) }
{
    let listed = READ;
    let either = EITHER_LIST;
    let to_filters = FILTERS;
    let to_paths = PATHS;
    let never = im_members::NO_STOP;
    let mut at = [0usize; 10];
    let mut codes = [0u64; 10];
    let m = begin_message(s, &listed, &either, &mut at, &mut codes);
    let first = pass_paths(s, m, 0, &to_filters, &mut at, &mut codes, paths);
    let second = pass_version_filters(s, first.stop, &to_paths, &mut at, &mut codes, filters);
    let third = pass_paths(
        s,
        second.stop,
        first.count,
        &never,
        &mut at,
        &mut codes,
        paths,
    );
    let end = third.stop?;
    if !is_read(s.len(), end, &codes) {
        return None;
    }
    Some(ReadCounts {
        paths: third.count,
        filters: second.count,
    })
}

// ReadRequestMessage: paths (tag 0), FabricFiltered (tag 3), filters (tag 4) and the revision. One that is refused leaves nothing in the
// words of its lists.
pub fn read_request(
    s: &[u8],
    paths: &mut [u64; PATH_WORDS],
    filters: &mut [u64; FILTER_WORDS],
) -> Option<ReadCounts>
    ensures { read_with result paths.new filters.new ≡ read_kept paths.old filters.old (read_in s.now) }
{
    let r = read_lists(s, paths, filters);
    if r.is_none() {
        *paths = [0u64; PATH_WORDS];
        *filters = [0u64; FILTER_WORDS];
    }
    r
}
