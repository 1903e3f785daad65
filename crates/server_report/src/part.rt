// Blocks filled in from a place of a read on, and the frame around them.
ghost use Rattle.std.specs.Prelude.{◌≡◌, true, ℕ, ◌+◌, ◌≤◌, length};
ghost use Rattle.base_bounds.specs.Bounds.{payload_limit, path_limit};
ghost use Rattle.node_schema.specs.Check.{well_formed};
ghost use Rattle.server_values.specs.Values.{values_of};
ghost use Rattle.server_selection.specs.Request.{filters_in, asked_paths};
ghost use Rattle.server_report.specs.Blocks.{is_nothing, view_of, path_blocks, blocks_from, View};
ghost use Rattle.server_report.specs.Chunk.{block_room};
ghost use Rattle.server_report.specs.Part.{Filling, Made};

use super::block::offer_item;
use super::{ATTRIBUTE_PHASE, BLOCK_ROOM, Filled, ReadPlace};
use base_bounds::{ATTRIBUTES, CLUSTERS};
use im_writer::report::{put_report_close, put_report_empty, put_report_open};
use node_access::Grants;
use node_schema::{TEXTS, WORDS};
use server_selection::asked::Asked;
use server_selection::filters::skipped;
use server_selection::items::{Item, item_at, span_of};
use server_selection::request::{FILTERS_AT, ROW_WORDS, asked_at};

// What an exchange keeps of a read while it is answered: its paths, and what its filters say of each cluster. It is lent as words of the exchange's row.
#[derive(Clone, Copy)]
pub struct OpenRead {
    pub paths: [u64; FILTERS_AT],
    pub asked: usize,
    pub filters: [u64; CLUSTERS],
}

fn is_nothing(x: Item) -> bool
    ensures { result ≡ is_nothing x }
{
    matches!(x, Item::Nothing)
}

// The blocks of one path from one of its places on, one after the other, as many as there is room for.
fn fill_path<'a>(
    w: &'a [u64; WORDS],
    words: &'a [u64; ATTRIBUTES],
    nulls: &'a [bool; ATTRIBUTES],
    texts: &'a [u16; TEXTS],
    versions: &'a [u32; CLUSTERS],
    defaults: &'a [u8],
    edits: &'a [u8],
    level: &'a [u8; CLUSTERS],
    skips: &'a [bool; CLUSTERS],
    p: Asked,
    path: usize,
    first: usize,
    from: ReadPlace,
    out: &mut [u8],
    start: usize,
    room: usize,
) -> Filled
    requires { (well_formed w.now ≡ true) × (start + room ≤ length out.old) }
    ensures { Filling out.old start room from (path_blocks (record { schema = w.now; values = values_of words.now nulls.now texts.now versions.now; defaults = defaults.now; edits = edits.now; grants = record { level = level.entry.now }; skips = skips.now }) path p first) out.new result }
{
    let span = span_of(w, p);
    let mut place = from;
    let mut end = start;
    let mut left = room;
    for i in first..span {
        let x = item_at(w, level, skips, p, i);
        if is_nothing(x) {
            continue;
        }
        let next = offer_item(
            w, words, nulls, texts, versions, defaults, edits, p, x, out, end, left,
        );
        if next == end {
            return Filled {
                end,
                place,
                more: true,
            };
        }
        left -= next - end;
        end = next;
        place = ReadPlace {
            phase: ATTRIBUTE_PHASE,
            path,
            index: i + 1,
            sent: 0,
        };
    }
    Filled {
        end,
        place,
        more: false,
    }
}

// Blocks from a place of the request on, path by path, as many as there is room for.
fn fill<'a>(
    w: &'a [u64; WORDS],
    words: &'a [u64; ATTRIBUTES],
    nulls: &'a [bool; ATTRIBUTES],
    texts: &'a [u16; TEXTS],
    versions: &'a [u32; CLUSTERS],
    defaults: &'a [u8],
    edits: &'a [u8],
    level: &'a [u8; CLUSTERS],
    skips: &'a [bool; CLUSTERS],
    row: &'a [u64; ROW_WORDS],
    asked: usize,
    from: ReadPlace,
    out: &mut [u8],
    start: usize,
) -> Filled
    requires { (well_formed w.now ≡ true) × ((asked ≤ path_limit) × (start + block_room ≤ length out.old)) }
    ensures { Filling out.old start block_room from (blocks_from (record { schema = w.now; values = values_of words.now nulls.now texts.now versions.now; defaults = defaults.now; edits = edits.now; grants = record { level = level.entry.now }; skips = skips.now }) (asked_paths row.now asked) from) out.new result }
{
    let mut place = from;
    let mut i = from.index;
    let mut end = start;
    let mut room = BLOCK_ROOM;
    for path in from.path..asked {
        let p = asked_at(row, path);
        let f = fill_path(
            w, words, nulls, texts, versions, defaults, edits, level, skips, p, path, i, place,
            out, end, room,
        );
        if f.more {
            return f;
        }
        room -= f.end - end;
        end = f.end;
        place = f.place;
        i = 0;
    }
    Filled {
        end,
        place,
        more: false,
    }
}

// One part from `start` of the buffer on: where it ends, where the read goes on, and whether more is promised.
pub fn make_part<'a>(
    w: &'a [u64; WORDS],
    words: &'a [u64; ATTRIBUTES],
    nulls: &'a [bool; ATTRIBUTES],
    texts: &'a [u16; TEXTS],
    versions: &'a [u32; CLUSTERS],
    defaults: &'a [u8],
    edits: &'a [u8],
    g: Grants,
    row: &'a [u64; ROW_WORDS],
    asked: usize,
    from: ReadPlace,
    out: &mut [u8],
    start: usize,
) -> Filled
    requires { (well_formed w.now ≡ true) × ((asked ≤ path_limit) × (start + payload_limit ≤ length out.old)) }
    ensures { Made out.old start from (blocks_from (view_of w.now (values_of words.now nulls.now texts.now versions.now) defaults.now edits.now g (filters_in row.now)) (asked_paths row.now asked) from) out.new result }
{
    let skips = skipped(w, row, versions);
    let level = g.level;
    let p = put_report_open(out, start);
    let f = fill(
        w, words, nulls, texts, versions, defaults, edits, &level, &skips, row, asked, from, out, p,
    );
    let place = f.place;
    if f.end == p {
        return Filled {
            end: put_report_empty(out, start, f.more),
            place,
            more: f.more,
        };
    }
    Filled {
        end: put_report_close(out, f.end, f.more),
        place,
        more: f.more,
    }
}
