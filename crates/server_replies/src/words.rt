// How the exchange stands, read from the row's words and put back.
ghost use Rattle.std.specs.Prelude.{◌≡◌, ◌≤◌};
ghost use Rattle.base_octets.specs.Store.{store};
ghost use Rattle.server_selection.specs.Request.{standing_at};
ghost use Rattle.server_replies.specs.Row.{kept_right, row_in, row_right, served_right, standing_in, standing_words};

use super::{MAX_MESSAGE, RowStanding};
use base_bounds::{ATTRIBUTES, MAX_PATHS};
use im_exchange::{FIRST_REPLY, MAX_TURN, NOTHING, PART, Progress};
use im_writer::envelope::EXCHANGE_LIMIT;
use server_report::{ATTRIBUTE_PHASE, ReadPlace};
use server_selection::request::{ROW_WORDS, STANDING_AT};

pub fn read_standing(row: &[u64; ROW_WORDS]) -> RowStanding
    ensures { result ≡ standing_in row.now }
{
    RowStanding {
        progress: Progress {
            last: row[STANDING_AT],
            turn: row[STANDING_AT + 1],
            next: row[STANDING_AT + 2],
            closed: row[STANDING_AT + 3],
        },
        asked: row[STANDING_AT + 4] as usize,
        place: ReadPlace {
            phase: row[STANDING_AT + 8] as usize,
            path: row[STANDING_AT + 5] as usize,
            index: row[STANDING_AT + 6] as usize,
            sent: row[STANDING_AT + 9] as usize,
        },
        len: row[STANDING_AT + 7] as usize,
    }
}

pub fn put_standing(row: &mut [u64; ROW_WORDS], t: RowStanding)
    ensures { row.new ≡ store row.old standing_at (standing_words t) }
{
    let progress = t.progress;
    let place = t.place;
    row[STANDING_AT] = progress.last;
    row[STANDING_AT + 1] = progress.turn;
    row[STANDING_AT + 2] = progress.next;
    row[STANDING_AT + 3] = progress.closed;
    row[STANDING_AT + 4] = t.asked as u64;
    row[STANDING_AT + 5] = place.path as u64;
    row[STANDING_AT + 6] = place.index as u64;
    row[STANDING_AT + 7] = t.len as u64;
    row[STANDING_AT + 8] = place.phase as u64;
    row[STANDING_AT + 9] = place.sent as u64;
}

// A kept reply: none, or a message with its envelope.
fn kept_ok(len: usize) -> bool
    ensures { result ≡ kept_right len }
{
    if len == 0 {
        return true;
    }
    if len < im_envelope::LENGTH {
        return false;
    }
    len <= MAX_MESSAGE
}

// An exchange that was served has a reply; where none was, nothing was promised, closed or kept.
fn served_ok(p: Progress, len: usize) -> bool
    ensures { result ≡ served_right p len }
{
    if p.last != 0 {
        return FIRST_REPLY <= p.turn;
    }
    if p.turn != 0 {
        return false;
    }
    if p.next != NOTHING {
        return false;
    }
    if p.closed != 0 {
        return false;
    }
    len == 0
}

// Numbers in their widths, the place reached, which is one of the request's, and of which nothing was sent, and the kept reply: refusal 2 where they break the
// rules.
pub fn row_ok(t: RowStanding) -> bool
    ensures { (row kept : _) → result ≡ row_right (row_in row t kept) }
{
    let progress = t.progress;
    let place = t.place;
    if EXCHANGE_LIMIT <= progress.last {
        return false;
    }
    if MAX_TURN < progress.turn {
        return false;
    }
    if PART < progress.next {
        return false;
    }
    if 1 < progress.closed {
        return false;
    }
    if MAX_PATHS < t.asked {
        return false;
    }
    if place.phase != ATTRIBUTE_PHASE {
        return false;
    }
    if t.asked < place.path {
        return false;
    }
    if ATTRIBUTES < place.index {
        return false;
    }
    if place.sent != 0 {
        return false;
    }
    if !kept_ok(t.len) {
        return false;
    }
    served_ok(progress, t.len)
}
