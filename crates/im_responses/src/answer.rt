// The Write Response, read to its meaning (chapter 10, section 10.6.7; RULES 4.14 and 6.3).
ghost use Rattle.std.specs.Prelude.{◌≡◌};
ghost use Rattle.im_blocks.specs.Status.{answer_at};
ghost use Rattle.im_requests.specs.Message.{list_on};
ghost use Rattle.im_responses.specs.Answered.{answers_at, only_of, answered_in};
ghost use Rattle.tlv_reader.specs.Walk.{read_of};

use im_blocks::Answer;
use im_members::ABSENT;
use tlv_reader::{Cursor, Element};

// The one member of an array whose members start here.
fn one_from(s: &[u8], c: Cursor, left: usize) -> Option<(Answer, Cursor)>
    ensures { result ≡ read_of (only_of (answers_at left s.now c.at)) }
{
    let e = c.head(s)?;
    if e.kind == tlv_reader::END {
        return None;
    }
    if !tlv_reader::allowed(tlv_reader::ARRAY, e.form) {
        return None;
    }
    let (x, after) = im_blocks::answer_of(s, e, left)?;
    let f = after.head(s)?;
    if f.kind == tlv_reader::END {
        return Some((x, f.next));
    }
    None
}

// The one member of the array whose head was read.
fn one_of(s: &[u8], e: Element, left: usize) -> Option<(Answer, Cursor)>
    ensures { result ≡ read_of (only_of (list_on answer_at left s.now e)) }
{
    if e.kind != tlv_reader::ARRAY {
        return None;
    }
    if left == 0 {
        return None;
    }
    one_from(s, e.next, left - 1)
}

const RESPONSE: [bool; 10] = [
    true, false, false, false, false, false, false, false, false, true,
];

// WriteResponseMessage: statuses (tag 0) and the revision.
pub fn write_response(s: &[u8]) -> Option<Answer>
    ensures { result ≡ answered_in s.now }
{
    let listed = RESPONSE;
    let stops = im_members::FIRST;
    let mut at = [0usize; 10];
    let mut codes = [0u64; 10];
    let m = im_requests::begin_message(s, &listed, &stops, &mut at, &mut codes)?;
    if 10 <= m.slot {
        return None;
    }
    let (x, after) = one_of(s, m.head, base_bounds::MAX_DEPTH - 1)?;
    let z = im_members::finish(
        s,
        after,
        base_bounds::MAX_DEPTH - 1,
        tlv_reader::STRUCTURE,
        &listed,
        &mut at,
        &mut codes,
    )?;
    if !im_requests::is_whole(Some(z), s.len()) {
        return None;
    }
    let revision = im_members::number_by(codes[9], 255, false);
    if ABSENT <= revision {
        return None;
    }
    Some(x)
}
