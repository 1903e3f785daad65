// A reply kept, sent again, and the next part of a report.
ghost use Rattle.std.specs.Prelude.{◌≡◌, true, ◌<◌, ◌≤◌, length, take, drop};
ghost use Rattle.base_octets.specs.Store.{store};
ghost use Rattle.node_schema.specs.Check.{well_formed};
ghost use Rattle.im_exchange.specs.Rules.{max_turn};
ghost use Rattle.server_writes.specs.Offer.{held_of};
ghost use Rattle.server_replies.specs.Messages.{max_message};
ghost use Rattle.server_replies.specs.Server.{server_with};
ghost use Rattle.server_replies.specs.Row.{kept_at, next_of, next_part, row_right, row_in};
ghost use Rattle.server_replies.specs.Begin.{Begins};

use super::message::put_part;
use super::{MAX_MESSAGE, RowStanding};
use base_bounds::{ATTRIBUTES, CLUSTERS};
use base_octets::put_bytes;
use im_exchange::{NOTHING, PART, Progress};
use im_writer::envelope::CACHE_EDITION;
use node_access::Grants;
use node_schema::{TEXTS, WORDS};
use server_selection::request::ROW_WORDS;

// Where the reply is kept in the bytes lent for it.
const KEPT_AT: usize = 0;

// Keeps a reply.
pub fn keep(kept: &mut [u8; MAX_MESSAGE], reply: &[u8])
    requires { length reply.now ≤ max_message }
    ensures kept_after { kept.new ≡ store kept.old kept_at reply.now }
    ensures whole { length kept.old ≡ max_message }
{
    put_bytes(kept, KEPT_AT, reply);
}

// The kept reply again.
pub fn resend(kept: &[u8; MAX_MESSAGE], len: usize, out: &mut [u8])
    requires { (len ≤ max_message) × (max_message ≤ length out.old) }
    ensures out_after { out.new ≡ store out.old 0 (take len (drop kept_at kept.now)) }
    ensures whole { length kept.now ≡ max_message }
{
    let bytes: &[u8] = kept;
    put_bytes(out, 0, &bytes[KEPT_AT..KEPT_AT + len]);
}

// What a success for a part brings.
pub fn next_of(more: bool) -> u64
    ensures { result ≡ next_of more }
{
    if more { PART } else { NOTHING }
}

// The part after the newest one.
pub fn next_part<'a>(
    w: &'a [u64; WORDS],
    words: &'a [u64; ATTRIBUTES],
    nulls: &'a [bool; ATTRIBUTES],
    texts: &'a [u16; TEXTS],
    versions: &'a [u32; CLUSTERS],
    defaults: &'a [u8],
    edits: &'a [u8],
    g: Grants,
    row: &'a [u64; ROW_WORDS],
    kept: &mut [u8; MAX_MESSAGE],
    t: RowStanding,
    out: &mut [u8],
) -> RowStanding
    requires { (well_formed w.now ≡ true) × ((row_right (row_in row.now t kept.old) ≡ true) × ((t.progress.turn < max_turn) × (max_message ≤ length out.old))) }
    ensures { Begins (next_part (server_with w.now defaults.now (held_of words.now nulls.now texts.now versions.now edits.now) (row_in row.now t kept.old)) g) result row.now row.now kept.new out.old out.new }
{
    let was = t.progress;
    let from = t.place;
    let turn = was.turn + 1;
    let f = put_part(
        w,
        words,
        nulls,
        texts,
        versions,
        defaults,
        edits,
        g,
        row,
        t.asked,
        from,
        out,
        CACHE_EDITION,
        was.last,
        turn as u16,
    );
    let place = f.place;
    let end = f.end;
    keep(kept, &out[0..end]);
    RowStanding {
        progress: Progress {
            last: was.last,
            turn,
            next: next_of(f.more),
            closed: 0,
        },
        asked: t.asked,
        place,
        len: end,
    }
}
