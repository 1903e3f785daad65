// A Write Response: one status for each entry of the write.
ghost use Rattle.std.specs.Prelude.{◌≡◌, ℕ, ◌<◌, ◌≤◌, ◌+◌, ◌*◌, length, take};
ghost use Rattle.base_bounds.specs.Bounds.{payload_limit, write_limit};
ghost use Rattle.base_octets.specs.Store.{Stored};
ghost use Rattle.im_requests.specs.Write.{entry_in};
ghost use Rattle.im_writer.specs.Spelling.{joined};
ghost use Rattle.server_writes.specs.Entry.{InWidth, entries_in};
ghost use Rattle.server_writes.specs.Response.{answer_trees, response_payload};

use base_bounds::MAX_WRITES;
use im_requests::write::{ENTRY_WORDS, entry_in};
use im_writer::response::{put_write_response_close, put_write_response_open, put_write_status};

// The statuses, one after the other.
fn put_statuses(
    entries: &[u64; ENTRY_WORDS],
    codes: [u8; MAX_WRITES],
    n: usize,
    out: &mut [u8],
    start: usize,
) -> usize
    requires { (n ≤ write_limit) × (((i : ℕ) → i < n → InWidth (entry_in entries.now i)) × (start + n * 27 ≤ length out.old)) }
    ensures { Stored out.old start (joined (answer_trees (entries_in entries.now n) (take n codes))) out.new result }
{
    let mut at = start;
    for i in 0..n {
        let x = entry_in(entries, i);
        at = put_write_status(
            out,
            at,
            x.endpoint as u16,
            x.cluster as u32,
            x.attribute as u32,
            codes[i],
        );
    }
    at
}

// The whole payload.
pub fn put_response(
    entries: &[u64; ENTRY_WORDS],
    codes: [u8; MAX_WRITES],
    n: usize,
    out: &mut [u8],
    start: usize,
) -> usize
    requires { (n ≤ write_limit) × (((i : ℕ) → i < n → InWidth (entry_in entries.now i)) × (start + payload_limit ≤ length out.old)) }
    ensures { Stored out.old start (response_payload (entries_in entries.now n) (take n codes)) out.new result }
{
    let p = put_write_response_open(out, start);
    let q = put_statuses(entries, codes, n, out, p);
    put_write_response_close(out, q)
}
