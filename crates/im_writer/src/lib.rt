// Messages of the Interaction Model written into a lent buffer: fields in rising tag order, integers and lengths in the least
// width. Every writer stores from `at` on and answers the place after what it stored; the rest of the buffer stays as it was.

#![tactic(auto)]

ghost use Rattle.std.specs.Prelude.{◌+◌, ◌≤◌, length};
ghost use Rattle.base_octets.specs.Store.{Stored};
ghost use Rattle.im_writer.specs.Spelling.{spellings};
ghost use Rattle.im_writer.specs.Message.{revision};

use tlv_writer::{Tag, put_end, put_unsigned};

pub mod block; // block.rt: paths, data and statuses
pub mod envelope; // envelope.rt: the eight bytes before a payload
pub mod lengths; // lengths.rt: how long a block will be
pub mod report; // report.rt: the frame of a report
pub mod response; // response.rt: a status response, the frame of a write response

// The revision of the Interaction Model that we write.
const REVISION: u64 = 10;

// The end of every message: its revision and the end of its structure.
pub fn put_revision(b: &mut [u8], at: usize) -> usize
    requires { at + length (spellings revision) ≤ length b.old }
    ensures { Stored b.old at (spellings revision) b.new result }
{
    let p = put_unsigned(b, at, Tag::Context(255), REVISION);
    put_end(b, p)
}
