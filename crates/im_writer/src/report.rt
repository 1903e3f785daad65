// The frame of a report. Its blocks are written one after the other between opening and closing; a report with none is written
// whole, over the opening where that was written.
ghost use Rattle.std.specs.Prelude.{◌+◌, ◌≤◌, [], length};
ghost use Rattle.base_octets.specs.Store.{Stored};
ghost use Rattle.im_writer.specs.Spelling.{spelling, spellings};
ghost use Rattle.im_writer.specs.Message.{message_tree, report_members, report_ending, report_opening, report_closing};

use super::put_revision;
use tlv_writer::{Tag, put_boolean, put_end, put_open};

// Before the first block.
pub fn put_report_open(b: &mut [u8], at: usize) -> usize
    requires { at + length report_opening ≤ length b.old }
    ensures { Stored b.old at report_opening b.new result }
{
    let p = put_open(b, at, Tag::Anonymous, tlv_reader::STRUCTURE);
    put_open(b, p, Tag::Context(1), tlv_reader::ARRAY)
}

// MoreChunkedMessages, or SuppressResponse; then the revision and the message's end.
pub fn put_report_ending(b: &mut [u8], at: usize, more: bool) -> usize
    requires { at + length (spellings (report_ending more)) ≤ length b.old }
    ensures { Stored b.old at (spellings (report_ending more)) b.new result }
{
    if more {
        let p = put_boolean(b, at, Tag::Context(3), true);
        return put_revision(b, p);
    }
    let q = put_boolean(b, at, Tag::Context(4), true);
    put_revision(b, q)
}

// After the last block.
pub fn put_report_close(b: &mut [u8], at: usize, more: bool) -> usize
    requires { at + length (report_closing more) ≤ length b.old }
    ensures { Stored b.old at (report_closing more) b.new result }
{
    let p = put_end(b, at);
    put_report_ending(b, p, more)
}

// A report with no block.
pub fn put_report_empty(b: &mut [u8], at: usize, more: bool) -> usize
    requires { at + length (spelling (message_tree (report_members [] more))) ≤ length b.old }
    ensures { Stored b.old at (spelling (message_tree (report_members [] more))) b.new result }
{
    let p = put_open(b, at, Tag::Anonymous, tlv_reader::STRUCTURE);
    put_report_ending(b, p, more)
}
