// A status response, and the frame of a write response, whose statuses are written one after the other between opening and closing.
ghost use Rattle.std.specs.Prelude.{◌+◌, ◌≤◌, length};
ghost use Rattle.base_octets.specs.Store.{Stored};
ghost use Rattle.im_writer.specs.Spelling.{spelling};
ghost use Rattle.im_writer.specs.Block.{answer_tree};
ghost use Rattle.im_writer.specs.Message.{message_tree, status_members, response_opening, response_closing};

use super::block::put_answer;
use super::put_revision;
use tlv_writer::{Tag, put_end, put_open, put_unsigned};

pub fn put_status_response(b: &mut [u8], at: usize, code: u8) -> usize
    requires { at + length (spelling (message_tree (status_members code))) ≤ length b.old }
    ensures { Stored b.old at (spelling (message_tree (status_members code))) b.new result }
{
    let p = put_open(b, at, Tag::Anonymous, tlv_reader::STRUCTURE);
    let q = put_unsigned(b, p, Tag::Context(0), code as u64);
    put_revision(b, q)
}

// Before the first status.
pub fn put_write_response_open(b: &mut [u8], at: usize) -> usize
    requires { at + length response_opening ≤ length b.old }
    ensures { Stored b.old at response_opening b.new result }
{
    let p = put_open(b, at, Tag::Anonymous, tlv_reader::STRUCTURE);
    put_open(b, p, Tag::Context(0), tlv_reader::ARRAY)
}

pub fn put_write_status(
    b: &mut [u8],
    at: usize,
    endpoint: u16,
    cluster: u32,
    attribute: u32,
    code: u8,
) -> usize
    requires { at + length (spelling (answer_tree endpoint cluster attribute code)) ≤ length b.old }
    ensures { Stored b.old at (spelling (answer_tree endpoint cluster attribute code)) b.new result }
{
    let p = put_open(b, at, Tag::Anonymous, tlv_reader::STRUCTURE);
    put_answer(b, p, endpoint, cluster, attribute, code)
}

// After the last status.
pub fn put_write_response_close(b: &mut [u8], at: usize) -> usize
    requires { at + length response_closing ≤ length b.old }
    ensures { Stored b.old at response_closing b.new result }
{
    let p = put_end(b, at);
    put_revision(b, p)
}
