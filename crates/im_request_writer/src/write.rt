// A write request of one entry.
ghost use Rattle.std.specs.Prelude.{◌+◌, ◌≤◌, length};
ghost use Rattle.base_octets.specs.Store.{Stored};
ghost use Rattle.tlv_reader.specs.Value.{datum_in};
ghost use Rattle.tlv_writer.specs.Element.{InPage};
ghost use Rattle.im_writer.specs.Spelling.{spelling};
ghost use Rattle.im_writer.specs.Message.{message_tree};
ghost use Rattle.im_request_writer.specs.Request.{version_octets, entry_tree, write_members, write_opening};

use im_writer::block::put_data;
use im_writer::put_revision;
use tlv_reader::Value;
use tlv_writer::{Tag, put_boolean, put_end, put_open, put_unsigned};

// Before the members of the entry.
pub fn put_write_open(b: &mut [u8], at: usize) -> usize
    requires { at + length write_opening ≤ length b.old }
    ensures { Stored b.old at write_opening b.new result }
{
    let p = put_open(b, at, Tag::Anonymous, tlv_reader::STRUCTURE);
    let q = put_boolean(b, p, Tag::Context(0), false);
    let r = put_boolean(b, q, Tag::Context(1), false);
    let s = put_open(b, r, Tag::Context(2), tlv_reader::ARRAY);
    put_open(b, s, Tag::Anonymous, tlv_reader::STRUCTURE)
}

// The version, if one is given.
pub fn put_version(b: &mut [u8], at: usize, given: bool, version: u32) -> usize
    requires { at + length (version_octets given version) ≤ length b.old }
    ensures { Stored b.old at (version_octets given version) b.new result }
{
    if given {
        return put_unsigned(b, at, Tag::Context(0), version as u64);
    }
    at
}

pub fn put_write_request(
    b: &mut [u8],
    at: usize,
    given: bool,
    version: u32,
    endpoint: u16,
    cluster: u32,
    attribute: u32,
    v: Value,
    page: &[u8],
) -> usize
    requires { (InPage page.now v) × (at + length (spelling (message_tree (write_members (entry_tree given version endpoint cluster attribute (datum_in page.now v))))) ≤ length b.old) }
    ensures { Stored b.old at (spelling (message_tree (write_members (entry_tree given version endpoint cluster attribute (datum_in page.now v))))) b.new result }
{
    let p = put_write_open(b, at);
    let q = put_version(b, p, given, version);
    let r = put_data(b, q, endpoint, cluster, attribute, v, page);
    let s = put_end(b, r);
    put_revision(b, s)
}
