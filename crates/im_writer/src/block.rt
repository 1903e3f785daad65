// Information blocks: an attribute's path, its data, its status.
ghost use Rattle.std.specs.Prelude.{◌+◌, ◌≤◌, length};
ghost use Rattle.base_octets.specs.Store.{Stored};
ghost use Rattle.tlv_reader.specs.Value.{datum_in};
ghost use Rattle.tlv_writer.specs.Element.{InPage};
ghost use Rattle.im_writer.specs.Spelling.{spelling, spellings};
ghost use Rattle.im_writer.specs.Block.{path_tree, data_members, data_block_tree, answer_members, status_block_tree};

use tlv_reader::Value;
use tlv_writer::{Tag, put_end, put_open, put_unsigned, put_value};

// A path under a context tag.
pub fn put_path(
    b: &mut [u8],
    at: usize,
    tag: u8,
    endpoint: u16,
    cluster: u32,
    attribute: u32,
) -> usize
    requires { at + length (spelling (path_tree tag endpoint cluster attribute)) ≤ length b.old }
    ensures { Stored b.old at (spelling (path_tree tag endpoint cluster attribute)) b.new result }
{
    let p = put_open(b, at, Tag::Context(tag), tlv_reader::LIST);
    let q = put_unsigned(b, p, Tag::Context(2), endpoint as u64);
    let r = put_unsigned(b, q, Tag::Context(3), cluster as u64);
    let s = put_unsigned(b, r, Tag::Context(4), attribute as u64);
    put_end(b, s)
}

// Path and data, with the end of what holds them.
pub fn put_data(
    b: &mut [u8],
    at: usize,
    endpoint: u16,
    cluster: u32,
    attribute: u32,
    v: Value,
    page: &[u8],
) -> usize
    requires { (InPage page.now v) × (at + length (spellings (data_members endpoint cluster attribute (datum_in page.now v))) ≤ length b.old) }
    ensures { Stored b.old at (spellings (data_members endpoint cluster attribute (datum_in page.now v))) b.new result }
{
    let p = put_path(b, at, 1, endpoint, cluster, attribute);
    let q = put_value(b, p, Tag::Context(2), v, page);
    put_end(b, q)
}

// A block of a report that shows a value.
pub fn put_data_block(
    b: &mut [u8],
    at: usize,
    version: u32,
    endpoint: u16,
    cluster: u32,
    attribute: u32,
    v: Value,
    page: &[u8],
) -> usize
    requires { (InPage page.now v) × (at + length (spelling (data_block_tree version endpoint cluster attribute (datum_in page.now v))) ≤ length b.old) }
    ensures { Stored b.old at (spelling (data_block_tree version endpoint cluster attribute (datum_in page.now v))) b.new result }
{
    let p = put_open(b, at, Tag::Anonymous, tlv_reader::STRUCTURE);
    let q = put_open(b, p, Tag::Context(1), tlv_reader::STRUCTURE);
    let r = put_unsigned(b, q, Tag::Context(0), version as u64);
    let s = put_data(b, r, endpoint, cluster, attribute, v, page);
    put_end(b, s)
}

// Path and status, with the end of what holds them.
pub fn put_answer(
    b: &mut [u8],
    at: usize,
    endpoint: u16,
    cluster: u32,
    attribute: u32,
    code: u8,
) -> usize
    requires { at + length (spellings (answer_members endpoint cluster attribute code)) ≤ length b.old }
    ensures { Stored b.old at (spellings (answer_members endpoint cluster attribute code)) b.new result }
{
    let p = put_path(b, at, 0, endpoint, cluster, attribute);
    let q = put_open(b, p, Tag::Context(1), tlv_reader::STRUCTURE);
    let r = put_unsigned(b, q, Tag::Context(0), code as u64);
    let s = put_end(b, r);
    put_end(b, s)
}

// A block of a report that refuses a path.
pub fn put_status_block(
    b: &mut [u8],
    at: usize,
    endpoint: u16,
    cluster: u32,
    attribute: u32,
    code: u8,
) -> usize
    requires { at + length (spelling (status_block_tree endpoint cluster attribute code)) ≤ length b.old }
    ensures { Stored b.old at (spelling (status_block_tree endpoint cluster attribute code)) b.new result }
{
    let p = put_open(b, at, Tag::Anonymous, tlv_reader::STRUCTURE);
    let q = put_open(b, p, Tag::Context(0), tlv_reader::STRUCTURE);
    let r = put_answer(b, q, endpoint, cluster, attribute, code);
    put_end(b, r)
}
