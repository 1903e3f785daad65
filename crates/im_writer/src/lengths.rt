// How long a block will be, known before it is written.
ghost use Rattle.std.specs.Prelude.{◌≡◌, ◌+◌, ◌≤◌, length};
ghost use Rattle.tlv_reader.specs.Value.{datum_in};
ghost use Rattle.tlv_writer.specs.Element.{InPage};
ghost use Rattle.im_writer.specs.Spelling.{spelling};
ghost use Rattle.im_writer.specs.Block.{path_tree, data_block_tree, status_block_tree};

use tlv_reader::Value;
use tlv_writer::Tag;
use tlv_writer::lengths::value_len;
use tlv_writer::width::unsigned_width;

// A path under any context tag.
pub fn path_len(endpoint: u16, cluster: u32, attribute: u32) -> usize
    ensures value { result ≡ length (spelling (path_tree 0 endpoint cluster attribute)) }
    ensures small { result ≤ 19 }
{
    9 + unsigned_width(endpoint as u64)
        + unsigned_width(cluster as u64)
        + unsigned_width(attribute as u64)
}

pub fn data_block_len(
    version: u32,
    endpoint: u16,
    cluster: u32,
    attribute: u32,
    v: Value,
    page: &[u8],
) -> usize
    requires { InPage page.now v }
    ensures value { result ≡ length (spelling (data_block_tree version endpoint cluster attribute (datum_in page.now v))) }
    ensures small { result ≤ 40 + length page.now }
{
    7 + unsigned_width(version as u64)
        + path_len(endpoint, cluster, attribute)
        + value_len(Tag::Context(2), v, page)
}

pub fn status_block_len(endpoint: u16, cluster: u32, attribute: u32, code: u8) -> usize
    ensures value { result ≡ length (spelling (status_block_tree endpoint cluster attribute code)) }
    ensures small { result ≤ 30 }
{
    10 + path_len(endpoint, cluster, attribute) + unsigned_width(code as u64)
}
