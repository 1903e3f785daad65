// A read request. Its filters are written one after the other after their own opening, which is left out if there are none.
ghost use Rattle.std.specs.Prelude.{◌+◌, ◌≤◌, length};
ghost use Rattle.base_octets.specs.Store.{Stored};
ghost use Rattle.im_writer.specs.Spelling.{spelling};
ghost use Rattle.im_request_writer.specs.Request.{wildcard_tree, cluster_tree, filter_tree, read_opening, filters_opening, read_closing};

use im_writer::put_revision;
use tlv_writer::{Tag, put_boolean, put_end, put_open, put_unsigned};

// The full wildcard path.
pub fn put_wildcard(b: &mut [u8], at: usize) -> usize
    requires { at + length (spelling wildcard_tree) ≤ length b.old }
    ensures { Stored b.old at (spelling wildcard_tree) b.new result }
{
    let p = put_open(b, at, Tag::Anonymous, tlv_reader::LIST);
    put_end(b, p)
}

// Before the filters.
pub fn put_read_open(b: &mut [u8], at: usize) -> usize
    requires { at + length read_opening ≤ length b.old }
    ensures { Stored b.old at read_opening b.new result }
{
    let p = put_open(b, at, Tag::Anonymous, tlv_reader::STRUCTURE);
    let q = put_open(b, p, Tag::Context(0), tlv_reader::ARRAY);
    let r = put_wildcard(b, q);
    let s = put_end(b, r);
    put_boolean(b, s, Tag::Context(3), false)
}

// Before the first filter.
pub fn put_filters_open(b: &mut [u8], at: usize) -> usize
    requires { at + length filters_opening ≤ length b.old }
    ensures { Stored b.old at filters_opening b.new result }
{
    put_open(b, at, Tag::Context(4), tlv_reader::ARRAY)
}

// A filter's cluster.
pub fn put_cluster(b: &mut [u8], at: usize, endpoint: u16, cluster: u32) -> usize
    requires { at + length (spelling (cluster_tree endpoint cluster)) ≤ length b.old }
    ensures { Stored b.old at (spelling (cluster_tree endpoint cluster)) b.new result }
{
    let p = put_open(b, at, Tag::Context(0), tlv_reader::LIST);
    let q = put_unsigned(b, p, Tag::Context(1), endpoint as u64);
    let r = put_unsigned(b, q, Tag::Context(2), cluster as u64);
    put_end(b, r)
}

pub fn put_filter(b: &mut [u8], at: usize, endpoint: u16, cluster: u32, version: u32) -> usize
    requires { at + length (spelling (filter_tree endpoint cluster version)) ≤ length b.old }
    ensures { Stored b.old at (spelling (filter_tree endpoint cluster version)) b.new result }
{
    let p = put_open(b, at, Tag::Anonymous, tlv_reader::STRUCTURE);
    let q = put_cluster(b, p, endpoint, cluster);
    let r = put_unsigned(b, q, Tag::Context(1), version as u64);
    put_end(b, r)
}

// After the last filter, if there were any; else after the opening of the request.
pub fn put_read_close(b: &mut [u8], at: usize, any: bool) -> usize
    requires { at + length (read_closing any) ≤ length b.old }
    ensures { Stored b.old at (read_closing any) b.new result }
{
    if any {
        let p = put_end(b, at);
        return put_revision(b, p);
    }
    put_revision(b, at)
}
