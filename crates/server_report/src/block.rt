// One block offered to the buffer: stored if there is room for it, else nothing is.
ghost use Rattle.std.specs.Prelude.{◌≡◌, true, ℕ, ◌<◌, ◌+◌, ◌≤◌, leb, length};
ghost use Rattle.tlv_reader.specs.Value.{datum_in};
ghost use Rattle.tlv_writer.specs.Element.{InPage};
ghost use Rattle.im_writer.specs.Spelling.{spelling};
ghost use Rattle.im_writer.specs.Block.{Block, data_block_tree};
ghost use Rattle.node_schema.specs.Rows.{count_of_attributes};
ghost use Rattle.node_schema.specs.Check.{well_formed};
ghost use Rattle.server_selection.specs.declared.items.Item.TheVariants as variants;
ghost use Rattle.server_report.specs.Offer.{Offered, OfferedIf};
ghost use Rattle.server_values.specs.Values.{values_of};
ghost use Rattle.server_report.specs.Blocks.{value_block, block_of};

use base_bounds::{ATTRIBUTES, CLUSTERS};
use im_writer::block::{put_data_block, put_status_block};
use im_writer::lengths::{data_block_len, status_block_len};
use node_schema::{TEXTS, WORDS};
use server_selection::asked::Asked;
use server_selection::items::Item;
use server_values::{text_at, value_at};
use tlv_reader::Value;

// What a block has at most beside its text.
const BESIDE_TEXT: usize = 40;

// Whether there is room for any block with a text of n bytes.
fn is_ample(room: usize, n: usize) -> bool
    ensures { result ≡ leb (40 + n) room }
{
    if room < BESIDE_TEXT {
        false
    } else {
        n <= room - BESIDE_TEXT
    }
}

// Whether there is room for a block. How long it will be is found only where that decides: most are far from the end of the room.
fn data_fits(
    version: u32,
    endpoint: u16,
    cluster: u32,
    attribute: u32,
    v: Value,
    page: &[u8],
    room: usize,
) -> bool
    requires { InPage page.now v }
    ensures { result ≡ leb (length (spelling (data_block_tree version endpoint cluster attribute (datum_in page.now v)))) room }
{
    if is_ample(room, page.len()) {
        return true;
    }
    data_block_len(version, endpoint, cluster, attribute, v, page) <= room
}

fn offer_data(
    version: u32,
    endpoint: u16,
    cluster: u32,
    attribute: u32,
    v: Value,
    page: &[u8],
    out: &mut [u8],
    at: usize,
    room: usize,
) -> usize
    requires { (InPage page.now v) × (at + room ≤ length out.old) }
    ensures { Offered out.old at room (Block.value version endpoint cluster attribute (datum_in page.now v)) out.new result }
{
    if !data_fits(version, endpoint, cluster, attribute, v, page, room) {
        return at;
    }
    put_data_block(out, at, version, endpoint, cluster, attribute, v, page)
}

fn offer_status(
    endpoint: u16,
    cluster: u32,
    attribute: u32,
    code: u8,
    out: &mut [u8],
    at: usize,
    room: usize,
) -> usize
    requires { at + room ≤ length out.old }
    ensures { Offered out.old at room (Block.status endpoint cluster attribute code) out.new result }
{
    if room < status_block_len(endpoint, cluster, attribute, code) {
        return at;
    }
    put_status_block(out, at, endpoint, cluster, attribute, code)
}

// The value of attribute i.
fn offer_value<'a>(
    w: &'a [u64; WORDS],
    words: &'a [u64; ATTRIBUTES],
    nulls: &'a [bool; ATTRIBUTES],
    texts: &'a [u16; TEXTS],
    versions: &'a [u32; CLUSTERS],
    defaults: &'a [u8],
    edits: &'a [u8],
    i: usize,
    out: &mut [u8],
    at: usize,
    room: usize,
) -> usize
    requires { (well_formed w.now ≡ true) × ((i < count_of_attributes w.now) × (at + room ≤ length out.old)) }
    ensures { Offered out.old at room (value_block w.now (values_of words.now nulls.now texts.now versions.now) defaults.now edits.now i) out.new result }
{
    let k = node_schema::attribute_cluster(w, i);
    let text = text_at(w, defaults, edits, i, texts);
    let v = value_at(w, i, words[i], nulls[i], text.len());
    offer_data(
        versions[k],
        node_schema::cluster_endpoint(w, k) as u16,
        node_schema::cluster_id(w, k) as u32,
        node_schema::attribute_id(w, i) as u32,
        v,
        text,
        out,
        at,
        room,
    )
}

// What a path finds at one of its places.
pub fn offer_item<'a>(
    w: &'a [u64; WORDS],
    words: &'a [u64; ATTRIBUTES],
    nulls: &'a [bool; ATTRIBUTES],
    texts: &'a [u16; TEXTS],
    versions: &'a [u32; CLUSTERS],
    defaults: &'a [u8],
    edits: &'a [u8],
    p: Asked,
    x: Item,
    out: &mut [u8],
    at: usize,
    room: usize,
) -> usize
    requires { (well_formed w.now ≡ true) × (((i : ℕ) → x ≡ variants.Value i → i < count_of_attributes w.now) × (at + room ≤ length out.old)) }
    ensures { OfferedIf out.old at room (block_of w.now (values_of words.now nulls.now texts.now versions.now) defaults.now edits.now p x) out.new result }
{
    match x {
        Item::Value(i) => offer_value(
            w, words, nulls, texts, versions, defaults, edits, i, out, at, room,
        ),
        Item::Status(code) => offer_status(p.endpoint, p.cluster, p.attribute, code, out, at, room),
        Item::Nothing => at,
    }
}
