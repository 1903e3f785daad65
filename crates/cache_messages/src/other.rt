// A write of one entry, and the success for a part of a report.
ghost use Rattle.std.specs.Prelude.{◌≤◌, ◌<◌, length};
ghost use Rattle.base_octets.specs.Store.{Stored};
ghost use Rattle.tlv_reader.specs.Value.{datum_in};
ghost use Rattle.tlv_writer.specs.Element.{InPage};
ghost use Rattle.im_writer.specs.Block.{ShortText};
ghost use Rattle.im_envelope.specs.Envelope.{max_message};
ghost use Rattle.im_writer.specs.Envelope.{exchange_limit};
ghost use Rattle.cache_messages.specs.Messages.{write_message, success_message};

use im_exchange::{STATUS, WRITE};
use im_request_writer::write::put_write_request;
use im_writer::envelope::put_envelope;
use im_writer::response::put_status_response;
use tlv_reader::Value;

pub fn put_write(
    out: &mut [u8],
    edition: u8,
    exchange: u64,
    given: bool,
    version: u32,
    endpoint: u16,
    cluster: u32,
    attribute: u32,
    v: Value,
    src: &[u8],
) -> usize
    requires { (InPage src.now v) × (ShortText (datum_in src.now v) × ((edition < 16) × ((exchange < exchange_limit) × (max_message ≤ length out.old)))) }
    ensures { Stored out.old 0 (write_message edition exchange given version endpoint cluster attribute (datum_in src.now v)) out.new result × (result ≤ max_message) }
{
    let p = put_envelope(out, 0, edition, WRITE as u8, exchange, 0);
    put_write_request(out, p, given, version, endpoint, cluster, attribute, v, src)
}

pub fn put_success(out: &mut [u8], edition: u8, exchange: u64, turn: u16) -> usize
    requires { (edition < 16) × ((exchange < exchange_limit) × (max_message ≤ length out.old)) }
    ensures { Stored out.old 0 (success_message edition exchange turn) out.new result × (result ≤ max_message) }
{
    let p = put_envelope(out, 0, edition, STATUS as u8, exchange, turn);
    put_status_response(out, p, 0)
}
