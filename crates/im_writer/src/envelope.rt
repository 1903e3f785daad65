// The envelope of a message.
ghost use Rattle.std.specs.Prelude.{◌+◌, ◌≤◌, ◌<◌, length};
ghost use Rattle.base_octets.specs.Store.{Stored};
ghost use Rattle.im_writer.specs.Envelope.{envelope_length, exchange_limit, envelope_octets};

use base_octets::put2;

// The edition of the exchanges that a cache begins: there are no others.
pub const CACHE_EDITION: u8 = 0;

// How many exchange numbers there are: they have 40 bits.
pub const EXCHANGE_LIMIT: u64 = 1_099_511_627_776;

// Edition, opcode, exchange and turn, most significant byte first.
pub fn put_envelope(
    b: &mut [u8],
    at: usize,
    edition: u8,
    opcode: u8,
    exchange: u64,
    turn: u16,
) -> usize
    requires { (edition < 16) × ((opcode < 16) × ((exchange < exchange_limit) × (at + envelope_length ≤ length b.old))) }
    ensures { Stored b.old at (envelope_octets edition opcode exchange turn) b.new result }
{
    let kind = (edition as u64) * 16 + opcode as u64;
    let word = (kind * EXCHANGE_LIMIT + exchange) * 65536 + turn as u64;
    let p = put2(
        b,
        at,
        (word / 72057594037927936 % 256) as u8,
        (word / 281474976710656 % 256) as u8,
    );
    let q = put2(
        b,
        p,
        (word / 1099511627776 % 256) as u8,
        (word / 4294967296 % 256) as u8,
    );
    let r = put2(
        b,
        q,
        (word / 16777216 % 256) as u8,
        (word / 65536 % 256) as u8,
    );
    put2(b, r, (word / 256 % 256) as u8, (word % 256) as u8)
}
