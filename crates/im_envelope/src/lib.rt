// The envelope of a message, read (RULES 3.1, 3.2).

#![tactic(auto)]

ghost use Rattle.std.specs.Prelude.{◌≡◌, ◌≤◌, length, take};
ghost use Rattle.im_writer.specs.Envelope.{big_number};
ghost use Rattle.im_envelope.specs.Envelope.{envelope_length, fields_of, envelope_in};

use im_writer::envelope::EXCHANGE_LIMIT;

// How long an envelope is, and what a message may have.
pub const LENGTH: usize = 8;

pub const MAX_MESSAGE: usize = 1032;

// Edition 4 bits, opcode 4, exchange 40, turn 16.
#[derive(Clone, Copy)]
pub struct Fields {
    pub edition: u64,
    pub opcode: u64,
    pub exchange: u64,
    pub turn: u64,
}

// The number in the first eight bytes, the most significant first.
fn word(s: &[u8]) -> u64
    requires { envelope_length ≤ length s.now }
    ensures { result ≡ big_number (take envelope_length s.now) }
{
    let mut v: u64 = 0;
    for i in 0..LENGTH {
        v = v * 256 + u64::from(s[i]);
    }
    v
}

fn fields_of(w: u64) -> Fields
    ensures { result ≡ fields_of w }
{
    Fields {
        edition: w / 1152921504606846976,
        opcode: w / 72057594037927936 % 16,
        exchange: w / 65536 % EXCHANGE_LIMIT,
        turn: w % 65536,
    }
}

// The envelope that a message begins with.
pub fn envelope_of(s: &[u8]) -> Option<Fields>
    ensures { result ≡ envelope_in s.now }
{
    if s.len() < LENGTH {
        return None;
    }
    Some(fields_of(word(s)))
}
