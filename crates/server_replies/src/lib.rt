// The exchange that a server serves, and the replies that it gives: each is written to the buffer and kept, to be sent again.

#![tactic(auto)]

use im_exchange::Progress;
use server_report::ReadPlace;
use server_report::part::OpenRead;

pub mod begin; // begin.rt: requests that begin an exchange
pub mod refusal; // refusal.rt: why a whole request is refused
pub mod message; // message.rt: whole messages written
pub mod kept; // kept.rt: a reply kept and sent again, the next part
pub mod words; // words.rt: how the exchange stands, read from the row's words and put back

// What a message may have.
pub const MAX_MESSAGE: usize = im_envelope::MAX_MESSAGE;

pub const ENVELOPE: usize = im_envelope::LENGTH;

// How far the exchange has come, the request being answered and the place reached in it, and the kept reply: its length is 0 for silence. It is lent as words,
// and the kept reply as bytes.
#[derive(Clone, Copy)]
pub struct ExchangeRow {
    pub progress: Progress,
    pub request: OpenRead,
    pub place: ReadPlace,
    pub kept: [u8; MAX_MESSAGE],
    pub len: usize,
}

// What goes by value of a row: how the exchange stands, how many paths it asks for, and the length of the kept reply.
#[derive(Clone, Copy)]
pub struct RowStanding {
    pub progress: Progress,
    pub asked: usize,
    pub place: ReadPlace,
    pub len: usize,
}
