// The messages that lines hand over: spelled on the line, or the newest one that an end has made.
ghost use Rattle.std.specs.Prelude.{◌≡◌};
ghost use Rattle.script_answer.specs.Messages.{no_message, newer_of, spelled_at, newest_of};

use super::Fault;
use im_envelope::MAX_MESSAGE;
use script_lines::hex::{SPELLED, rest};
use script_lines::{Scan, is_done};

// The first len of the bytes; an end that has made no message yet has one of length 0.
#[derive(Clone, Copy)]
pub struct MessageWords {
    pub bytes: [u8; SPELLED],
    pub len: usize,
}

pub fn no_message() -> MessageWords
    ensures { result ≡ no_message }
{
    MessageWords {
        bytes: [0u8; SPELLED],
        len: 0,
    }
}

// The newest message of an end that has just answered: what stands in the buffer, or what it was if nothing was sent.
pub fn newer(old: MessageWords, out: &[u8; MAX_MESSAGE], len: usize) -> MessageWords
    ensures { result ≡ newer_of old out.now len }
{
    if len == 0 {
        return old;
    }
    let mut bytes = [0u8; SPELLED];
    base_octets::put_bytes(&mut bytes, 0, out);
    MessageWords {
        bytes,
        len: len.min(MAX_MESSAGE),
    }
}

// The message that the rest of the line spells.
pub fn spelled(line: &[u8], s: Scan) -> Result<MessageWords, Fault>
    ensures { result ≡ spelled_at line.now s }
{
    let mut bytes = [0u8; SPELLED];
    let b = rest(line, s, &mut bytes);
    if !b.ok {
        return Err(Fault::Unreadable);
    }
    if SPELLED <= b.len {
        return Err(Fault::Unreadable);
    }
    Ok(MessageWords { bytes, len: b.len })
}

// The newest message of an end, for a line that has no word more; what is wrong if there is none.
pub fn newest(s: Scan, m: MessageWords, none: Fault) -> Result<MessageWords, Fault>
    ensures { result ≡ newest_of s m none }
{
    if !is_done(s) {
        return Err(Fault::Unreadable);
    }
    if m.len == 0 {
        return Err(none);
    }
    Ok(m)
}
