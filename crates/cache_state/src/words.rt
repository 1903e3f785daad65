// The counts and the newest request, read from their words and put back; the newest message, kept in its bytes.
ghost use Rattle.std.specs.Prelude.{◌≡◌, ◌≤◌, length};
ghost use Rattle.base_octets.specs.Store.{store};
ghost use Rattle.im_envelope.specs.Envelope.{max_message};
ghost use Rattle.cache_state.specs.Words.{asked_size, standing_in, standing_words, words_right};

use super::{ASKED_WORDS, CacheStanding};
use base_octets::put_bytes;
use im_envelope::MAX_MESSAGE;

pub fn read_standing(asked: &[u64; ASKED_WORDS]) -> CacheStanding
    ensures value { result ≡ standing_in asked.now }
    ensures whole { length asked.now ≡ asked_size }
{
    let w: &[u64] = asked;
    CacheStanding {
        cluster_count: w[0] as usize,
        count: w[1] as usize,
        primed: w[2],
        used: w[3],
        exchange: w[4],
        stage: w[5],
        turn: w[6],
        status: w[7],
        endpoint: w[8],
        cluster: w[9],
        attribute: w[10],
        unknown: w[11],
        len: w[12] as usize,
    }
}

// The spare words stay as they are.
pub fn put_standing(asked: &mut [u64; ASKED_WORDS], t: CacheStanding)
    ensures { asked.new ≡ store asked.old 0 (standing_words t) }
{
    asked[0] = t.cluster_count as u64;
    asked[1] = t.count as u64;
    asked[2] = t.primed;
    asked[3] = t.used;
    asked[4] = t.exchange;
    asked[5] = t.stage;
    asked[6] = t.turn;
    asked[7] = t.status;
    asked[8] = t.endpoint;
    asked[9] = t.cluster;
    asked[10] = t.attribute;
    asked[11] = t.unknown;
    asked[12] = t.len as u64;
}

// Numbers in their widths, and spare words that are 0.
pub fn words_ok(asked: &[u64; ASKED_WORDS]) -> bool
    ensures { result ≡ words_right asked.now }
{
    if 1 < asked[2] {
        return false;
    }
    if 65_536 <= asked[6] {
        return false;
    }
    if 256 <= asked[7] {
        return false;
    }
    if 65_536 <= asked[8] {
        return false;
    }
    if 4_294_967_296 <= asked[9] {
        return false;
    }
    if 4_294_967_296 <= asked[10] {
        return false;
    }
    if asked[13] != 0 {
        return false;
    }
    if asked[14] != 0 {
        return false;
    }
    asked[15] == 0
}

// Keeps the newest message.
pub fn keep(kept: &mut [u8; MAX_MESSAGE], message: &[u8])
    requires { length message.now ≤ max_message }
    ensures kept_after { kept.new ≡ store kept.old 0 message.now }
    ensures whole { length kept.old ≡ max_message }
{
    put_bytes(kept, 0, message);
}
