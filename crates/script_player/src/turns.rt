// What a line leaves behind: the ends after it, and the newest messages.
ghost use Rattle.std.specs.Prelude.{◌≡◌};
ghost use Rattle.script_player.specs.Turns.{wrong_by, asked_by, silent_by, replied_by, acted_by, given_by, buffer_at, used_at};

use super::ends::{Played, Player};
use cache_state::begin::LAST_EXCHANGE;
use im_envelope::MAX_MESSAGE;
use script_answer::message::newer;
use script_answer::{AnswerLine, Fault, silently};
use script_cache::{CacheAnswered, used_up};
use script_lines::number::read_number;
use script_lines::{Scan, is_done};
use script_server::ServerAnswered;
use script_setup::access::Given;

pub fn wrong(player: Player, fault: Fault) -> Played
    ensures { result ≡ wrong_by player fault }
{
    Played {
        player,
        said: Err(fault),
    }
}

// What a line that changes nothing says.
pub fn asked(player: Player, said: Result<AnswerLine, Fault>) -> Played
    ensures { result ≡ asked_by player said }
{
    match said {
        Ok(line) => Played {
            player,
            said: Ok(Some(line)),
        },
        Err(fault) => wrong(player, fault),
    }
}

// A line that says nothing, if it could be read.
pub fn silent(player: Player, ok: bool) -> Played
    ensures { result ≡ silent_by player ok }
{
    Played {
        player,
        said: silently(ok),
    }
}

// The server after a line; its reply, if it made one, is its newest.
pub fn replied(p: Player, r: Result<ServerAnswered, Fault>, out: &[u8; MAX_MESSAGE]) -> Played
    ensures { result ≡ replied_by p r out.now }
{
    let done = match r {
        Ok(done) => done,
        Err(fault) => return wrong(p, fault),
    };
    let o = done.outcome;
    let server = done.server;
    let number = o.number;
    let len = o.len;
    let reply = newer(p.replied, out, len);
    let mut player = p;
    player.server = server;
    player.replied = reply;
    Played {
        player,
        said: Ok(Some(AnswerLine { number, len })),
    }
}

// The cache after a line; its message, if it made one, is its newest.
pub fn acted(p: Player, a: Result<CacheAnswered, Fault>, out: &[u8; MAX_MESSAGE]) -> Played
    ensures { result ≡ acted_by p a out.now }
{
    let done = match a {
        Ok(done) => done,
        Err(e) => return wrong(p, e),
    };
    let o = done.outcome;
    let cache = done.cache;
    let number = o.number;
    let len = o.len;
    let message = newer(p.sent, out, len);
    let mut player = p;
    player.cache = cache;
    player.sent = message;
    Played {
        player,
        said: Ok(Some(AnswerLine { number, len })),
    }
}

// After an access line.
pub fn given(p: Player, g: Given) -> Played
    ensures { result ≡ given_by p g }
{
    let table = g.table;
    let mut player = p;
    player.given = table;
    silent(player, g.ok)
}

// `buffer`: the length of the buffer lent from here on.
pub fn buffer_line(line: &[u8], s: Scan, p: Player) -> Played
    ensures { result ≡ buffer_at line.now s p }
{
    let n = read_number(line, s, u64::MAX);
    let mut player = p;
    player.room = n.value as usize;
    silent(player, is_done(n.next))
}

// `used`
pub fn used_line(line: &[u8], s: Scan, p: Player) -> Played
    ensures { result ≡ used_at line.now s p }
{
    let n = read_number(line, s, LAST_EXCHANGE);
    let cache = used_up(p.cache, n.value);
    let mut player = p;
    player.cache = cache;
    silent(player, is_done(n.next))
}
