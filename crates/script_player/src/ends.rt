// What a script has made so far, and what a line of it says.
ghost use Rattle.std.specs.Prelude.{List, ℕ};
ghost use Rattle.server.specs.Start as starts;
ghost use Rattle.script_player.specs.Ends.{FreshPlayer, StartsPlayer};

use im_envelope::MAX_MESSAGE;
use node_schema::WORDS;
use script_answer::message::{MessageWords, no_message};
use script_answer::{AnswerLine, Fault};
use script_cache::CacheMemory;
use script_server::{ServerMemory, no_server};
use script_setup::PAGE;
use script_setup::access::{Table, no_entries};

#[derive(Clone, Copy)]
pub struct Player {
    // The access table that the lines so far give.
    pub given: Table,
    // Whether there is a server and a cache; the table that they were started with.
    pub live: bool,
    pub table: Table,
    // The length of the buffer that is lent.
    pub room: usize,
    pub server: ServerMemory,
    pub cache: CacheMemory,
    // The newest message of the cache, and the newest reply of the server.
    pub sent: MessageWords,
    pub replied: MessageWords,
}

#[derive(Clone, Copy)]
pub struct Played {
    pub player: Player,
    pub said: Result<Option<AnswerLine>, Fault>,
}

// Before any line: no server and no cache.
pub fn fresh() -> Player
    ensures { FreshPlayer result }
{
    Player {
        given: no_entries(),
        live: false,
        table: no_entries(),
        room: MAX_MESSAGE,
        server: no_server(),
        cache: script_cache::fresh(),
        sent: no_message(),
        replied: no_message(),
    }
}

// Both ends anew, of everything that was set up so far; or 11, and there are none.
pub fn started<'a>(p: Player, words: &'a [u64; WORDS], defaults: &'a [u8; PAGE]) -> Played
    ensures { (edits : List ℕ) → StartsPlayer (starts.started words.now defaults.now edits) p result }
{
    let made = script_server::start(words, defaults, p.server);
    let outcome = made.outcome;
    let number = outcome.number;
    let server = made.server;
    let given = p.given;
    let player = Player {
        given,
        live: number == server::DONE,
        table: given,
        room: p.room,
        server,
        cache: script_cache::fresh(),
        sent: no_message(),
        replied: no_message(),
    };
    Played {
        player,
        said: Ok(Some(AnswerLine { number, len: 0 })),
    }
}
