// The exchange rules (RULES 3.8 to 3.16), over numbers alone.

#![tactic(auto)]

ghost use Rattle.std.specs.Prelude.{◌≡◌};
ghost use Rattle.im_exchange.specs.Rules.{action_of, beginning, server_takes, on_request, on_promised, on_earlier, on_status};

// Opcodes of the Interaction Model.
pub const STATUS: u64 = 1;

pub const READ: u64 = 2;

pub const REPORT: u64 = 5;

pub const WRITE: u64 = 6;

pub const WRITE_RESPONSE: u64 = 7;

// The turn of the first reply.
pub const FIRST_REPLY: u64 = 1;

// The highest turn of 16 bits.
pub const MAX_TURN: u64 = 65_535;

// What a success for the newest reply brings: nothing, or the next part of a report, which was promised.
pub const NOTHING: u64 = 0;

pub const PART: u64 = 1;

// How far the exchange has come: the newest that was served, its newest reply, what a success for that brings, and 1 where it was closed.
#[derive(Clone, Copy)]
pub struct Progress {
    pub last: u64,
    pub turn: u64,
    pub next: u64,
    pub closed: u64,
}

// What a message asks of a server.
#[derive(Clone, Copy)]
pub enum Action {
    // A status for a reply.
    Status,
    Read,
    Write,
    // None that a server takes.
    Other,
}

// What a message gets.
#[derive(Clone, Copy)]
pub enum Step {
    Silence,
    // It begins an exchange.
    Begin,
    // The kept reply again.
    Repeat,
    // The next part of the report.
    Next,
    // Nothing, and the exchange is closed.
    Close,
}

// The action that an opcode stands for.
impl From<u64> for Action {
    ghost from_gives = { λ opcode action. action ≡ action_of opcode };

    #[tactic(auto, unfolding(crate::specs::Rules::action_of))]
    fn from(opcode: u64) -> Action {
        match opcode {
            STATUS => Action::Status,
            READ => Action::Read,
            WRITE => Action::Write,
            _ => Action::Other,
        }
    }
}

impl Action {
    // Whether it may begin an exchange.
    pub fn begins(self) -> bool
        ensures { result ≡ beginning self }
    {
        matches!(self, Action::Read | Action::Write)
    }

    // Whether a server takes it.
    pub fn is_taken(self) -> bool
        ensures { result ≡ server_takes self }
    {
        !matches!(self, Action::Other)
    }
}

// A read or a write request.
#[tactic(auto, unfolding(crate::specs::Rules::on_request))]
pub fn on_request(x: Progress, exchange: u64, turn: u64) -> Step
    ensures { result ≡ on_request x exchange turn }
{
    if turn != 0 {
        return Step::Silence;
    }
    if x.last < exchange {
        return Step::Begin;
    }
    if exchange != x.last {
        return Step::Silence;
    }
    if x.turn != FIRST_REPLY {
        return Step::Silence;
    }
    if x.closed != 0 {
        return Step::Silence;
    }
    Step::Repeat
}

// A status for the newest reply, which promised more.
#[tactic(auto, unfolding(crate::specs::Rules::on_promised))]
fn on_promised(k: u64, code: u64) -> Step
    ensures { result ≡ on_promised k code }
{
    if code != 0 {
        return Step::Close;
    }
    if k < MAX_TURN {
        return Step::Next;
    }
    Step::Silence
}

// A status for the reply before the newest.
#[tactic(auto, unfolding(crate::specs::Rules::on_earlier))]
fn on_earlier(k: u64, turn: u64, code: u64) -> Step
    ensures { result ≡ on_earlier k turn code }
{
    if code != 0 {
        return Step::Silence;
    }
    if turn < FIRST_REPLY {
        return Step::Silence;
    }
    if turn >= k {
        return Step::Silence;
    }
    if turn + 1 != k {
        return Step::Silence;
    }
    Step::Repeat
}

// A status response with this code.
#[tactic(auto, unfolding(crate::specs::Rules::on_status))]
pub fn on_status(x: Progress, exchange: u64, turn: u64, code: u64) -> Step
    ensures { result ≡ on_status x exchange turn code }
{
    if exchange != x.last {
        return Step::Silence;
    }
    if x.closed != 0 {
        return Step::Silence;
    }
    if turn != x.turn {
        return on_earlier(x.turn, turn, code);
    }
    if x.next == NOTHING {
        return on_earlier(x.turn, turn, code);
    }
    on_promised(x.turn, code)
}
