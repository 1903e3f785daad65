// What a line of a script says, and the messages that lines hand over. No input and no output.

#![tactic(auto)]

ghost use Rattle.std.specs.Prelude.{◌≡◌};
ghost use Rattle.script_answer.specs.Messages.{silent};

pub mod message; // message.rt: messages spelled on a line or kept of an end
pub mod text; // text.rt: an answer as a line of text

// A line of answer: its number, and how many bytes at the start of the buffer follow it.
#[derive(Clone, Copy)]
pub struct AnswerLine {
    pub number: u8,
    pub len: usize,
}

// What can be wrong with a line, which stops the run.
#[derive(Clone, Copy)]
pub enum Fault {
    Unreadable,
    NoServer,
    NotSent,
    NotReplied,
    Overlong,
}

// Nothing to say, or a line that could not be read.
pub fn silently(ok: bool) -> Result<Option<AnswerLine>, Fault>
    ensures { result ≡ silent ok }
{
    if ok { Ok(None) } else { Err(Fault::Unreadable) }
}
