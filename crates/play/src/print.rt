// What the program writes: one line an answer on standard output, and what is wrong on standard error.
use im_envelope::MAX_MESSAGE;
use script_answer::text::{TEXT, answer_line};
use script_answer::{AnswerLine, Fault};
use script_lines::sizes::clip;
use std::io;

fn answer(rt: &impl Print, number: u8, out: &[u8; MAX_MESSAGE], len: usize) -> io::Result<()> {
    let mut text = [0u8; TEXT];
    let whole: &[u8] = out;
    let n = clip(len, whole);
    let end = answer_line(&mut text, number, &whole[..n]);
    let k = clip(end, &text);
    rt.write_all(&text[..k])
}

fn reason(fault: Fault) -> &'static str {
    match fault {
        Fault::Unreadable => "it can't be read",
        Fault::NoServer => "there is no sign",
        Fault::NotSent => "the panel has sent nothing yet",
        Fault::NotReplied => "the sign has sent nothing yet",
        Fault::Overlong => "longer than 65,535 bytes",
    }
}

// What is wrong in a line, counted from 1.
pub fn wrong(rt: &impl Eprint, number: u64, fault: Fault) -> io::Result<()> {
    let why = reason(fault);
    eprintln!(rt; "line {number}: {why}")
}

// What a line says; answers whether the run goes on.
pub fn show(
    rt: &(impl Print + Eprint),
    said: Result<Option<AnswerLine>, Fault>,
    number: u64,
    out: &[u8; MAX_MESSAGE],
) -> io::Result<bool> {
    match said {
        Ok(None) => Ok(true),
        Ok(Some(line)) => {
            answer(rt, line.number, out, line.len)?;
            Ok(true)
        }
        Err(fault) => {
            wrong(rt, number, fault)?;
            Ok(false)
        }
    }
}
