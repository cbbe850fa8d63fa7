//! A run of a program that reads one text.
ghost use Rattle.std.specs.Prelude.{◌≡◌, IfOk, Some};
ghost use Rattle.twe_io.specs.Answers.{IsAnswered};
ghost use Rattle.twe_io.specs.Ends.{ends, ends_tell, sink, source};
ghost use Rattle.twe_report.specs.Causes.{TextCause};

use crate::program::TextProgram;
use crate::{Input, read_input};
use std::alloc::Global;
use twe_base::{Memory, Word};
use twe_io::{Answer, Sink, Source, Status, tell};

/// The answer to words that ask for this: the source is read, and its text is answered.
fn answer_source<P: TextProgram, S: Source>(
    alloc: Global,
    words: &[Word],
    program: &P,
    src: &mut S,
) -> Result<Answer, Memory>
    requires { P.asked words.now ≡ Some program.now }
    ensures { IfOk result (TextCause P.asked P.usage P.due (source S.left S.faults S.read_gives) words.now src.old src.new) }
{
    let _ = words;
    let input = read_input(alloc, src)?;
    match input {
        Input::Given(text) => program.answer_text(alloc, text.as_slice()),
        Input::Failed(answer) => Ok(answer),
    }
}

/// The answer to these words.
fn answer<P: TextProgram, S: Source>(
    alloc: Global,
    words: &[Word],
    src: &mut S,
) -> Result<Answer, Memory>
    ensures { IfOk result (TextCause P.asked P.usage P.due (source S.left S.faults S.read_gives) words.now src.old src.new) }
{
    let wanted = P::of_words(alloc, words)?;
    match wanted {
        None => Ok(Answer::on_err(alloc, Status::Usage, P::usage_text(alloc)?)),
        Some(program) => answer_source(alloc, words, &program, src),
    }
}

/// Reads a text from the source, as the words ask for it, writes the answer to it, and returns the status. If the program takes
/// no such words, the answer is the usage line, and nothing is read.
///
/// `TextCause` says why it gives an answer. After `Memory` nothing was written.
pub fn run_text_program<P: TextProgram, S: Source, O: Sink, E: Sink>(
    alloc: Global,
    words: &[Word],
    src: &mut S,
    out: &mut O,
    err: &mut E,
) -> Status
    ensures { IsAnswered (ends_tell (source S.left S.faults S.read_gives) (sink O.written O.faults O.write_gives)
        (sink E.written E.faults E.write_gives))
        (TextCause P.asked P.usage P.due (source S.left S.faults S.read_gives) words.now)
        (ends src.old out.old err.old) (ends src.new out.new err.new) result }
{
    let made = answer::<P, S>(alloc, words, src);
    tell(&made, out, err)
}
