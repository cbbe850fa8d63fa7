//! The top call: the whole program, apart from where its bytes come from and go to.
ghost use Rattle.std.specs.Prelude.{◌≡◌, IfOk};
ghost use Rattle.command_line.specs.Words.{Means};
ghost use Rattle.command_line.specs.declared.command.Command.{Command};
ghost use Rattle.twe_io.specs.Answers.{on_err};
ghost use Rattle.twe_io.specs.Ends.{ends, ends_tell, sink, source};
ghost use Rattle.twe_io.specs.declared.status.Status.TheVariants.{Usage};
ghost use Rattle.twe_report.specs.Texts as texts;
ghost use Rattle.text_answers.specs.Causes.{AnswersWords};
ghost use Rattle.text_answers.specs.Theorem.{IsNew};
ghost use Rattle.twe_cli.specs.Complete.{Completes};
ghost use Rattle.twe_cli.specs.inner.Given.{HasCauseInWords};

use crate::answering::answer_command;
use command_line::{WordsFail, every_list_is_decided, one_command, read_words};
use std::alloc::Global;
use std::sync::Wait;
use std::thread::Threads;
use steal_pool::gates::Gate;
use text_answers::{Book, Reply};
use twe_base::{Memory, Word};
use twe_frontend::refused_or_accepted;
use twe_io::{Answer, Sink, Source, Status, tell};
use twe_report::usage_text;

/// Carries out the command that the words mean, and writes its answer. If it asks for several workers, they run the program on
/// threads of their own and pass the gate before each segment; else all of it happens on the calling thread, and a run is the
/// lowest-first one.
///
/// `AnswersWords` says what each status means and what is written with it; for `run` and status 0 `the_run_theorem` of
/// `run_theorem` says in one record what follows. If the words mean no command, the answer is the usage
/// line, and nothing is read from the source. Afterwards the book has the program, the journal of its run and how the run ended,
/// or the refusal of the text. After `Memory` nothing was written, and nothing more is known of the source and the book.
/// `Completes` says which statuses a command can have if nothing fails outside.
pub fn twe<R: Threads + Wait + Sync, S: Source, O: Sink, E: Sink, G: Gate + Sync>(
    rt: &R,
    alloc: Global,
    words: &[Word],
    src: &mut S,
    out: &mut O,
    err: &mut E,
    gate: &G,
    book: &mut Book,
) -> Status
    requires { IsNew book.old }
    ensures answers { AnswersWords (ends_tell (source S.left S.faults S.read_gives) (sink O.written O.faults O.write_gives)
        (sink E.written E.faults E.write_gives)) texts.usage_text
        words.now (ends src.old out.old err.old) (ends src.new out.new err.new) book.new result }
    ensures complete { (command : Command) → Means words.now command
        → Completes (ends_tell (source S.left S.faults S.read_gives) (sink O.written O.faults O.write_gives)
        (sink E.written E.faults E.write_gives))
        command (ends src.old out.old err.old) (ends src.new out.new err.new) result }
{
    every_list_is_decided();
    one_command();
    refused_or_accepted();
    let made = answer(rt, alloc, words, src, gate, book);
    tell(&made, out, err)
}

/// The answer to these words. Afterwards the book has what has led to it.
fn answer<R: Threads + Wait + Sync, S: Source, G: Gate + Sync>(
    rt: &R,
    alloc: Global,
    words: &[Word],
    src: &mut S,
    gate: &G,
    book: &mut Book,
) -> Result<Answer, Memory>
    requires { IsNew book.old }
    ensures { IfOk result (HasCauseInWords (source S.left S.faults S.read_gives) words.now src.old src.new book.new) }
{
    match read_words(alloc, words) {
        Ok(cmd) => {
            let reply = answer_command(rt, alloc, &cmd, src, gate)?;
            let Reply { answer, book: made } = reply;
            *book = made;
            Ok(answer)
        }
        Err(WordsFail::Usage) => usage(alloc),
        Err(WordsFail::OutOfMemory(memory)) => Err(memory),
    }
}

/// The answer to words that mean no command.
fn usage(alloc: Global) -> Result<Answer, Memory>
    ensures { IfOk result (λ answer. answer ≡ on_err Usage texts.usage_text) }
{
    Ok(Answer::on_err(alloc, Status::Usage, usage_text(alloc)?))
}
