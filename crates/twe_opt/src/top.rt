//! The top call: the whole program, apart from where its bytes come from and go to.
ghost use Rattle.std.specs.Prelude.{◌≤◌, IfOk};
ghost use Rattle.command_line.specs.Options.{max_workers};
ghost use Rattle.command_line.specs.Words.{IsSized, workers_of};
ghost use Rattle.twe_io.specs.Ends.{ends, ends_tell, sink, source};
ghost use Rattle.text_answers.specs.Causes.{Answers, Cause, CauseOfWords};
ghost use Rattle.text_answers.specs.Running.{IsWholeRun};
ghost use Rattle.text_answers.specs.Theorem.{IsNew};
ghost use Rattle.twe_opt.specs.Words.{command_asked, opt_usage_text};

use crate::text::usage_text;
use crate::words::command_asked;
use command_line::Command;
use flat_sched::WholeRun;
use opt_crew::run_ahead;
use std::alloc::Global;
use std::mem;
use std::sync::Wait;
use std::thread::Threads;
use text_answers::{AskedRun, Book, Reply, Started, answer_run, run_alone, start_command};
use twe_base::{Memory, Word};
use twe_io::{Answer, Sink, Source, Status, tell};
use twe_program::Prog;

/// Reads the text of a program from the source, checks it, and runs it by as many workers as the one word says, which run ahead
/// of admission. Writes what `twe run` with as many workers and the default limits writes. By one worker the run is the
/// lowest-first one. By several it depends on them which of the legal journals it has.
///
/// `Answers` says what each status means and what is written with it. If the words are not one number from 1 to 64, the answer is
/// the usage line, and nothing is read from the source. Afterwards the book has the program, the journal of its run and how the
/// run ended, or the refusal of the text. After `Memory` nothing was written, and nothing more is known of the source and the
/// book.
pub fn opt_top<R: Threads + Wait + Sync, S: Source, O: Sink, E: Sink>(
    rt: &R,
    alloc: Global,
    words: &[Word],
    src: &mut S,
    out: &mut O,
    err: &mut E,
    book: &mut Book,
) -> Status
    requires { IsNew book.old }
    ensures { Answers (ends_tell (source S.left S.faults S.read_gives) (sink O.written O.faults O.write_gives)
        (sink E.written E.faults E.write_gives)) opt_usage_text
        (command_asked words.now) (ends src.old out.old err.old) (ends src.new out.new err.new) book.new result }
{
    let made = answer(rt, alloc, words, src, book);
    tell(&made, out, err)
}

/// The answer to these words. Afterwards the book has what has led to it.
fn answer<R: Threads + Wait + Sync, S: Source>(
    rt: &R,
    alloc: Global,
    words: &[Word],
    src: &mut S,
    book: &mut Book,
) -> Result<Answer, Memory>
    requires { IsNew book.old }
    ensures { IfOk result (CauseOfWords (source S.left S.faults S.read_gives) opt_usage_text (command_asked words.now)
        src.old src.new book.new) }
{
    match command_asked(words) {
        Some(cmd) => {
            let reply = answer_command(rt, alloc, &cmd, src)?;
            let Reply { answer, book: made } = reply;
            *book = made;
            Ok(answer)
        }
        None => Ok(Answer::on_err(alloc, Status::Usage, usage_text(alloc)?)),
    }
}

/// The reply to a command that asks for workers: reads its input, checks the text, and runs the program.
fn answer_command<R: Threads + Wait + Sync, S: Source>(
    rt: &R,
    alloc: Global,
    cmd: &Command,
    src: &mut S,
) -> Result<Reply, Memory>
    requires sized { IsSized cmd.now }
    requires some { 1 ≤ workers_of cmd.now }
    ensures { IfOk result (λ reply. Cause (source S.left S.faults S.read_gives) cmd.now src.old src.new reply.book reply.answer) }
{
    let started = start_command(alloc, cmd, src)?;
    match started {
        Started::Answered(reply) => Ok(reply),
        Started::ToRun { p, asked } => {
            let run = run_program(rt, alloc, &p, &asked)?;
            let (reply, state) = answer_run(alloc, &asked, p, run)?;
            // The program ends with this reply, so it does not take the state apart.
            mem::forget(state);
            Ok(reply)
        }
    }
}

/// Runs a program by as many workers as are asked for. One worker has nobody to run ahead of, so the run is the lowest-first one,
/// on the calling thread. Several run ahead of admission, on threads of their own.
fn run_program<R: Threads + Wait + Sync>(
    rt: &R,
    alloc: Global,
    p: &Prog,
    asked: &AskedRun,
) -> Result<WholeRun, Memory>
    requires some { 1 ≤ asked.now.workers }
    requires few { asked.now.workers ≤ max_workers }
    ensures { IfOk result (IsWholeRun p.now asked.now) }
{
    let workers = asked.workers;
    if workers == 1 {
        run_alone(alloc, p, asked)
    } else {
        run_ahead(rt, alloc, p, asked.limits, workers)
    }
}
