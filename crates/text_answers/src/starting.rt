//! From a command to its reply, or to the accepted program that is to be run for it.
ghost use Rattle.std.specs.Prelude.{◌≡◌, ◌≤◌, length, IfOk};
ghost use Rattle.command_line.specs.Options.{max_workers};
ghost use Rattle.command_line.specs.Words.{IsSized};
ghost use Rattle.command_line.specs.declared.command.Command.TheVariants.{Check, Replay};
ghost use Rattle.twe_base.specs.Language.{max_text_bytes};
ghost use Rattle.twe_report.specs.Texts as texts;
ghost use Rattle.twe_io.specs.Answers.{on_out};
ghost use Rattle.twe_io.specs.Ends.{source};
ghost use Rattle.twe_io.specs.declared.status.Status.TheVariants.{Done};
ghost use Rattle.text_answers.specs.Starting.{IsStarted};
ghost use Rattle.text_answers.specs.Theorem.{HasProgram};
ghost use Rattle.text_answers.specs.inner.Given.{IsRefusalReply, IsReplyTo, IsStartedFor, IsStartedToRun};

use crate::asked::{AskedRun, Report};
use crate::book::{Book, Reply};
use crate::input::cut_input;
use crate::reading::input_of;
use crate::replaying::replay_program;
use command_line::Command;
use load_text::load_text;
use std::alloc::Global;
use twe_base::{Limits, Memory};
use twe_frontend::{FrontFail, read_program};
use twe_io::{Answer, Source, Status};
use twe_program::Prog;
use twe_report::{Input, accepted_text, refusal_text};

/// What a command has come to before a run.
#[derive(Debug, Drop)]
pub enum Started {
    /// The reply: the input could not be read, or the text is refused, or the command asks for no run.
    Answered(Reply),
    /// The text is accepted, and the command asks for a run of its program.
    ToRun {
        /// The program.
        p: Prog,
        /// The run that is asked for.
        asked: AskedRun,
    },
}

/// Takes a command up to its run: reads its input, or makes the text of the load generator; checks the program text; and replays
/// a journal if the command asks for that. If a program is to be run, `answer_run` makes the reply to the run, whoever runs it.
pub fn start_command<S: Source>(
    alloc: Global,
    cmd: &Command,
    src: &mut S,
) -> Result<Started, Memory>
    requires { IsSized cmd.now }
    ensures { IfOk result (IsStarted (source S.left S.faults S.read_gives) cmd.now src.old src.new) }
{
    let input = input_of(alloc, cmd, src)?;
    match input {
        Input::Given(input) => start_input(alloc, cmd, input.as_slice()),
        Input::Failed(answer) => {
            let book = Book::new(alloc);
            Ok(Started::Answered(Reply { answer, book }))
        }
    }
}

/// Takes a command with this input up to its run.
pub(crate) fn start_input(alloc: Global, cmd: &Command, input: &[u8]) -> Result<Started, Memory>
    requires sized { IsSized cmd.now }
    requires short { length input.now ≤ max_text_bytes }
    ensures { IfOk result (IsStartedFor cmd.now input.now) }
{
    match *cmd {
        Command::Check => {
            let reply = check_text(alloc, input)?;
            Ok(Started::Answered(reply))
        }
        Command::Replay { lim } => {
            let reply = replay_input(alloc, lim, input)?;
            Ok(Started::Answered(reply))
        }
        Command::Run {
            workers,
            lim,
            journal,
        } => {
            let report = Report::OfRun { journal };
            let asked = AskedRun {
                workers,
                limits: lim,
                report,
            };
            start_run(alloc, input, asked)
        }
        Command::Load { workers, n } => {
            let text = load_text(alloc, n)?;
            let limits = Limits::default();
            let report = Report::OfLoad { n };
            let asked = AskedRun {
                workers,
                limits,
                report,
            };
            start_run(alloc, text.as_slice(), asked)
        }
    }
}

/// Checks a text.
fn check_text(alloc: Global, text: &[u8]) -> Result<Reply, Memory>
    ensures { IfOk result (IsReplyTo Check text.now) }
{
    match read_program(alloc, text) {
        Ok(p) => accept(alloc, p),
        Err(fail) => refuse(alloc, fail),
    }
}

/// Replays a journal on a program. Both are parts of the input.
fn replay_input(alloc: Global, lim: Limits, input: &[u8]) -> Result<Reply, Memory>
    requires { length input.now ≤ max_text_bytes }
    ensures { IfOk result (IsReplyTo (Replay lim) input.now) }
{
    let (program, journal) = cut_input(input);
    match read_program(alloc, program) {
        Ok(p) => replay_program(alloc, lim, p, journal),
        Err(fail) => refuse(alloc, fail),
    }
}

/// Takes a command that asks for this run of a program up to it.
fn start_run(alloc: Global, program: &[u8], asked: AskedRun) -> Result<Started, Memory>
    requires { asked.workers ≤ max_workers }
    ensures { IfOk result (IsStartedToRun program.now asked) }
{
    match read_program(alloc, program) {
        Ok(p) => Ok(Started::ToRun { p, asked }),
        Err(fail) => {
            let reply = refuse(alloc, fail)?;
            Ok(Started::Answered(reply))
        }
    }
}

/// The reply to `check` on a text that has this program.
fn accept(alloc: Global, p: Prog) -> Result<Reply, Memory>
    ensures program { IfOk result (λ reply. HasProgram p reply.book) }
    ensures answer { IfOk result (λ reply. reply.answer ≡ on_out Done texts.accepted_text) }
{
    let lines = accepted_text(alloc)?;
    Ok(Reply {
        answer: Answer::on_out(alloc, Status::Done, lines),
        book: Book::of_program(alloc, p),
    })
}

/// The reply to a text that has no program.
fn refuse(alloc: Global, fail: FrontFail) -> Result<Reply, Memory>
    ensures { IfOk result (IsRefusalReply fail) }
{
    match fail {
        FrontFail::Refused(refusal) => {
            let line = refusal_text(alloc, refusal)?;
            Ok(Reply {
                answer: Answer::on_err(alloc, Status::Refused, line),
                book: Book::of_refusal(alloc, refusal),
            })
        }
        FrontFail::OutOfMemory(memory) => Err(memory),
    }
}
