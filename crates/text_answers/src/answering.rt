//! The answer to the input of a command, with runs that are the lowest-first ones.
ghost use Rattle.std.specs.Prelude.{◌≡◌, ◌≤◌, length, IfOk};
ghost use Rattle.command_line.specs.Words.{IsSized};
ghost use Rattle.twe_base.specs.Language.{max_text_bytes};
ghost use Rattle.machine_state.specs.LowestFirst.{LowestFirst};
ghost use Rattle.text_answers.specs.Answers.{IsAnswerTo, without_workers};
ghost use Rattle.text_answers.specs.Running.{IsWholeRun};

use crate::asked::AskedRun;
use crate::book::Reply;
use crate::running::answer_run;
use crate::starting::{Started, start_input};
use command_line::Command;
use flat_sched::{WholeRun, run_lowest};
use std::alloc::Global;
use twe_base::Memory;
use twe_io::Answer;
use twe_program::Prog;

/// The answer to a command with this input. `load` does not look at the input: its program text is that of the load generator.
/// `Due` says what the answer is: the text is checked, and run or replayed if the command asks for that. A run is the
/// lowest-first one, for any number of workers that the command asks for: the answer is also one to the command without workers.
pub fn answer_text(alloc: Global, cmd: &Command, input: &[u8]) -> Result<Answer, Memory>
    requires sized { IsSized cmd.now }
    requires short { length input.now ≤ max_text_bytes }
    ensures answers { IfOk result (IsAnswerTo cmd.now input.now) }
    ensures alone { IfOk result (IsAnswerTo (without_workers cmd.now) input.now) }
{
    answer_alone(alloc, &without_workers(cmd), input)
}

/// The command with no workers. One that asks for no run stays as it is.
fn without_workers(cmd: &Command) -> Command
    ensures { result ≡ without_workers cmd.now }
{
    match *cmd {
        Command::Check => Command::Check,
        Command::Run { lim, journal, .. } => Command::Run {
            workers: 0,
            lim,
            journal,
        },
        Command::Replay { lim } => Command::Replay { lim },
        Command::Load { n, .. } => Command::Load { workers: 0, n },
    }
}

/// The answer to a command with this input. A run is made on the calling thread.
fn answer_alone(alloc: Global, cmd: &Command, input: &[u8]) -> Result<Answer, Memory>
    requires sized { IsSized cmd.now }
    requires short { length input.now ≤ max_text_bytes }
    ensures { IfOk result (IsAnswerTo cmd.now input.now) }
{
    let started = start_input(alloc, cmd, input)?;
    match started {
        Started::Answered(reply) => {
            let Reply { answer, .. } = reply;
            Ok(answer)
        }
        Started::ToRun { p, asked } => {
            let run = run_alone(alloc, &p, &asked)?;
            let (reply, _) = answer_run(alloc, &asked, p, run)?;
            let Reply { answer, .. } = reply;
            Ok(answer)
        }
    }
}

/// The run that is asked for, on the calling thread. It is the lowest-first one, for any number of workers.
pub fn run_alone(alloc: Global, p: &Prog, asked: &AskedRun) -> Result<WholeRun, Memory>
    ensures whole { IfOk result (IsWholeRun p.now asked.now) }
    ensures lowest { IfOk result (λ run. LowestFirst p.now asked.now.limits run.journal) }
{
    let _main = p.main;
    let (journal, state) = run_lowest(alloc, p, asked.limits)?;
    WholeRun::of(alloc, p, journal, state)
}
