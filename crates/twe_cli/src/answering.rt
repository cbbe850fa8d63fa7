//! The reply to a command. Its program is run lowest first, or by several workers.
ghost use Rattle.std.specs.Prelude.{◌≤◌, IfOk};
ghost use Rattle.command_line.specs.Options.{max_workers};
ghost use Rattle.command_line.specs.Words.{IsSized};
ghost use Rattle.isolation_laws.specs.soundness.KeepsEffects.{KeepsEffects};
ghost use Rattle.twe_io.specs.Ends.{source};
ghost use Rattle.text_answers.specs.Causes.{Cause};
ghost use Rattle.text_answers.specs.Running.{IsWholeRun};

use command_line::Command;
use flat_sched::WholeRun;
use floor_crew::run_on_floor;
use std::alloc::Global;
use std::mem;
use std::sync::Wait;
use std::thread::Threads;
use steal_pool::gates::Gate;
use text_answers::{AskedRun, Reply, Started, answer_run, run_alone, start_command};
use twe_base::Memory;
use twe_io::Source;
use twe_program::Prog;

/// The reply to a command: reads its input, checks the text, and runs the program or replays a journal on it if the command asks
/// for that.
pub(crate) fn answer_command<R: Threads + Wait + Sync, S: Source, G: Gate + Sync>(
    rt: &R,
    alloc: Global,
    cmd: &Command,
    src: &mut S,
    gate: &G,
) -> Result<Reply, Memory>
    requires sized { IsSized cmd.now }
    ensures { IfOk result (λ reply. Cause (source S.left S.faults S.read_gives) cmd.now src.old src.new reply.book reply.answer) }
{
    let started = start_command(alloc, cmd, src)?;
    match started {
        Started::Answered(reply) => Ok(reply),
        Started::ToRun { p, asked } => {
            let run = run_program(rt, alloc, &p, &asked, gate)?;
            let (reply, state) = answer_run(alloc, &asked, p, run)?;
            // The program ends with this reply, so it does not take the state apart.
            mem::forget(state);
            Ok(reply)
        }
    }
}

/// Runs a program as it is asked for. Without workers, or with one, the run is the lowest-first one, on the calling thread.
/// Several workers run segments of different tasks at the same time, each on a thread of its own, and pass the gate before each of
/// these; which of the legal journals the run has depends on them.
fn run_program<R: Threads + Wait + Sync, G: Gate + Sync>(
    rt: &R,
    alloc: Global,
    p: &Prog,
    asked: &AskedRun,
    gate: &G,
) -> Result<WholeRun, Memory>
    requires few { asked.now.workers ≤ max_workers }
    requires keeps { KeepsEffects p.now }
    ensures { IfOk result (IsWholeRun p.now asked.now) }
{
    let workers = asked.workers;
    if workers == 0 {
        run_alone(alloc, p, asked)
    } else {
        run_on_floor(rt, alloc, p, asked.limits, workers, gate)
    }
}
