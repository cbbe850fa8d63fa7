//! The answers to the runs that were found, and the status that says how they end.
ghost use Rattle.std.specs.Prelude.{◌≡◌, IfOk};
ghost use Rattle.std.specs.List.{list_any};
ghost use Rattle.all_runs.specs.AllRuns.{ShowsRuns};
ghost use Rattle.twe_explore.specs.Answers.{AreAnswersFor, is_fault_end, is_stuck_end, is_complete, results_status};

use all_runs::Extent;
use flat_sched::{RunEnd, WholeRun};
use std::alloc::Global;
use text_answers::answer_ended;
use twe_base::{Limits, List, Memory};
use twe_io::{Answer, Status};
use twe_program::Prog;

/// What `twe run` answers for each of these runs.
pub(crate) fn answers_for(
    alloc: Global,
    p: &Prog,
    lim: Limits,
    runs: &[WholeRun],
) -> Result<List<Answer>, Memory>
    requires { ShowsRuns p.now lim runs.now }
    ensures { IfOk result (AreAnswersFor p.now lim runs.now) }
{
    let mut answers = List::with_capacity(alloc, runs.len())?;
    for run in runs {
        answers.push(answer_ended(alloc, p, lim, run)?)?;
    }
    Ok(answers)
}

/// Whether a search went to its end.
pub(crate) fn is_complete(extent: Extent) -> bool
    ensures { result ≡ is_complete extent }
{
    matches!(extent, Extent::All)
}

/// The status of the answer.
pub(crate) fn results_status(whole: bool, runs: &[WholeRun]) -> Status
    ensures { result ≡ results_status whole runs.now }
{
    if !whole {
        return Status::Unfinished;
    }
    if some_faults(runs) {
        return Status::Fault;
    }
    if some_is_stuck(runs) {
        return Status::Stuck;
    }
    Status::Done
}

/// Whether one of the runs has ended with a fault.
fn some_faults(runs: &[WholeRun]) -> bool
    ensures { result ≡ list_any (λ run. is_fault_end run.end) runs.now }
{
    runs.iter()
        .any(|run| matches!(run.end, RunEnd::Fault { .. }))
}

/// Whether one of the runs is stuck.
fn some_is_stuck(runs: &[WholeRun]) -> bool
    ensures { result ≡ list_any (λ run. is_stuck_end run.end) runs.now }
{
    runs.iter().any(|run| matches!(run.end, RunEnd::Stuck(_)))
}
