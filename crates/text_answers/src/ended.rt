//! The answer to a run by its end, whoever made its moves.
ghost use Rattle.std.specs.Prelude.{◌≡◌, IfOk};
ghost use Rattle.machine_state.specs.Runs.{IsRun, counted, state_after};
ghost use Rattle.flat_sched.specs.RunEnds.{IsRunEnd, outcome_of};
ghost use Rattle.twe_report.specs.Texts as texts;
ghost use Rattle.twe_io.specs.Answers.{on_err, on_out};
ghost use Rattle.text_answers.specs.Answers.{AnswersRun, after_prints};
ghost use Rattle.text_answers.specs.inner.Given.{HasReasons};
ghost use Rattle.twe_io.specs.declared.status.Status.TheVariants.{Done, Unfinished};

use crate::counting::{counted_length, prints_of};
use flat_sched::{RunEnd, WholeRun, stuck_cycles_have_true_edges};
use machine_state::State;
use std::alloc::Global;
use twe_base::{Bytes, Limits, Memory};
use twe_io::{Answer, Status};
use twe_program::Prog;
use twe_report::{fault_text, prints_text, result_text, stuck_text, unfinished_text};

/// The answer to a run under these limits. The numbers that entries after the first fault printed are not in it.
pub fn answer_ended(alloc: Global, p: &Prog, lim: Limits, run: &WholeRun) -> Result<Answer, Memory>
    requires run { IsRun p.now lim run.now.journal run.now.state }
    requires end { IsRunEnd run.now.state run.now.end }
    ensures { IfOk result (AnswersRun p.now run.now.state (state_after p.now lim (counted run.now.journal)).prints
        (outcome_of run.now.end)) }
{
    stuck_cycles_have_true_edges();
    let (_main, _tasks) = (p.main, lim.tasks);
    let (st, end) = (&run.state, &run.end);
    let entries = run.journal.as_slice();
    let count = counted_length(entries);
    if count == entries.len() {
        return answer_end(alloc, p, st, st.prints.as_slice(), end);
    }
    let prints = prints_of(alloc, p, lim, &entries[..count])?;
    answer_end(alloc, p, st, prints.as_slice(), end)
}

/// The answer to a run that has come to this state and has ended so: its result; or, after a fault or if it is stuck, the
/// numbers that were printed up to the first fault, with the fault or the cycle of the tasks that hold one another up; or, if
/// it can go on, how many tasks are not done.
fn answer_end(
    alloc: Global,
    p: &Prog,
    st: &State,
    prints: &[i32],
    end: &RunEnd,
) -> Result<Answer, Memory>
    requires { HasReasons st.now end.now }
    ensures { IfOk result (AnswersRun p.now st.now prints.now (outcome_of end.now)) }
{
    match end {
        RunEnd::AllDone => answer_done(alloc, p, st),
        RunEnd::Fault { task, kind, place } => {
            let line = fault_text(alloc, *task, *kind, *place)?;
            answer_prints(alloc, prints, Status::Fault, line)
        }
        RunEnd::Stuck(cycle) => {
            let line = stuck_text(alloc, cycle)?;
            answer_prints(alloc, prints, Status::Stuck, line)
        }
        RunEnd::Unfinished => answer_unfinished(alloc, st),
    }
}

/// The answer to a run in which all tasks are done.
pub fn answer_done(alloc: Global, p: &Prog, st: &State) -> Result<Answer, Memory>
    ensures { IfOk result (λ answer. answer ≡ on_out Done (texts.result_text p.now st.now)) }
{
    Ok(Answer::on_out(alloc, Status::Done, result_text(alloc, p, st)?))
}

/// The answer to a run that can go on in this state.
fn answer_unfinished(alloc: Global, st: &State) -> Result<Answer, Memory>
    ensures { IfOk result (λ answer. answer ≡ on_err Unfinished (texts.unfinished_text st.now)) }
{
    Ok(Answer::on_err(alloc, Status::Unfinished, unfinished_text(alloc, st)?))
}

/// An answer with the printed numbers on out, and this line on err.
fn answer_prints(
    alloc: Global,
    prints: &[i32],
    status: Status,
    line: Bytes,
) -> Result<Answer, Memory>
    ensures { IfOk result (λ answer. answer ≡ after_prints status prints.now line) }
{
    Ok(Answer {
        status,
        out: prints_text(alloc, prints)?,
        err: line,
    })
}
