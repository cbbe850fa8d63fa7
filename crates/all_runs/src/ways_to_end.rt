//! Whether two runs have ended in one way.
ghost use Rattle.std.specs.Prelude.{◌↔◌, IsTrue};
ghost use Rattle.flat_sched.specs.RunEnds.{outcome_of};
ghost use Rattle.all_runs.specs.Explored.{EndsAs, HaveOneResult, IsFoundEnd};

use flat_sched::WholeRun;
use machine_state::{Outcome, State};
use state_copies::same_ints;

/// Whether one of these runs has ended as this one has.
pub(crate) fn is_found_end(ended: &[WholeRun], run: &WholeRun) -> bool
    ensures { IsTrue result ↔ IsFoundEnd ended.now run.now.state (outcome_of run.now.end) }
{
    for earlier in ended {
        if ends_as(earlier, run) {
            return true;
        }
    }
    false
}

/// Whether a run has ended as the other has: with the same outcome and, if all tasks are done, with the same result.
fn ends_as(run: &WholeRun, other: &WholeRun) -> bool
    ensures { IsTrue result ↔ EndsAs run.now other.now.state (outcome_of other.now.end) }
{
    let outcome = other.end.outcome();
    if run.end.outcome() != outcome {
        return false;
    }
    match outcome {
        Outcome::AllDone => have_one_result(&run.state, &other.state),
        Outcome::Fault { .. } => true,
        Outcome::Stuck => true,
        Outcome::Unfinished => true,
    }
}

/// Whether two states have the same printed numbers, the same cells and as many tasks.
fn have_one_result(a: &State, b: &State) -> bool
    ensures { IsTrue result ↔ HaveOneResult a.now b.now }
{
    a.tasks.len() == b.tasks.len()
        && same_ints(a.prints.as_slice(), b.prints.as_slice())
        && same_ints(a.cells.as_slice(), b.cells.as_slice())
}
