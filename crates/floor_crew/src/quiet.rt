//! The next move of a run at rest, in the order of the tasks' numbers.
ghost use Rattle.std.specs.Prelude.{IfSome, IfNone};
ghost use Rattle.machine_state.specs.declared.ending.Outcome.TheVariants.{Unfinished};
ghost use Rattle.machine_state.specs.LowestFirst.{IsLowest};
ghost use Rattle.machine_state.specs.Runs.{IsOutcome, IsReachable};

use machine_state::State;
use seg_journal::Move;
use twe_machine::lowest;
use twe_program::Prog;

/// The lowest legal move of a run that can go on; `None` if it cannot.
pub(crate) fn next_move(p: &Prog, st: &State) -> Option<Move>
    requires { IsReachable p.now st.now }
    ensures some { IfSome result (IsLowest st.now) }
    ensures none { IfNone result (¬ IsOutcome st.now Unfinished) }
{
    if st.first_fault.is_some() {
        return None;
    }
    lowest(p, st)
}
