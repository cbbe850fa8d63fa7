//! The outcome of a run in a state.
ghost use Rattle.std.specs.Prelude.{◌≡◌};
ghost use Rattle.std.specs.List.{list_all};
ghost use Rattle.machine_state.specs.Rows.{is_done_row};
ghost use Rattle.machine_state.specs.Runs.{IsReachable, IsOutcome};

use crate::lowest_move::lowest;
use machine_state::{Outcome, State, TaskRow, TaskStatus};
use twe_program::Prog;

/// The outcome of a run of the program that has come to this state. It takes no memory.
pub fn outcome(p: &Prog, st: &State) -> Outcome
    requires { IsReachable p.now st.now }
    ensures { IsOutcome st.now result }
{
    if let Some(fault) = st.first_fault {
        return Outcome::Fault {
            task: fault.task,
            kind: fault.kind,
            place: fault.place,
        };
    }
    if all_done(st.tasks.as_slice()) {
        return Outcome::AllDone;
    }
    match lowest(p, st) {
        None => Outcome::Stuck,
        Some(_) => Outcome::Unfinished,
    }
}

/// Whether each task is done.
fn all_done(rows: &[TaskRow]) -> bool
    ensures { result ≡ list_all is_done_row rows.now }
{
    rows.iter()
        .all(|row| matches!(row.status, TaskStatus::Done))
}
