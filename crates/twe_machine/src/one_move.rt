//! Taking one move.
ghost use Rattle.std.specs.Prelude.{◌≡◌, ◌<◌, length, IfOk, slice_get};
ghost use Rattle.machine_state.specs.Legal.{MayMove};
ghost use Rattle.machine_state.specs.Moves.{admitted, move_result};
ghost use Rattle.machine_state.specs.Runs.{IsReached};

use crate::running::run;
use machine_state::{State, TaskStatus};
use seg_journal::{End, Kind, Limits, Move};
use std::alloc::Global;
use twe_base::Memory;
use twe_program::Prog;

/// Takes a legal move in a reached state of the program under these limits, and returns the end of the move. After
/// `Memory` nothing is known of the state, which can only be dropped.
pub fn step(alloc: Global, p: &Prog, lim: Limits, st: &mut State, mv: Move) -> Result<End, Memory>
    requires reached { IsReached p.now lim st.old }
    requires legal { MayMove st.old mv }
    ensures { IfOk result (λ end. (st.new, end) ≡ move_result p.now lim st.old mv) }
{
    let _main = p.main;
    let _tasks = lim.tasks;
    match mv.kind {
        Kind::Admit => {
            admit(st, mv.task as usize);
            Ok(End::Admitted)
        }
        Kind::Run => run(alloc, p, lim, st, mv.task),
    }
}

/// Enables a task.
fn admit(st: &mut State, task: usize)
    requires { task < length st.old.tasks }
    ensures { st.new ≡ admitted st.old task (slice_get st.old.tasks task) }
{
    st.tasks.item_mut(task).status = TaskStatus::Enabled;
}
