//! The legal move of the lowest task that has one.
ghost use Rattle.std.specs.Prelude.{◌≡◌, ◌<◌, ℕ, length, IfNone, IfSome};
ghost use Rattle.seg_journal.specs.declared.moves.Kind.{Kind};
ghost use Rattle.seg_journal.specs.declared.moves.Move.{Move};
ghost use Rattle.machine_state.specs.declared.state.TaskStatus.TheVariants.{Done};
ghost use Rattle.machine_state.specs.Legal.{MayMove, MayTake};
ghost use Rattle.machine_state.specs.LowestFirst.{IsLowest};
ghost use Rattle.machine_state.specs.Rows.{HasStatus};
ghost use Rattle.machine_state.specs.Runs.{IsReachable};

use crate::legal::may;
use machine_state::State;
use seg_journal::{Kind, Move};
use twe_program::Prog;

/// The legal move of the lowest task that has one, in a reached state of the program, and `None` if no move is legal.
/// It takes no memory.
pub fn lowest(p: &Prog, st: &State) -> Option<Move>
    requires { IsReachable p.now st.now }
    ensures some { IfSome result (IsLowest st.now) }
    ensures none { IfNone result ((mv : Move) → ¬ MayMove st.now mv) }
{
    lowest_from(p, st, 0)
}

/// The same if all tasks below `from` are done. It skips them, since a done task has no legal move. It takes no
/// memory.
pub fn lowest_from(p: &Prog, st: &State, from: u32) -> Option<Move>
    requires reachable { IsReachable p.now st.now }
    requires done { (t : ℕ) → t < from → HasStatus st.now t Done }
    ensures some { IfSome result (IsLowest st.now) }
    ensures none { IfNone result ((mv : Move) → ¬ MayMove st.now mv) }
{
    let _main = p.main;
    for t in from..st.links.task_count() {
        if let Some(mv) = move_of(p, st, t) {
            return Some(mv);
        }
    }
    None
}

/// The legal move of a task, if it has one.
fn move_of(p: &Prog, st: &State, t: u32) -> Option<Move>
    requires { IsReachable p.now st.now }
    ensures legal { IfSome result (MayMove st.now) }
    ensures task { IfSome result (λ mv. mv.task ≡ t) }
    ensures none { IfNone result ((kind : Kind) → ¬ MayTake st.now kind t) }
{
    let admission = Move {
        kind: Kind::Admit,
        task: t,
    };
    if may(p, st, admission).is_ok() {
        return Some(admission);
    }
    let segment = Move {
        kind: Kind::Run,
        task: t,
    };
    if may(p, st, segment).is_ok() {
        return Some(segment);
    }
    None
}
