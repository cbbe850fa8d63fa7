//! The moves that are legal next.
ghost use Rattle.std.specs.Prelude.{◌≡◌, ◌++◌, ◌↔◌, ◌<◌, IfOk, IsTrue, OnOk, slice_get};
ghost use Rattle.machine_state.specs.declared.state.TaskRow.{TaskRow};
ghost use Rattle.machine_state.specs.declared.state.TaskStatus.TheVariants.{Made};
ghost use Rattle.machine_state.specs.Legal.{MayAdmit};
ghost use Rattle.twe_machine.specs.Listings.{IsListing};
ghost use Rattle.machine_state.specs.Rows.{HasStatus, IsRow};
ghost use Rattle.machine_state.specs.Runs.{IsReachable};
ghost use Rattle.run_facts.specs.NextMoves.{AreNextMoves, IsMoveOf, as_list};

use machine_state::{State, TaskStatus, links_agree};
use seg_journal::{Kind, Move};
use std::alloc::Global;
use twe_base::{List, Memory};
use twe_machine::{EnabledTasks, may};
use twe_program::Prog;

/// Whether a task that was made may be admitted.
fn may_be_admitted(p: &Prog, st: &State, enabled: &EnabledTasks, task: u32) -> bool
    requires reachable { IsReachable p.now st.now }
    requires listing { IsListing st.now enabled.now }
    requires made { HasStatus st.now task Made }
    ensures { IsTrue result ↔ MayAdmit st.now task }
{
    let _main = p.main;
    enabled.bar(st, task).is_none()
}

/// The admission of a task that was made, if it is legal.
fn admission_of(p: &Prog, st: &State, enabled: &EnabledTasks, task: u32) -> Option<Move>
    requires reachable { IsReachable p.now st.now }
    requires listing { IsListing st.now enabled.now }
    requires made { HasStatus st.now task Made }
    ensures { IsMoveOf st.now task result }
{
    if may_be_admitted(p, st, enabled, task) {
        Some(Move {
            kind: Kind::Admit,
            task,
        })
    } else {
        None
    }
}

/// The segment of a task that does not wait for its admission, if it may run.
fn segment_of(p: &Prog, st: &State, task: u32) -> Option<Move>
    requires reachable { IsReachable p.now st.now }
    requires other { ¬ HasStatus st.now task Made }
    ensures { IsMoveOf st.now task result }
{
    let segment = Move {
        kind: Kind::Run,
        task,
    };
    match may(p, st, segment) {
        Ok(()) => Some(segment),
        Err(_) => None,
    }
}

/// The legal move of a task, if it has one.
fn move_of(p: &Prog, st: &State, enabled: &EnabledTasks, task: u32) -> Option<Move>
    requires reachable { IsReachable p.now st.now }
    requires listing { IsListing st.now enabled.now }
    ensures { IsMoveOf st.now task result }
{
    let Some(row) = st.tasks.get(task as usize) else {
        return None;
    };
    match row.status {
        TaskStatus::Made => admission_of(p, st, enabled, task),
        _ => segment_of(p, st, task),
    }
}

/// Appends a move, if there is one.
fn push_if(moves: &mut List<Move>, mv: Option<Move>) -> Result<(), Memory>
    ensures { OnOk result (moves.new ≡ moves.old ++ as_list mv) }
{
    match mv {
        None => Ok(()),
        Some(mv) => moves.push(mv),
    }
}

/// The legal moves in a reached state of the program, in the order of their tasks, and at most so many of them.
pub fn next_moves(alloc: Global, p: &Prog, st: &State, most: usize) -> Result<List<Move>, Memory>
    requires { IsReachable p.now st.now }
    ensures { IfOk result (AreNextMoves st.now most) }
{
    links_agree();
    let enabled = EnabledTasks::of(alloc, st)?;
    let mut moves = List::new(alloc);
    for task in 0..st.links.task_count() {
        if moves.len() >= most {
            return Ok(moves);
        }
        push_if(&mut moves, move_of(p, st, &enabled, task))?;
    }
    Ok(moves)
}
