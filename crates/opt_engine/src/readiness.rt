//! Which tasks are ready, and the frames that their next segments begin with.
ghost use Rattle.std.specs.Prelude.{◌≡◌, ◌↔◌, IfOk, IsTrue, length};
ghost use Rattle.machine_state.specs.declared.state.TaskStatus.TheVariants.{Made};
ghost use Rattle.machine_state.specs.Moves.{ready_frame};
ghost use Rattle.machine_state.specs.Rows.{HasStatus};
ghost use Rattle.machine_state.specs.Runs.{IsReached};
ghost use Rattle.twe_base.specs.Limits.{Bounds};
ghost use Rattle.opt_engine.specs.Drafts.{DraftIsReady};
ghost use Rattle.state_copies.specs.Frames.{unreserved};
ghost use Rattle.opt_engine.specs.Verdicts.{IsDraftAt, IsStartAt};

use crate::drafts::Draft;
use crate::starts::Start;
use machine_state::{State, TaskRow, TaskStatus};
use seg_meaning::Frame;
use state_copies::copy_frame;
use std::alloc::Global;
use twe_base::{List, Memory};
use twe_machine::{awaited, awaited_value};
use twe_program::Prog;

/// Whether a task is ready: whether it waits for its admission, or is enabled and waits for nobody.
pub(crate) fn is_ready(st: &State, t: u32) -> bool
    requires { length st.now.links ≡ length st.now.tasks }
    ensures { IsTrue result ↔ DraftIsReady st.now t }
{
    match st.tasks.get(t as usize) {
        None => false,
        Some(row) => match row.status {
            TaskStatus::Made => true,
            TaskStatus::Enabled => st.links.awaited(t).is_none(),
            TaskStatus::Done => false,
            TaskStatus::Faulted => false,
        },
    }
}

/// A copy of the frame that the next segment of the task of this row begins with. If the task has waited, the frame has
/// taken the awaited value.
pub(crate) fn ready_copy(
    alloc: Global,
    rows: &List<TaskRow>,
    row: &TaskRow,
) -> Result<Frame, Memory>
    ensures { IfOk result (λ frame. frame ≡ unreserved (ready_frame rows.now row.now.frame)) }
{
    let mut frame = copy_frame(alloc, &row.frame)?;
    let value = awaited_value(rows, awaited(frame.next));
    frame.give(value);
    Ok(frame)
}

/// The start of the next segment of a task in a reached state; none if the task is not ready.
pub(crate) fn next_start(
    alloc: Global,
    p: &Prog,
    st: &State,
    t: u32,
) -> Result<Option<Start>, Memory>
    requires { (lim : Bounds) × IsReached p.now lim st.now }
    ensures { IfOk result (IsStartAt st.now t) }
{
    let _main = p.main;
    if !is_ready(st, t) {
        return Ok(None);
    }
    match st.tasks.get(t as usize) {
        None => Ok(None),
        Some(row) => Ok(Some(Start {
            task: t,
            frame: ready_copy(alloc, &st.tasks, row)?,
        })),
    }
}

/// A draft of the next segment of a task in a reached state; none if the task is not ready.
pub(crate) fn draft_of(alloc: Global, p: &Prog, st: &State, t: u32) -> Result<Option<Draft>, Memory>
    requires { (lim : Bounds) × IsReached p.now lim st.now }
    ensures { IfOk result (IsDraftAt p.now st.now t) }
{
    let _main = p.main;
    match next_start(alloc, p, st, t)? {
        None => Ok(None),
        Some(start) => Ok(Some(Draft {
            task: start.task,
            frame: start.frame,
            cells: st.cells.copy(alloc)?,
        })),
    }
}
