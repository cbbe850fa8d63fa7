//! Ending a task, with a value or with a fault.
ghost use Rattle.std.specs.Prelude.{◌≡◌, ◌<◌, length, IfOk, OnOk};
ghost use Rattle.std.specs.Option.{ForSome};
ghost use Rattle.seg_journal.specs.declared.journal.End.TheVariants as ends;
ghost use Rattle.machine_state.specs.declared.state.TaskRow.{TaskRow};
ghost use Rattle.machine_state.specs.declared.state.TaskStatus.TheVariants.{Done};
ghost use Rattle.machine_state.specs.Moves.{state_after_fault, state_after_finish, first_fault_of, stopped_frame};
ghost use Rattle.machine_state.specs.Rows.{IsRow, row_awaited};

use crate::storing::store_frame;
use machine_state::{FirstFault, State, TaskRow, TaskStatus};
use seg_journal::{End, FaultKind};
use seg_meaning::{Frame, Next};
use std::alloc::Global;
use twe_base::{List, Memory, Place};

/// Ends a task with a value.
pub(crate) fn finish(
    alloc: Global,
    st: &mut State,
    t: u32,
    frame: Frame,
    value: i32,
) -> Result<End, Memory>
    requires there { t < length st.old.tasks }
    requires linked { length st.old.links ≡ length st.old.tasks }
    requires above { ForSome (row_awaited frame.next) (λ on. (t < on) × (on < length st.old.tasks)) }
    ensures state { OnOk result ((row : TaskRow) → IsRow st.old t row → st.new ≡ state_after_finish st.old t row frame value) }
    ensures end { IfOk result (λ end. end ≡ ends.Done value) }
{
    store_frame(alloc, st, t, frame)?;
    end_row(st.tasks.item_mut(t as usize), value);
    st.links.set_done(t);
    Ok(End::Done { value })
}

/// Records in a row that the task has ended with a value.
fn end_row(row: &mut TaskRow, value: i32)
    ensures { row.new ≡ record row.old { status = Done; value = value } }
{
    row.status = TaskStatus::Done;
    row.value = value;
}

/// Ends a task with a fault.
pub(crate) fn fail(
    alloc: Global,
    st: &mut State,
    t: u32,
    frame: Frame,
    kind: FaultKind,
    place: Place,
) -> Result<End, Memory>
    requires there { t < length st.old.tasks }
    requires linked { length st.old.links ≡ length st.old.tasks }
    requires above { ForSome (row_awaited frame.next) (λ on. (t < on) × (on < length st.old.tasks)) }
    ensures state { OnOk result ((row : TaskRow)
        → IsRow st.old t row → st.new ≡ state_after_fault st.old t row frame kind place) }
    ensures end { IfOk result (λ end. end ≡ ends.Fault kind place) }
{
    store_frame(alloc, st, t, frame)?;
    st.tasks.item_mut(t as usize).status = TaskStatus::Faulted;
    note_fault(&mut st.first_fault, t, kind, place);
    Ok(End::Fault { kind, place })
}

/// The frame of a task that has met a fault, with nothing left to run.
pub(crate) fn without_rest(alloc: Global, frame: Frame) -> Frame
    ensures { result ≡ stopped_frame frame }
{
    let mut frame = frame;
    frame.body = None;
    frame.next = Next::Ended;
    frame
}

/// Records a fault, unless there was one before.
fn note_fault(first: &mut Option<FirstFault>, task: u32, kind: FaultKind, place: Place)
    ensures { first.new ≡ first_fault_of first.old task kind place }
{
    if first.is_none() {
        *first = Some(FirstFault { task, kind, place });
    }
}
