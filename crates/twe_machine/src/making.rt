//! Making a task.
ghost use Rattle.std.specs.Prelude.{◌≡◌, ◌+◌, ◌-◌, ◌^◌, ◌<◌, ◌++◌, ◌∷◌, [], length, true, Some, IfOk, OnOk, slice_set};
ghost use Rattle.std.specs.Option.{ForSome};
ghost use Rattle.wait_graph.specs.Link.{new_link};
ghost use Rattle.machine_state.specs.declared.state.TaskRow.{TaskRow};
ghost use Rattle.machine_state.specs.Moves.{MaySettle, children_with, making_frame, new_row, state_after_make, stop_result};
ghost use Rattle.machine_state.specs.Rows.{IsRow, row_awaited};

use crate::new_task::{NewTask, new_row, parent_of};
use crate::storing::store_frame;
use crate::task_end::{fail, without_rest};
use machine_state::State;
use seg_journal::{End, FaultKind, Limits};
use seg_meaning::{Children, Frame, Stop};
use std::alloc::Global;
use twe_base::{List, Memory, Place};

/// How a task is made.
#[derive(Clone, Copy)]
pub(crate) struct Asking {
    /// Whether it is spawned.
    pub spawned: bool,
    /// The future that will stand for it.
    pub future: u32,
    /// The place of its name.
    pub place: Place,
}

/// Lets a future stand for a task, if the frame has that future. It takes no memory.
pub fn set_future(futures: &mut List<Option<u32>>, future: u32, task: u32)
    ensures { futures.new ≡ slice_set futures.old future (Some task) }
{
    let at = future as usize;
    if at < futures.len() {
        futures.set(at, Some(task));
    }
}

/// Adds a spawned child after the other children, in the room that was reserved for it. It takes no memory.
fn add_child(out: &mut Children, child: u32, spawned: bool)
    requires { spawned ≡ true → 0 < out.old.room }
    ensures { out.new ≡ children_with spawned child out.old }
{
    if spawned {
        out.push_within(child);
    }
}

/// Records a new task in the frame of its maker. It takes no memory.
pub fn note_child(frame: &mut Frame, child: u32, future: u32, spawned: bool)
    requires { spawned ≡ true → 0 < frame.old.out.room }
    ensures { frame.new ≡ making_frame future spawned child frame.old }
{
    set_future(&mut frame.futures, future, child);
    add_child(&mut frame.out, child, spawned);
}

/// Adds a task after the others.
fn add_task(
    alloc: Global,
    lim: Limits,
    st: &mut State,
    parent: Option<u32>,
    task: NewTask,
) -> Result<(), Memory>
    requires linked { length st.old.links ≡ length st.old.tasks }
    requires parent { ForSome parent (λ t. t < length st.old.tasks) }
    requires room { length st.old.tasks < 2 ^ 32 - 1 }
    ensures { OnOk result (st.new ≡ record st.old {
      tasks = st.old.tasks ++ new_row lim (length st.old.tasks) parent task.frame task.args task.effects ∷ [];
      links = st.old.links ++ new_link parent ∷ [];
    }) }
{
    let number = st.links.add(parent)?;
    st.tasks.push(new_row(alloc, lim, number, parent, task))
}

/// Makes a task for `t` and returns its number. The future in the frame of `t` stands for it.
fn make(
    alloc: Global,
    lim: Limits,
    st: &mut State,
    t: u32,
    frame: Frame,
    task: NewTask,
    how: Asking,
) -> Result<u32, Memory>
    requires there { t < length st.old.tasks }
    requires linked { length st.old.links ≡ length st.old.tasks }
    requires above { ForSome (row_awaited frame.next) (λ on. (t < on) × (on < length st.old.tasks)) }
    requires number { st.old.asked + 1 ≡ length st.old.tasks }
    requires room { length st.old.tasks < 2 ^ 32 - 1 }
    requires child_room { how.spawned ≡ true → 0 < frame.out.room }
    ensures state { OnOk result ((row : TaskRow) → IsRow st.old t row
        → st.new ≡ state_after_make lim st.old t row frame how.future how.spawned task.frame task.args task.effects) }
    ensures number { IfOk result (λ child. child ≡ st.old.asked + 1) }
{
    let mut frame = frame;
    st.asked += 1;
    let child = st.asked;
    note_child(&mut frame, child, how.future, how.spawned);
    store_frame(alloc, st, t, frame)?;
    add_task(alloc, lim, st, parent_of(t, how.spawned), task)?;
    Ok(child)
}

/// Makes a task for `t`, whose segment stopped at a make. If the task's number is not below the limit, `t` ends with
/// a fault instead.
pub(crate) fn ask(
    alloc: Global,
    lim: Limits,
    st: &mut State,
    t: u32,
    frame: Frame,
    task: NewTask,
    how: Asking,
) -> Result<End, Memory>
    requires { MaySettle lim st.old t frame (Stop.Make task.frame task.args task.effects how.spawned how.future how.place) }
    ensures { IfOk result (λ end. (row : TaskRow) → IsRow st.old t row
        → (st.new, end)
        ≡ stop_result lim st.old t row frame (Stop.Make task.frame task.args task.effects how.spawned how.future how.place)) }
{
    if st.asked + 1 < lim.tasks {
        let child = make(alloc, lim, st, t, frame, task, how)?;
        return Ok(End::Made { child });
    }
    st.asked += 1;
    let rest = without_rest(alloc, frame);
    fail(alloc, st, t, rest, FaultKind::TaskLimit, how.place)
}
