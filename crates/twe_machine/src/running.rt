//! Running one segment of a task.
ghost use Rattle.std.specs.Prelude.{◌≡◌, ◌<◌, length, IfOk, Some, slice_get, slice_set, option_copied};
ghost use Rattle.twe_program.specs.Program.{cell_count};
ghost use Rattle.machine_state.specs.declared.state.TaskRow.{TaskRow};
ghost use Rattle.machine_state.specs.FramesOut.{no_frame, without_frame};
ghost use Rattle.machine_state.specs.Moves.{awaited_value, ran, ready_frame, value_of};
ghost use Rattle.machine_state.specs.Rows.{row_awaited};
ghost use Rattle.machine_state.specs.inner.Settling.{SettlesAfter};

use crate::settling::settle;
use crate::storing::awaited;
use machine_state::{State, TaskRow};
use seg_exec::run_segment_over_list;
use seg_journal::{End, Limits};
use seg_meaning::{Children, Frame, Next};
use std::alloc::Global;
use std::mem;
use twe_base::{Ints, List, Memory};
use twe_program::Prog;

/// Runs a task from its present position, with the value that it has waited for, up to its next stop.
pub(crate) fn run(
    alloc: Global,
    p: &Prog,
    lim: Limits,
    st: &mut State,
    t: u32,
) -> Result<End, Memory>
    requires there { t < length st.old.tasks }
    requires cells { length st.old.cells ≡ cell_count p.now }
    requires settles { SettlesAfter p.now lim st.old t }
    ensures { IfOk result (λ end. (st.new, end) ≡ ran p.now lim st.old t (slice_get st.old.tasks t)) }
{
    let mut frame = take_ready(alloc, &mut st.tasks, t);
    let stop = run_segment_over_list(alloc, p, &mut frame, &mut st.cells)?;
    settle(alloc, lim, st, t, frame, stop)
}

/// Takes the frame out of the row of a task, with the value that it has waited for. The row is left with a frame that has
/// nothing to run. It takes no memory.
pub fn take_ready(alloc: Global, rows: &mut List<TaskRow>, t: u32) -> Frame
    requires { t < length rows.old }
    ensures frame { (row : TaskRow) → slice_get rows.old t ≡ Some row → result ≡ ready_frame rows.old row.frame }
    ensures rows { (row : TaskRow) → slice_get rows.old t ≡ Some row → rows.new ≡ slice_set rows.old t (without_frame row) }
{
    let mut frame = mem::replace(&mut rows.item_mut(t as usize).frame, no_frame(alloc));
    let value = awaited_value(rows, awaited(frame.next));
    frame.give(value);
    frame
}

/// A frame with nothing left to run.
fn no_frame(alloc: Global) -> Frame
    ensures { result ≡ no_frame }
{
    Frame {
        task: 0,
        decl: 0,
        body: None,
        fuel: 0,
        futures: List::new(alloc),
        out: Children::new(alloc),
        next: Next::Ended,
        value: 0,
        prints: Ints::new(alloc),
    }
}

/// The value of the awaited task, and 0 if there is none. It takes no memory.
pub fn awaited_value(rows: &List<TaskRow>, on: Option<u32>) -> i32
    ensures { result ≡ awaited_value rows.now on }
{
    match on {
        None => 0,
        Some(on) => value_of(rows.get(on as usize)),
    }
}

/// The value of a task, and 0 if there is no such task.
fn value_of(row: Option<&TaskRow>) -> i32
    ensures { result ≡ value_of (option_copied row.entry) }
{
    match row {
        None => 0,
        Some(row) => row.value,
    }
}
