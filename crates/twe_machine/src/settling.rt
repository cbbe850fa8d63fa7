//! Settling a segment that has stopped: the state after it.
ghost use Rattle.std.specs.Prelude.{◌≡◌, ◌<◌, length, IfOk, OnOk, slice_get};
ghost use Rattle.std.specs.Option.{ForSome};
ghost use Rattle.machine_state.specs.declared.state.TaskRow.{TaskRow};
ghost use Rattle.machine_state.specs.Moves.{MaySettle, going_row, state_after_storing, settling_result, stop_result};
ghost use Rattle.machine_state.specs.Rows.{IsRow, row_awaited};

use crate::making::{Asking, ask};
use crate::new_task::NewTask;
use crate::storing::store_frame;
use crate::taken_joins::take_join;
use crate::task_end::{fail, finish};
use machine_state::State;
use seg_journal::{End, Limits};
use seg_meaning::{Frame, Stop};
use std::alloc::Global;
use twe_base::Memory;

/// Settles a segment of this task that left this frame and stopped in this way, and returns the end of the move. It
/// marks the child as joined whose join the segment began with, stores the frame, adds a task that the segment makes,
/// and appends the numbers that it printed to those of the run. The cells of the state have to be those after the
/// segment. After `Memory` nothing is known of the state, which can only be dropped.
pub fn settle(
    alloc: Global,
    lim: Limits,
    st: &mut State,
    t: u32,
    frame: Frame,
    stop: Stop,
) -> Result<End, Memory>
    requires { MaySettle lim st.old t frame stop }
    ensures { IfOk result (λ end. (st.new, end) ≡ settling_result lim st.old t (slice_get st.old.tasks t) frame stop) }
{
    take_join(st, t);
    stop_task(alloc, lim, st, t, frame, stop)
}

/// The same after the child was marked as joined.
fn stop_task(
    alloc: Global,
    lim: Limits,
    st: &mut State,
    t: u32,
    frame: Frame,
    stop: Stop,
) -> Result<End, Memory>
    requires { MaySettle lim st.old t frame stop }
    ensures { IfOk result (λ end. (row : TaskRow) → IsRow st.old t row
        → (st.new, end) ≡ stop_result lim st.old t row frame stop) }
{
    match stop {
        Stop::Make {
            child,
            args,
            effects,
            spawned,
            future,
            place,
        } => {
            let task = NewTask {
                frame: child,
                args,
                effects,
            };
            let how = Asking {
                spawned,
                future,
                place,
            };
            ask(alloc, lim, st, t, frame, task, how)
        }
        Stop::Waits { on } => go_on(alloc, st, t, frame, End::Waits { on }),
        Stop::Joins { on } => go_on(alloc, st, t, frame, End::Joins { on }),
        Stop::Done { value } => finish(alloc, st, t, frame, value),
        Stop::Fault { kind, place } => fail(alloc, st, t, frame, kind, place),
    }
}

/// Stores the frame of an unfinished task, and returns the given end of its segment.
fn go_on(alloc: Global, st: &mut State, t: u32, frame: Frame, end: End) -> Result<End, Memory>
    requires there { t < length st.old.tasks }
    requires linked { length st.old.links ≡ length st.old.tasks }
    requires above { ForSome (row_awaited frame.next) (λ on. (t < on) × (on < length st.old.tasks)) }
    ensures state { OnOk result ((row : TaskRow)
        → IsRow st.old t row → st.new ≡ state_after_storing st.old t frame (going_row row frame)) }
    ensures end { IfOk result (λ answer. answer ≡ end) }
{
    store_frame(alloc, st, t, frame)?;
    Ok(end)
}
