//! Storing the frame of a segment that has stopped in the row of its task.
ghost use Rattle.std.specs.Prelude.{◌≡◌, ◌<◌, ◌++◌, length, OnOk};
ghost use Rattle.std.specs.Option.{ForSome};
ghost use Rattle.machine_state.specs.declared.state.TaskRow.{TaskRow};
ghost use Rattle.machine_state.specs.Moves.{frame_without_prints, going_row, state_after_storing};
ghost use Rattle.machine_state.specs.Rows.{IsRow, row_awaited};

use machine_state::State;
use seg_meaning::{Frame, Next};
use std::alloc::Global;
use twe_base::{Ints, List, Memory};

/// The task that the next operation waits for, if it is a wait. It takes no memory.
pub fn awaited(next: Next) -> Option<u32>
    ensures { result ≡ row_awaited next }
{
    match next {
        Next::Go => None,
        Next::Get { on, .. } => Some(on),
        Next::Join { on, .. } => Some(on),
        Next::Closing { on } => Some(on),
        Next::Ended => None,
    }
}

/// Moves the printed numbers of a frame to the end of those of the run.
fn take_prints(alloc: Global, prints: &mut Ints, frame: &mut Frame) -> Result<(), Memory>
    ensures prints { OnOk result (prints.new ≡ prints.old ++ frame.old.prints) }
    ensures frame { OnOk result (frame.new ≡ frame_without_prints frame.old) }
{
    prints.push_all(frame.prints.as_slice())?;
    frame.prints = Ints::new(alloc);
    Ok(())
}

/// Stores the frame of an unfinished task in its row. The numbers that the segment printed join those of the run, and
/// the links say what the task waits for.
pub(crate) fn store_frame(alloc: Global, st: &mut State, t: u32, frame: Frame) -> Result<(), Memory>
    requires there { t < length st.old.tasks }
    requires linked { length st.old.links ≡ length st.old.tasks }
    requires above { ForSome (row_awaited frame.next) (λ on. (t < on) × (on < length st.old.tasks)) }
    ensures state { OnOk result ((row : TaskRow)
        → IsRow st.old t row → st.new ≡ state_after_storing st.old t frame (going_row row frame)) }
    ensures rows { OnOk result (length st.new.tasks ≡ length st.old.tasks) }
    ensures linked { OnOk result (length st.new.links ≡ length st.new.tasks) }
{
    let mut frame = frame;
    st.links.set_wait(t, awaited(frame.next));
    take_prints(alloc, &mut st.prints, &mut frame)?;
    let out = List::from_slice(alloc, frame.out.as_slice())?;
    let row = st.tasks.item_mut(t as usize);
    row.frame = frame;
    row.out = out;
    Ok(())
}
