//! Running one segment of a task over cells that record what it reads and writes.
ghost use Rattle.std.specs.Prelude.{◌≡◌, ◌<◌, ◌^◌, [], length, IfOk, slice_get};
ghost use Rattle.twe_program.specs.Program.{cell_count};
ghost use Rattle.machine_state.specs.declared.state.TaskRow.{TaskRow};
ghost use Rattle.machine_state.specs.Moves.{ran};
ghost use Rattle.machine_state.specs.Rows.{IsRow, row_awaited};
ghost use Rattle.machine_state.specs.inner.Settling.{SettlesAfter};
ghost use Rattle.span_profile.specs.inner.Deeds.{HasDone};
ghost use Rattle.span_profile.specs.inner.Sets.{no_cells};

use crate::deed::Deed;
use crate::watched::WatchedCells;
use machine_state::State;
use seg_exec::run_segment;
use seg_journal::Limits;
use std::alloc::Global;
use std::mem;
use twe_base::Memory;
use twe_machine::{awaited, settle, take_ready};
use twe_program::Prog;

/// The task whose value the next segment of a task takes, if it takes one.
fn taken_by(st: &State, t: u32) -> Option<u32>
    ensures { (row : TaskRow) → IsRow st.now t row → result ≡ row_awaited row.frame.next }
{
    match st.tasks.get(t as usize) {
        None => None,
        Some(row) => awaited(row.frame.next),
    }
}

/// Runs a task from its present position, with the value that it has waited for, up to its next stop, and returns what it
/// did. The cells that it read and wrote are added to the sets, which have to be empty.
pub(crate) fn run(
    alloc: Global,
    p: &Prog,
    lim: Limits,
    st: &mut State,
    t: u32,
    watched: &mut WatchedCells,
) -> Result<Deed, Memory>
    requires there { t < length st.old.tasks }
    requires cells { length st.old.cells ≡ cell_count p.now }
    requires reads { watched.old.reads ≡ no_cells (cell_count p.now) }
    requires writes { watched.old.writes ≡ no_cells (cell_count p.now) }
    requires settles { SettlesAfter p.now lim st.old t }
    requires fuel { (row : TaskRow) → IsRow st.old t row → row.frame.fuel < 2 ^ 32 }
    requires prints { (row : TaskRow) → IsRow st.old t row → row.frame.prints ≡ [] }
    ensures moved { IfOk result (λ deed. (st.new, deed.end) ≡ ran p.now lim st.old t (slice_get st.old.tasks t)) }
    ensures done { IfOk result (λ deed. (row : TaskRow) → IsRow st.old t row → HasDone p.now st.old t row deed watched.new) }
{
    let _main = p.main;
    let taken = taken_by(st, t);
    let mut frame = take_ready(alloc, &mut st.tasks, t);
    let (fuel, printed) = (frame.fuel, frame.prints.len());
    mem::swap(&mut watched.values, &mut st.cells);
    let stop = run_segment(alloc, p, &mut frame, watched)?;
    mem::swap(&mut watched.values, &mut st.cells);
    let weight = 1 + fuel.saturating_sub(frame.fuel);
    let printed = printed < frame.prints.len();
    let end = settle(alloc, lim, st, t, frame, stop)?;
    Ok(Deed {
        task: t,
        weight,
        taken,
        end,
        printed,
    })
}
