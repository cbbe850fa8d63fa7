//! The cells of a run, each write of which goes to the hints too.
ghost use Rattle.std.specs.Prelude.{◌≡◌, length, IfOk};
ghost use Rattle.twe_program.specs.Program.{cell_count};
ghost use Rattle.seg_meaning.specs.Plain.{ListFollows, ListMay, list_knows};
ghost use Rattle.seg_meaning.specs.Segment.{IsSegment};
ghost use Rattle.machine_state.specs.Legal.{MayRun};
ghost use Rattle.machine_state.specs.Moves.{move_result};
ghost use Rattle.machine_state.specs.Runs.{IsReached};

use crate::hints::Hints;
use machine_state::State;
use seg_exec::run_segment;
use seg_journal::{End, Kind};
use seg_meaning::{Cells, Frame, Stop};
use std::alloc::Global;
use std::marker::Model;
use std::mem;
use twe_base::{Ints, Limits, Memory};
use twe_machine::{settle, take_ready};
use twe_program::Prog;

/// The values of the cells, beside the hints of them. Clauses see the values.
#[derive(Drop)]
struct Mirrored<'a> {
    cells: Ints,
    hints: &'a Hints,
}

impl<'a> Model for Mirrored<'a> {
    ghost use Rattle.std.specs.Prelude.{ℤ, List};

    ghost Value = { List ℤ };

    ghost view = { λ mirrored. mirrored.cells };
}

/// A plain list of cells.
impl<'a> Cells for Mirrored<'a> {
    ghost known = { list_knows };

    ghost may_read = { ListMay };

    ghost may_write = { ListMay };

    ghost rule = { ListFollows };

    fn get(&mut self, cell: u32) -> i32 {
        self.cells.as_slice()[cell as usize]
    }

    fn set(&mut self, cell: u32, value: i32) {
        self.cells.set(cell as usize, value);
        self.hints.store(cell, value);
    }
}

impl<'a> Mirrored<'a> {
    /// These cells, beside these hints.
    fn new(cells: Ints, hints: &'a Hints) -> Self
        ensures { result ≡ cells }
    {
        Mirrored { cells, hints }
    }

    /// The cells without the hints.
    fn into_cells(self) -> Ints
        ensures { result ≡ self.entry }
    {
        let Mirrored { cells, .. } = self;
        cells
    }
}

/// Runs the next segment of a task that may run in a reached state of the program under these limits, and returns the end of
/// the move. By its code what the segment writes is stored to the hints too. After `Memory` nothing is known of the state, which
/// can only be dropped.
pub(crate) fn run_mirrored(
    alloc: Global,
    p: &Prog,
    lim: Limits,
    hints: &Hints,
    st: &mut State,
    t: u32,
) -> Result<End, Memory>
    requires reached { IsReached p.now lim st.old }
    requires may { MayRun st.old t }
    ensures { IfOk result (λ end. (st.new, end) ≡ move_result p.now lim st.old (record { kind = Kind.Run; task = t })) }
{
    let _main = p.main;
    let _tasks = lim.tasks;
    let mut frame = take_ready(alloc, &mut st.tasks, t);
    let stop = run_on(alloc, p, hints, &mut frame, &mut st.cells)?;
    settle(alloc, lim, st, t, frame, stop)
}

/// Runs a segment over the cells of the program.
fn run_on(
    alloc: Global,
    p: &Prog,
    hints: &Hints,
    frame: &mut Frame,
    cells: &mut Ints,
) -> Result<Stop, Memory>
    requires { length cells.old ≡ cell_count p.now }
    ensures { IfOk result (λ stop. IsSegment p.now frame.old cells.old stop frame.new cells.new) }
{
    let _main = p.main;
    let mut mirrored = Mirrored::new(mem::replace(cells, Ints::new(alloc)), hints);
    let stop = run_segment(alloc, p, frame, &mut mirrored)?;
    *cells = mirrored.into_cells();
    Ok(stop)
}
