//! What a worker keeps from draft to draft, so that a draft costs no more than the cells that it touches.
ghost use Rattle.std.specs.Prelude.{◌≡◌, ◌<◌, length, replicate, IfOk};
ghost use Rattle.std.specs.List.{All};
ghost use Rattle.twe_base.specs.Limits.{Bounds};
ghost use Rattle.twe_program.specs.Program.{cell_count};
ghost use Rattle.machine_state.specs.Runs.{IsReached};
ghost use Rattle.opt_engine.specs.declared.notes.CellMark.TheVariants.{Untouched};
ghost use Rattle.opt_engine.specs.inner.Hinting.{without_marks};
ghost use Rattle.opt_engine.specs.inner.Noting.{fresh};

use crate::notes::{CellMark, CellNotes};
use crate::touch::CellValue;
use crate::touching::Touching;
use machine_state::State;
use std::alloc::Global;
use std::marker::Model;
use twe_base::{Ints, List, Memory};
use twe_program::Prog;

/// A value and a mark for each of so many cells, none of which is marked between two drafts. Clauses see the number of cells.
#[derive(Debug, Drop)]
pub struct Scratch {
    values: Ints,
    marks: List<CellMark>,
}

impl Model for Scratch {
    ghost use Rattle.std.specs.Prelude.{◌≡◌, ℕ, length, replicate};
    ghost use Rattle.opt_engine.specs.declared.notes.CellMark.TheVariants.{Untouched};

    ghost Value = { ℕ };

    ghost view = { λ scratch. length scratch.values };

    ghost invariant = { λ scratch. scratch.marks ≡ replicate (length scratch.values) Untouched };
}

impl Scratch {
    /// Room for drafts over so many cells.
    pub fn new(alloc: Global, cells: usize) -> Result<Self, Memory>
        ensures { IfOk result (λ scratch. scratch ≡ cells) }
    {
        Ok(Scratch {
            values: List::from(vec![in alloc; 0; cells]?),
            marks: List::from(vec![in alloc; CellMark::Untouched; cells]?),
        })
    }

    /// Cells none of which was touched.
    pub(crate) fn into_touching(self, alloc: Global) -> Touching
        ensures fresh { result ≡ fresh result.cells }
        ensures cells { length result.cells ≡ self }
    {
        let Scratch { values, marks } = self;
        Touching {
            cells: values,
            notes: CellNotes {
                marks,
                reads: List::new(alloc),
                written: List::new(alloc),
            },
            missing: None,
        }
    }

    /// The same room once more, after a draft that has marked the cells that it read and wrote.
    pub(crate) fn again(
        values: Ints,
        mut marks: List<CellMark>,
        reads: &[CellValue],
        writes: &[CellValue],
    ) -> Self
        requires reads { All (λ r. r.cell < length marks) reads.now }
        requires writes { All (λ w. w.cell < length marks) writes.now }
        requires no_others { without_marks (without_marks marks reads.now) writes.now ≡ replicate (length values) Untouched }
        ensures { result ≡ length values }
    {
        unmark(&mut marks, reads);
        unmark(&mut marks, writes);
        Scratch { values, marks }
    }
}

/// Takes the marks of these cells away.
fn unmark(marks: &mut List<CellMark>, cells: &[CellValue])
    requires { All (λ c. c.cell < length marks.old) cells.now }
    ensures unmarked { marks.new ≡ without_marks marks.old cells.now }
    ensures long { length marks.new ≡ length marks.old }
{
    for at in cells {
        marks.set(at.cell as usize, CellMark::Untouched);
    }
}

/// Room for drafts over the cells of a reached state of the program.
pub(crate) fn scratch_of(alloc: Global, p: &Prog, st: &State) -> Result<Scratch, Memory>
    requires { (lim : Bounds) × IsReached p.now lim st.now }
    ensures { IfOk result (λ scratch. scratch ≡ cell_count p.now) }
{
    let _main = p.main;
    Scratch::new(alloc, st.cells.len())
}
