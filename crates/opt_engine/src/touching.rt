//! Cells that note what a segment reads and writes.
ghost use Rattle.std.specs.Prelude.{◌≡◌, map, IfOk, None};
ghost use Rattle.opt_engine.specs.inner.Noting.{MayTouch, TouchFollows, fresh, touch_knows, value_at};

use crate::notes::{CellMark, CellNotes};
use crate::touch::{CellValue, Touched};
use seg_meaning::Cells;
use std::alloc::Global;
use twe_base::{Ints, List, Memory};

/// The values of the cells, with notes of what was read and written. A note that finds no memory is missing. Then `missing`
/// says why, from then on, and later notes may be missing too.
#[derive(Debug, Drop)]
pub(crate) struct Touching {
    /// The values.
    pub cells: Ints,
    /// The notes.
    pub notes: CellNotes,
    /// Why the first missing note is missing, if one is.
    pub missing: Option<Memory>,
}

/// What is left of such cells after a segment.
#[derive(Debug, Drop)]
pub(crate) struct Noted {
    /// The values.
    pub cells: Ints,
    /// A mark for each cell.
    pub marks: List<CellMark>,
    /// What was read before it was written.
    pub reads: Touched,
    /// What was written, with the values that the cells have now.
    pub writes: Touched,
}

impl Touching {
    /// These cells, none of which was read or written.
    pub(crate) fn new(alloc: Global, cells: Ints) -> Result<Self, Memory>
        ensures { IfOk result (λ touching. touching ≡ fresh cells) }
    {
        let notes = CellNotes::new(alloc, cells.len())?;
        Ok(Touching {
            cells,
            notes,
            missing: None,
        })
    }

    /// What was read before it was written, and what was written, with the values that the cells have now.
    pub(crate) fn into_noted(self, alloc: Global) -> Result<Noted, Memory>
        ensures whole { IfOk result (λ _. self.missing ≡ None) }
        ensures cells { IfOk result (λ noted. noted.cells ≡ self.cells) }
        ensures marks { IfOk result (λ noted. noted.marks ≡ self.notes.marks) }
        ensures reads { IfOk result (λ noted. noted.reads ≡ self.notes.reads) }
        ensures writes { IfOk result (λ noted. noted.writes ≡ map (value_at self.cells) self.notes.written) }
    {
        let Touching {
            cells,
            notes,
            missing,
        } = self;
        if let Some(memory) = missing {
            return Err(memory);
        }
        let CellNotes {
            marks,
            reads,
            written,
        } = notes;
        let writes = values_of(alloc, &cells, written.as_slice())?;
        Ok(Noted {
            cells,
            marks,
            reads,
            writes,
        })
    }
}

/// These cells with their values.
fn values_of(alloc: Global, cells: &Ints, written: &[u32]) -> Result<Touched, Memory>
    ensures { IfOk result (λ values. values ≡ map (value_at cells.now) written.now) }
{
    let mut values = List::with_capacity(alloc, written.len())?;
    for cell in written {
        values.push(value_at(cells, *cell))?;
    }
    Ok(values)
}

/// A cell with its value.
fn value_at(cells: &Ints, cell: u32) -> CellValue
    ensures { result ≡ value_at cells.now cell }
{
    let value = match cells.get(cell as usize) {
        Some(value) => *value,
        None => 0,
    };
    CellValue { cell, value }
}

/// Each cell is known, and may be read and written.
impl Cells for Touching {
    ghost known = { touch_knows };

    ghost may_read = { MayTouch };

    ghost may_write = { MayTouch };

    ghost rule = { TouchFollows };

    fn get(&mut self, cell: u32) -> i32 {
        let value = self.cells.as_slice()[cell as usize];
        if self.missing.is_none() {
            self.missing = self.notes.read(cell, value).err();
        }
        value
    }

    fn set(&mut self, cell: u32, value: i32) {
        self.cells.set(cell as usize, value);
        if self.missing.is_none() {
            self.missing = self.notes.write(cell).err();
        }
    }
}
