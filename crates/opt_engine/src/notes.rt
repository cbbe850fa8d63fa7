//! Notes of which cells a segment has read and written.
ghost use Rattle.std.specs.Prelude.{◌≡◌, ◌<◌, length, IfOk, OnOk};
ghost use Rattle.opt_engine.specs.inner.Noting.{first_write_noted, no_notes, read_noted, write_noted};

use crate::touch::{CellValue, Touched};
use std::alloc::Global;
use twe_base::{List, Memory};

/// What was done to a cell so far.
#[derive(Clone, Copy, Debug, PartialEq, Eq)]
pub(crate) enum CellMark {
    /// It was neither read nor written.
    Untouched,
    /// It was read and not written.
    Read,
    /// It was written.
    Written,
}

/// Notes of what was done to the cells.
#[derive(Debug, Drop)]
pub(crate) struct CellNotes {
    /// A mark for each cell.
    pub marks: List<CellMark>,
    /// The cells that were read before they were written, with the values read, in the order of first reading.
    pub reads: Touched,
    /// The cells that were written, in the order of first writing.
    pub written: List<u32>,
}

impl CellNotes {
    /// No notes, of this many cells.
    pub(crate) fn new(alloc: Global, cells: usize) -> Result<Self, Memory>
        ensures { IfOk result (λ notes. notes ≡ no_notes cells) }
    {
        Ok(CellNotes {
            marks: List::from(vec![in alloc; CellMark::Untouched; cells]?),
            reads: List::new(alloc),
            written: List::new(alloc),
        })
    }

    /// Notes that a cell was read, with its value.
    pub(crate) fn read(&mut self, cell: u32, value: i32) -> Result<(), Memory>
        requires { cell < length self.old.marks }
        ensures noted { OnOk result (self.new ≡ read_noted cell value self.old) }
        ensures marked { self.new.marks ≡ (read_noted cell value self.old).marks }
        ensures marks { length self.new.marks ≡ length self.old.marks }
    {
        let at = cell as usize;
        match self.marks.as_slice()[at] {
            CellMark::Untouched => {
                self.marks.set(at, CellMark::Read);
                self.reads.push(CellValue { cell, value })
            }
            CellMark::Read => Ok(()),
            CellMark::Written => Ok(()),
        }
    }

    /// Notes that a cell was written.
    pub(crate) fn write(&mut self, cell: u32) -> Result<(), Memory>
        requires { cell < length self.old.marks }
        ensures noted { OnOk result (self.new ≡ write_noted cell self.old) }
        ensures marked { self.new.marks ≡ (write_noted cell self.old).marks }
        ensures marks { length self.new.marks ≡ length self.old.marks }
    {
        let at = cell as usize;
        match self.marks.as_slice()[at] {
            CellMark::Written => Ok(()),
            CellMark::Untouched => self.first_write(cell),
            CellMark::Read => self.first_write(cell),
        }
    }

    /// Notes that a cell was written for the first time.
    fn first_write(&mut self, cell: u32) -> Result<(), Memory>
        requires { cell < length self.old.marks }
        ensures noted { OnOk result (self.new ≡ first_write_noted cell self.old) }
        ensures marked { self.new.marks ≡ (first_write_noted cell self.old).marks }
        ensures marks { length self.new.marks ≡ length self.old.marks }
    {
        self.marks.set(cell as usize, CellMark::Written);
        self.written.push(cell)
    }
}
