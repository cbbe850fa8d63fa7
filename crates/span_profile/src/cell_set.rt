//! Sets of cells, which take no memory as they grow.
ghost use Rattle.std.specs.Prelude.{◌≡◌, ◌<◌, ◌&&◌, ℕ, IfOk, IsTrue, length, not, slice_get};
ghost use Rattle.span_profile.specs.inner.Sets.{has_found, is_in, no_cells, with_cell};

use std::alloc::Global;
use std::marker::Model;
use twe_base::{List, Memory};

/// Cells below a number, each at most once, in the order in which they were added.
#[derive(Debug, Drop)]
pub(crate) struct CellSet {
    /// For each cell whether it is in the set.
    has: List<bool>,
    /// The cells of the set. There is memory for all of them.
    cells: Vec<u32>,
}

impl Model for CellSet {
    ghost use Rattle.std.specs.Prelude.{length, vec_capacity};
    ghost use Rattle.span_profile.specs.inner.Sets.{IsCellSet, NumberSet};

    ghost Value = { NumberSet };

    ghost view = { λ set. record { size = length set.has; items = set.cells.items } };

    ghost invariant = { λ set. IsCellSet set.has set.cells.items (vec_capacity set.cells) };
}

/// Takes cells out of the table that says which cells are in a set.
fn take_out(has: &mut List<bool>, cells: &[u32])
    requires { (n : ℕ) → IsTrue (is_in cells.now n) → n < length has.old }
    ensures size { length has.new ≡ length has.old }
    ensures gone { (n : ℕ) → has_found (slice_get has.new n) ≡ (has_found (slice_get has.old n) && not (is_in cells.now n)) }
{
    for cell in cells {
        has.set(*cell as usize, false);
    }
}

impl CellSet {
    /// The empty set of cells below `size`.
    pub(crate) fn new(alloc: Global, size: usize) -> Result<Self, Memory>
        ensures { IfOk result (λ set. set ≡ no_cells size) }
    {
        let has = List::from(vec![in alloc; false; size]?);
        let cells = Vec::with_capacity(alloc, size)?;
        Ok(CellSet { has, cells })
    }

    /// The cells of the set.
    pub(crate) fn as_slice(&self) -> &[u32]
        ensures { result.now ≡ self.now.items }
    {
        self.cells.as_slice()
    }

    /// Adds a cell, unless it is in the set. It takes no memory.
    pub(crate) fn insert(&mut self, cell: u32)
        requires { cell < self.old.size }
        ensures { self.new ≡ with_cell cell self.old }
    {
        let at = cell as usize;
        if !self.has.as_slice()[at] {
            self.cells.push_reserved(cell);
            self.has.set(at, true);
        }
    }

    /// Takes all cells out. It takes no memory.
    pub(crate) fn clear(&mut self)
        ensures { self.new ≡ no_cells self.old.size }
    {
        take_out(&mut self.has, self.cells.as_slice());
        self.cells.clear();
    }
}
