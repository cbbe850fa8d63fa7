//! Cells that record which of them were read and written.
ghost use Rattle.span_profile.specs.inner.Watch.{MayTouch, WatchFollows, watch_knows};

use crate::cell_set::CellSet;
use seg_meaning::Cells;
use twe_base::Ints;

/// The values of the cells, with the cells that were read and those that were written.
#[derive(Debug, Drop)]
pub(crate) struct WatchedCells {
    /// The values.
    pub values: Ints,
    /// The cells that were read.
    pub reads: CellSet,
    /// The cells that were written.
    pub writes: CellSet,
}

/// Each cell is known, and may be read and written. A read or a write adds the cell to its set.
impl Cells for WatchedCells {
    ghost known = { watch_knows };

    ghost may_read = { MayTouch };

    ghost may_write = { MayTouch };

    ghost rule = { WatchFollows };

    fn get(&mut self, cell: u32) -> i32 {
        self.reads.insert(cell);
        self.values.as_slice()[cell as usize]
    }

    fn set(&mut self, cell: u32, value: i32) {
        self.writes.insert(cell);
        self.values.set(cell as usize, value);
    }
}
