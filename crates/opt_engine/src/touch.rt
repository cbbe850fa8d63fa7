//! Cells with values.

use twe_base::List;

/// A cell and a value of it.
#[derive(Clone, Copy, Debug, PartialEq, Eq)]
pub struct CellValue {
    /// The number of the cell.
    pub cell: u32,
    /// The value.
    pub value: i32,
}

/// Cells with values, in order.
pub type Touched = List<CellValue>;
