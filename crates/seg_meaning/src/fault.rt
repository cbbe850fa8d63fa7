//! What leads to a fault within a segment.
ghost use Rattle.std.specs.Prelude.{◌≡◌};
ghost use Rattle.seg_meaning.specs.Causes.{fault_kind};

use twe_base::FaultKind;

/// What leads to a fault within a segment, with the values that led to it. A task too many is none: the segment has stopped then.
#[derive(Clone, Copy, Debug, PartialEq, Eq)]
pub enum FaultCause {
    /// A division by zero, or a remainder of one.
    DivZero,
    /// An index outside its array.
    Index(i32),
    /// A row and a column that are no indexes of their grid: one of the two, or both, are outside.
    GridIndex {
        /// The row.
        row: i32,
        /// The column.
        column: i32,
    },
    /// The task has used up its fuel.
    Fuel,
    /// Too many method calls are active at once.
    Depth,
}

impl FaultCause {
    /// The kind of fault that it leads to.
    pub fn kind(self) -> FaultKind
        ensures { result ≡ fault_kind self }
    {
        match self {
            FaultCause::DivZero => FaultKind::DivZero,
            FaultCause::Index(_) => FaultKind::Index,
            FaultCause::GridIndex { .. } => FaultKind::Index,
            FaultCause::Fuel => FaultKind::Fuel,
            FaultCause::Depth => FaultKind::Depth,
        }
    }
}
