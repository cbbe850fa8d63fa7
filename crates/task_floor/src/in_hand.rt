//! The cell that a segment on the floor has in hand.
ghost use Rattle.std.specs.Prelude.{◌≡◌};
ghost use Rattle.task_floor.specs.inner.InHand.{value_in_hand};

/// The cell that a segment touched last. While it is in hand, reads and writes of it need no step of the floor.
#[derive(Clone, Copy, Debug)]
pub(crate) enum CellInHand {
    /// None.
    Nothing,
    /// The floor has its value.
    Known {
        /// The number of the cell.
        cell: u32,
        /// Its value.
        value: i32,
    },
    /// The segment has written it, and the floor doesn't have that value yet.
    Written {
        /// The number of the cell.
        cell: u32,
        /// Its new value.
        value: i32,
    },
}

impl CellInHand {
    /// The value of the cell, if it is the one in hand.
    #[inline(always)]
    pub(crate) fn value_of(self, cell: u32) -> Option<i32>
        ensures { result ≡ value_in_hand self cell }
    {
        match self {
            CellInHand::Nothing => None,
            CellInHand::Known { cell: held, value } => {
                if held == cell { Some(value) } else { None }
            }
            CellInHand::Written { cell: held, value } => {
                if held == cell { Some(value) } else { None }
            }
        }
    }
}
