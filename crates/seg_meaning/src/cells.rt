//! The cells that a segment reads and writes.
ghost use Rattle.std.specs.Prelude.{ℕ, ℤ, Option};
ghost use Rattle.seg_meaning.specs.Access.{Access, HasRead, HasWritten, ways_of};
ghost use Rattle.seg_meaning.specs.Plain.{ListFollows, ListMay, list_knows};

use twe_base::Ints;

/// An implementation of the cells of a program, which are known by their numbers. It states three things: the values of
/// the cells that are known, which cells may be read and which may be written, and a rule for what each access does to
/// the implementation.
pub trait Cells {
    /// The value of a cell, if it is known.
    ghost known: { Self → ℕ → Option ℤ };

    /// Whether a cell may be read.
    ghost may_read: { Self → ℕ → Type 0 };

    /// Whether a cell may be written.
    ghost may_write: { Self → ℕ → Type 0 };

    /// Whether an access leads from one state to another.
    ghost rule: { Self → Access → Self → Type 0 };

    /// Returns the value of a cell that may be read. If the value was known, it is that one; afterwards it is known.
    fn get(&mut self, cell: u32) -> i32
        requires { may_read self.old cell }
        ensures { HasRead (ways_of known may_read may_write rule) self.old cell result self.new };

    /// Gives a value to a cell that may be written. Afterwards the value is known.
    fn set(&mut self, cell: u32, value: i32)
        requires { may_write self.old cell }
        ensures { HasWritten (ways_of known may_read may_write rule) self.old cell value self.new };
}

/// A plain list of cells: each cell is known, and may be read and written.
impl Cells for Ints {
    ghost known = { list_knows };

    ghost may_read = { ListMay };

    ghost may_write = { ListMay };

    ghost rule = { ListFollows };

    fn get(&mut self, cell: u32) -> i32 {
        self.as_slice()[cell as usize]
    }

    fn set(&mut self, cell: u32, value: i32) {
        self.set(cell as usize, value);
    }
}
