//! Cells whose values are learned from hints at their first access.
ghost use Rattle.std.specs.Prelude.{◌≡◌, ◌<◌, length, slice_get, Some};
ghost use Rattle.seg_meaning.specs.Access.{HasRead, HasWritten};
ghost use Rattle.opt_engine.specs.inner.Hinting.{HintFollows, IsNoted, hint_knows, hint_ways};
ghost use Rattle.opt_engine.specs.inner.Noting.{MayTouch, read_noted, write_noted};

use crate::hints::Hints;
use crate::notes::CellMark;
use crate::touching::Touching;
use seg_meaning::Cells;
use std::marker::Model;
use steal_pool::gates::Gate;

/// Reads a cell. If it was not touched before, its value is that of its hint.
fn read_hinted(touching: &mut Touching, hints: &Hints, cell: u32) -> i32
    requires { MayTouch touching.old cell }
    ensures { HasRead hint_ways touching.old cell result touching.new }
{
    match touching.notes.marks.as_slice()[cell as usize] {
        CellMark::Untouched => read_first(touching, cell, hints.load(cell)),
        CellMark::Read => touching.cells.as_slice()[cell as usize],
        CellMark::Written => touching.cells.as_slice()[cell as usize],
    }
}

/// Reads a cell that was not touched before and has this value.
fn read_first(touching: &mut Touching, cell: u32, value: i32) -> i32
    requires may { MayTouch touching.old cell }
    requires first { slice_get touching.old.notes.marks cell ≡ Some CellMark.Untouched }
    ensures { HasRead hint_ways touching.old cell result touching.new }
{
    touching.cells.set(cell as usize, value);
    note_read(touching, cell, value);
    value
}

/// Gives a cell a value.
fn write_hinted(touching: &mut Touching, cell: u32, value: i32)
    requires { MayTouch touching.old cell }
    ensures { HasWritten hint_ways touching.old cell value touching.new }
{
    touching.cells.set(cell as usize, value);
    note_write(touching, cell);
}

/// Notes that a cell was read, with its value.
fn note_read(touching: &mut Touching, cell: u32, value: i32)
    requires { cell < length touching.old.notes.marks }
    ensures cells { touching.new.cells ≡ touching.old.cells }
    ensures marks { touching.new.notes.marks ≡ (read_noted cell value touching.old.notes).marks }
    ensures noted { IsNoted touching.old (read_noted cell value touching.old.notes) touching.new }
{
    let missing = touching.notes.read(cell, value).err();
    if touching.missing.is_none() {
        touching.missing = missing;
    }
}

/// Notes that a cell was written.
fn note_write(touching: &mut Touching, cell: u32)
    requires { cell < length touching.old.notes.marks }
    ensures cells { touching.new.cells ≡ touching.old.cells }
    ensures marks { touching.new.notes.marks ≡ (write_noted cell touching.old.notes).marks }
    ensures noted { IsNoted touching.old (write_noted cell touching.old.notes) touching.new }
{
    let missing = touching.notes.write(cell).err();
    if touching.missing.is_none() {
        touching.missing = missing;
    }
}

/// The cells of a draft, which begins with no value. Its worker holds no lock, and tells the gate of each access before it is
/// made. Clauses see the values that were learned, with the notes.
#[derive(Drop)]
pub(crate) struct Hinted<'a, G> {
    hints: &'a Hints,
    gate: &'a G,
    // The task that the gate is told.
    task: u32,
    touching: Touching,
}

impl<'a, G> Model for Hinted<'a, G> {
    ghost use Rattle.opt_engine.specs.declared.touching.Touching.{Touching};

    ghost Value = { Touching };

    ghost view = { λ hinted. hinted.touching };
}

/// A cell is known once it was touched. Each may be read and written.
impl<'a, G: Gate> Cells for Hinted<'a, G> {
    ghost known = { hint_knows };

    ghost may_read = { MayTouch };

    ghost may_write = { MayTouch };

    ghost rule = { HintFollows };

    fn get(&mut self, cell: u32) -> i32 {
        self.gate.touch(self.task);
        read_hinted(&mut self.touching, self.hints, cell)
    }

    fn set(&mut self, cell: u32, value: i32) {
        self.gate.touch(self.task);
        write_hinted(&mut self.touching, cell, value);
    }
}

impl<'a, G> Hinted<'a, G> {
    /// The cells of a draft of this task, of which these were touched.
    pub(crate) fn new(hints: &'a Hints, gate: &'a G, task: u32, touching: Touching) -> Self
        ensures { result ≡ touching }
    {
        Hinted {
            hints,
            gate,
            task,
            touching,
        }
    }

    /// What was learned and noted.
    pub(crate) fn into_touching(self) -> Touching
        ensures { result ≡ self.entry }
    {
        let Hinted { touching, .. } = self;
        touching
    }
}
