//! The floor with its nodes, and its stands.
ghost use Rattle.std.specs.Prelude.{◌≡◌, ◌<◌, ◌^◌, length};
ghost use Rattle.twe_program.specs.Program.{cell_count};
ghost use Rattle.twe_program.specs.WellFormed.{IsWellFormed};
ghost use Rattle.floor_laws.specs.table.Layout.{cell_place, phase_place, turn_place, word_count};
ghost use Rattle.floor_laws.specs.table.nodes.Layout.{content_place, decider_place, lock_place, tree_slot_count, tree_word_count};

use atomic_table::{Seat, Table};
use floor_laws::table::Named;
use floor_laws::table::nodes::{Planted, TreeLaw, TreeSlot, TreeStart, TreeView};
use std::alloc::Global;
use std::marker::Model;

/// How many words a cache line of 64 bytes has.
pub(crate) const CACHE_LINE: usize = 8;

/// How many words lie from the turn word of a task to that of the next one.
pub(crate) const TASK_SPAN: usize = 9;

/// The floor of a run with the nodes of its tree, which all workers share. `N` names the program, the limits and the nodes.
/// Clauses see the name of its table.
#[derive(Drop)]
pub struct Floor<N: Named + Planted> {
    pub(crate) table: Table<TreeSlot, TreeView, TreeStart, TreeLaw<N>, Global>,
    // How many cells there are.
    pub(crate) cells: usize,
    // How many words there are before the first decider word.
    pub(crate) words: usize,
    // How many tasks may be made.
    pub(crate) tasks: usize,
}

impl<N: Named + Planted> Model for Floor<N> {
    ghost use Rattle.std.specs.Prelude.{◌≡◌, ◌<◌, ◌^◌};
    ghost use Rattle.atomic_table.specs.Seated.{TableId};
    ghost use Rattle.twe_program.specs.Program.{cell_count};
    ghost use Rattle.floor_laws.specs.table.Layout.{word_count};
    ghost use Rattle.floor_laws.specs.table.nodes.Layout.{tree_slot_count, tree_word_count};

    ghost Value = { TableId };

    ghost view = { λ floor. floor.table.shared.table_id };

    ghost invariant = { λ floor. (floor.cells ≡ cell_count N.prog) × (floor.words ≡ word_count N.prog N.lim)
        × (floor.tasks ≡ N.lim.tasks) × (floor.table.shared.table_id.words ≡ tree_word_count N.nodes N.prog N.lim)
        × (floor.table.shared.table_id.slots ≡ tree_slot_count N.nodes N.lim)
        × (tree_word_count N.nodes N.prog N.lim < 2 ^ 64) × (tree_slot_count N.nodes N.lim < 2 ^ 64) };
}

/// A worker's stand on the floor: what the worker knows, and the slots that it has out.
pub type Stand = Seat<TreeSlot, TreeView>;

impl<N: Named + Planted> Floor<N> {
    /// The floor that lies on this table.
    pub(crate) fn of_table(
        table: Table<TreeSlot, TreeView, TreeStart, TreeLaw<N>, Global>,
        cells: usize,
        words: usize,
        tasks: usize,
    ) -> Self
        requires cells { cells ≡ cell_count N.prog }
        requires words { (words ≡ word_count N.prog N.lim)
            × (table.shared.table_id.words ≡ tree_word_count N.nodes N.prog N.lim) }
        requires slots { (tasks ≡ N.lim.tasks) × (table.shared.table_id.slots ≡ tree_slot_count N.nodes N.lim) }
        requires fits { (tree_word_count N.nodes N.prog N.lim < 2 ^ 64) × (tree_slot_count N.nodes N.lim < 2 ^ 64) }
        ensures { result ≡ table.shared.table_id }
    {
        Floor {
            table,
            cells,
            words,
            tasks,
        }
    }

    /// How many words there are before the first decider word.
    pub(crate) fn word_count(cells: usize, tasks: u32) -> usize
        requires accepted { IsWellFormed N.prog }
        requires counts { (cells ≡ cell_count N.prog) × (tasks ≡ N.lim.tasks) }
        ensures { result ≡ word_count N.prog N.lim }
    {
        CACHE_LINE + CACHE_LINE * cells + TASK_SPAN * tasks as usize
    }

    /// Where the word of a cell lies.
    pub(crate) fn cell_place(&self, cell: u32) -> usize
        requires { cell < cell_count N.prog }
        ensures { result ≡ cell_place cell }
    {
        let _words = self.words;
        CACHE_LINE + CACHE_LINE * cell as usize
    }

    /// Where the turn word of a task lies.
    pub(crate) fn turn_place(&self, task: u32) -> usize
        requires { task < N.lim.tasks }
        ensures { result ≡ turn_place N.prog task }
    {
        let _words = self.words;
        CACHE_LINE + CACHE_LINE * self.cells + TASK_SPAN * task as usize
    }

    /// Where the phase word of a task lies.
    pub(crate) fn phase_place(&self, task: u32) -> usize
        requires { task < N.lim.tasks }
        ensures { result ≡ phase_place N.prog task }
    {
        let _words = self.words;
        CACHE_LINE + CACHE_LINE * self.cells + TASK_SPAN * task as usize + 1
    }

    /// Where the lock word of a node lies.
    pub(crate) fn lock_place(&self, node: u32) -> usize
        requires { node < length N.nodes }
        ensures { result ≡ lock_place N.prog N.lim node }
    {
        let _cells = self.cells;
        self.words + self.tasks + node as usize
    }

    /// Where the decider word of a task lies.
    pub(crate) fn decider_place(&self, task: u32) -> usize
        requires { task < N.lim.tasks }
        ensures { result ≡ decider_place N.prog N.lim task }
    {
        let _cells = self.cells;
        self.words + task as usize
    }

    /// Which slot holds the content of a node.
    pub(crate) fn content_slot(&self, node: u32) -> usize
        requires { node < length N.nodes }
        ensures { result ≡ content_place N.lim node }
    {
        let _cells = self.cells;
        self.tasks + node as usize
    }
}
