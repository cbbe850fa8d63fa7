//! How a floor is opened.
ghost use Rattle.std.specs.Prelude.{◌≡◌, [], IfOk};
ghost use Rattle.prefix_tree.specs.Nodes.{IsTreeOfPaths};
ghost use Rattle.twe_base.specs.Limits.{IsWithin};
ghost use Rattle.twe_program.specs.Program.{cell_count};
ghost use Rattle.twe_program.specs.WellFormed.{IsWellFormed};
ghost use Rattle.isolation_laws.specs.soundness.KeepsEffects.{KeepsEffects};
ghost use Rattle.machine_state.specs.declared.state.State.{State};
ghost use Rattle.floor_laws.specs.table.nodes.Holds.{first_tree_view};
ghost use Rattle.task_floor.specs.Opening.{ShowsTreeRun};

use crate::floor::{Floor, Stand};
use atomic_table::Table;
use floor_laws::table::Named;
use floor_laws::table::nodes::{Planted, TreeSlot, TreeStart};
use std::alloc::{AllocError, Global};
use twe_base::{List, Memory};

impl<N: Named + Planted> Floor<N> {
    /// A floor with these words and slots, which show the state of a run and the records of its enabled tasks, and its first
    /// stand, which has the entries of that run and has placed these records. `cells` is the number of the program's cells, and
    /// `tasks` how many tasks may be made.
    pub fn open(
        alloc: Global,
        cells: usize,
        tasks: u32,
        words: &[u64],
        slots: List<TreeSlot>,
        start: &TreeStart,
    ) -> Result<(Self, Stand), Memory>
        requires accepted { IsWellFormed N.prog × KeepsEffects N.prog × IsWithin N.lim.fuel N.lim.tasks }
        requires nodes { IsTreeOfPaths N.nodes }
        requires counts { (cells ≡ cell_count N.prog) × (tasks ≡ N.lim.tasks) }
        requires shows { (st : State) × ShowsTreeRun N.nodes N.prog N.lim start.now.part st start.now.records words.now slots }
        ensures { IfOk result (λ opened. (opened.1.table_id ≡ opened.0)
            × (opened.1.me ≡ (first_tree_view start.now.part start.now.records, []))) }
    {
        let count = Self::word_count(cells, tasks);
        let _all = slots.len();
        match Table::new(alloc, words, slots.into_vec(), start) {
            Ok((table, stand)) => Ok((Floor::of_table(table, cells, count, tasks as usize), stand)),
            Err(_refused) => Err(Memory::from(AllocError)),
        }
    }
}
