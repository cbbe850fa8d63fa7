//! What is left of a floor at a quiet point.
ghost use Rattle.std.specs.Prelude.{◌≡◌, IfOk};
ghost use Rattle.core.specs.Mem.Slots.{IsFull, slots_items};
ghost use Rattle.twe_base.specs.Limits.{IsWithin};
ghost use Rattle.twe_program.specs.Program.{cell_count};
ghost use Rattle.twe_program.specs.WellFormed.{IsWellFormed};
ghost use Rattle.machine_state.specs.Runs.{Legal, state_after};
ghost use Rattle.seg_journal.specs.Merging.{all_of};
ghost use Rattle.floor_laws.specs.declared.table.view.SeatKind.TheVariants.{Main};
ghost use Rattle.floor_laws.specs.table.Holds.{HasGivenAll};
ghost use Rattle.task_floor.specs.inner.Emptying.{EndedAfter, ShowsState};
ghost use Rattle.task_floor.specs.steps.Resting.{IsRestOf};

use crate::clock::asked_of;
use crate::emptying::Emptied;
use crate::floor::{CACHE_LINE, Floor, Stand};
use crate::linking::links_of;
use crate::reading::{cells_of, first_fault_in, rows_of};
use crate::steps::Rest;
use atomic_table::Closed;
use floor_laws::table::nodes::{Planted, TreeSlot};
use floor_laws::table::{KeptSlot, Named};
use machine_state::State;
use seg_journal::{Entry, JournalPart, merge};
use std::alloc::Global;
use twe_base::{Ints, List, Memory};

impl<N: Named + Planted> Floor<N> {
    /// Closes the floor, once all other stands were joined to the main one and it has given all its turns: the journal that
    /// the parts of all stands merge to, and the state that it leads to. The parts together have the entries of the main
    /// stand. It takes time linear in the cells, in the nodes and their records, in the journal and in the tasks that may be
    /// made, and copies no frame. After `Memory` the floor is gone.
    pub fn rest(self, alloc: Global, stand: Stand, parts: &[JournalPart]) -> Result<Rest, Memory>
        requires here { stand.table_id ≡ self }
        requires main { stand.me.0.floor.kind ≡ Main }
        requires alone { (stand.me.0.floor.out ≡ 0) × HasGivenAll stand.me.0.floor }
        requires parts { all_of parts.now ≡ stand.me.0.floor.part }
        ensures { IfOk result (IsRestOf N.prog N.lim parts.now) }
    {
        let cells = self.cells;
        let Emptied { table, tasks } = self.empty(alloc, stand)?;
        let rest = Self::read_rest(alloc, &table, cells, tasks, parts);
        table.free();
        rest
    }

    /// The journal that these parts merge to, and the state that a closed table and the tasks from its slots show then.
    fn read_rest(
        alloc: Global,
        table: &Closed<TreeSlot, Global>,
        cells: usize,
        tasks: List<KeptSlot>,
        parts: &[JournalPart],
    ) -> Result<Rest, Memory>
        requires full { IsFull table.now.words }
        requires cells { cells ≡ cell_count N.prog }
        requires ended { EndedAfter N.prog N.lim parts.now (slots_items table.now.words) tasks }
        ensures { IfOk result (IsRestOf N.prog N.lim parts.now) }
    {
        let (journal, prints) = merge(alloc, parts)?;
        let state = Self::read_state(alloc, table, cells, tasks, journal.as_slice(), prints)?;
        Ok(Rest { state, journal })
    }

    /// The state that a closed table and the tasks from its slots show after this journal.
    fn read_state(
        alloc: Global,
        table: &Closed<TreeSlot, Global>,
        cells: usize,
        tasks: List<KeptSlot>,
        journal: &[Entry],
        prints: Ints,
    ) -> Result<State, Memory>
        requires full { IsFull table.now.words }
        requires accepted { IsWellFormed N.prog × IsWithin N.lim.fuel N.lim.tasks }
        requires cells { cells ≡ cell_count N.prog }
        requires legal { Legal N.prog N.lim journal.now }
        requires shows { ShowsState N.prog N.lim (state_after N.prog N.lim journal.now) (slots_items table.now.words) tasks }
        requires prints { prints ≡ (state_after N.prog N.lim journal.now).prints }
        ensures { IfOk result (λ state. state ≡ state_after N.prog N.lim journal.now) }
    {
        let asked = asked_of(table.word(0));
        let values = cells_of(alloc, table, cells)?;
        let tasks = rows_of(alloc, table, CACHE_LINE + CACHE_LINE * cells, tasks)?;
        let links = links_of(alloc, tasks.as_slice())?;
        Ok(State {
            cells: values,
            tasks,
            links,
            prints,
            asked,
            first_fault: first_fault_in(journal),
        })
    }
}
