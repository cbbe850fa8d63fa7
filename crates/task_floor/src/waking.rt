//! How a floor goes on from a quiet point.
ghost use Rattle.std.specs.Prelude.{◌≡◌, List, [], IfOk};
ghost use Rattle.twe_program.specs.WellFormed.{IsWellFormed};
ghost use Rattle.isolation_laws.specs.soundness.KeepsEffects.{KeepsEffects};
ghost use Rattle.machine_state.specs.Runs.{IsRun};
ghost use Rattle.floor_laws.specs.admission.admission_core.States.{Record};
ghost use Rattle.floor_laws.specs.rule.nodes.Starts.{AreOfEnabled};
ghost use Rattle.floor_laws.specs.table.nodes.Holds.{first_tree_view};
ghost use Rattle.task_floor.specs.steps.Waking.{log_of};

use crate::floor::{Floor, Stand};
use crate::laying::words_of;
use crate::numbering::log_of;
use crate::planting::{add_zeros, tree_slots};
use crate::recording::records_of;
use crate::sorting::contents_of;
use crate::steps::Rest;
use effect_tree::Shape;
use floor_laws::table::Named;
use floor_laws::table::nodes::{Planted, TreeStart};
use machine_state::State;
use seg_journal::{Journal, JournalPart, Limits};
use std::alloc::Global;
use twe_base::Memory;
use twe_machine::start;
use twe_program::Prog;

impl<N: Named + Planted> Floor<N> {
    /// A floor for a run that has not begun, its first stand, and the entries of that stand, which are none. No record stands.
    /// It takes time linear in the cells, in the nodes and in the tasks that may be made.
    pub fn new(
        alloc: Global,
        p: &Prog,
        shape: &Shape,
        lim: Limits,
    ) -> Result<(Self, Stand, JournalPart), Memory>
        requires accepted { IsWellFormed N.prog × KeepsEffects N.prog }
        requires named { (p.now ≡ N.prog) × (shape.now ≡ N.nodes) × (lim ≡ N.lim) }
        ensures stand { IfOk result (λ floor. (floor.1.table_id ≡ floor.0) × (floor.1.me ≡ (first_tree_view [] [], []))) }
        ensures part { IfOk result (λ floor. floor.2 ≡ []) }
    {
        let state = start(alloc, p, lim)?;
        let journal = Journal::new(alloc);
        Self::wake(alloc, shape, lim, Rest { state, journal })
    }

    /// A floor that goes on from a quiet point, its first stand, and the entries of that stand: those of the journal, with
    /// all that was printed beside the last of them. The records that stand are those of the enabled tasks: one for each effect,
    /// at its place. It takes time linear in the cells, in the nodes, in the journal and in the tasks that may be made, and
    /// copies no frame.
    pub fn wake(
        alloc: Global,
        shape: &Shape,
        lim: Limits,
        rest: Rest,
    ) -> Result<(Self, Stand, JournalPart), Memory>
        requires accepted { IsWellFormed N.prog × KeepsEffects N.prog }
        requires named { (shape.now ≡ N.nodes) × (lim ≡ N.lim) }
        requires run { IsRun N.prog N.lim rest.journal rest.state }
        ensures here { IfOk result (λ floor. floor.1.table_id ≡ floor.0) }
        ensures stand { IfOk result (λ floor. (records : List Record) × AreOfEnabled N.nodes rest.state records
            × (floor.1.me ≡ (first_tree_view floor.2 records, []))) }
        ensures part { IfOk result (λ floor. floor.2 ≡ log_of rest.journal rest.state.prints) }
    {
        let Rest { state, journal } = rest;
        let count = lim.tasks;
        let nodes = shape.nodes();
        let records = records_of(alloc, shape, &state)?;
        let contents = contents_of(alloc, nodes, records.as_slice())?;
        let cell_count = state.cells.len();
        let room = Self::word_count(cell_count, count) + count as usize + nodes as usize;
        let mut words = words_of(alloc, &state, count, journal.len(), room)?;
        add_zeros(&mut words, count as usize + nodes as usize)?;
        let State {
            cells: _cells,
            tasks,
            links: _links,
            prints,
            asked: _,
            first_fault: _,
        } = state;
        let slots = tree_slots(alloc, tasks, count, contents)?;
        let part = log_of(alloc, journal.as_slice(), prints)?;
        let start = TreeStart { part, records };
        let (floor, stand) = Self::open(alloc, cell_count, count, words.as_slice(), slots, &start)?;
        let TreeStart {
            part,
            records: _records,
        } = start;
        Ok((floor, stand, part))
    }
}
