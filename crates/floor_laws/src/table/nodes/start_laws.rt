//! How a table with nodes starts.
ghost use Rattle.std.specs.Prelude.{◌≡◌, ℕ, List};
ghost use Rattle.atomic_table.specs.Table.{opening};
ghost use Rattle.region_paths.specs.declared.elements.Elem.{Elem};
ghost use Rattle.prefix_tree.specs.Nodes.{IsTreeOfPaths};
ghost use Rattle.twe_base.specs.Limits.{Bounds, IsWithin};
ghost use Rattle.twe_program.specs.Program.{Program};
ghost use Rattle.twe_program.specs.WellFormed.{IsWellFormed};
ghost use Rattle.isolation_laws.specs.soundness.KeepsEffects.{KeepsEffects};
ghost use Rattle.machine_state.specs.declared.state.State as machine;
ghost use Rattle.machine_state.specs.Runs.{IsRun};
ghost use Rattle.seg_journal.specs.declared.numbered.NumberedEntry.{NumberedEntry};
ghost use Rattle.seg_journal.specs.Merging.{journal_of, prints_of};
ghost use Rattle.floor_laws.specs.rule.Rule.{AreInOrder};
ghost use Rattle.floor_laws.specs.admission.admission_core.States.{Record};
ghost use Rattle.floor_laws.specs.rule.nodes.Starts.{AreOfEnabled};
ghost use Rattle.floor_laws.specs.declared.table.nodes.slot.TreeSlot.{TreeSlot};
ghost use Rattle.floor_laws.specs.table.nodes.Holds.{IsTreeLaidOut, TreeKeeps, first_tree_view};

/// A table may be opened whose words and slots show the state of a run, and for each node the records of enabled tasks that
/// stand there. Its first seat has the entries of the run, and has placed these records.
pub fn a_tree_table_may_be_opened()
    ensures { (nodes : List (List Elem)) (p : Program) (lim : Bounds) (log : List NumberedEntry) (st : machine.State)
        (records : List Record) → IsWellFormed p → KeepsEffects p → IsTreeOfPaths nodes → IsWithin lim.fuel lim.tasks
        → IsRun p lim (journal_of log) st → AreInOrder log → st.prints ≡ prints_of log → AreOfEnabled nodes st records
        → (words : List ℕ) (slots : List TreeSlot) → IsTreeLaidOut nodes p lim log st records words slots
        → TreeKeeps nodes p lim (opening words slots (first_tree_view log records)) }
{}
