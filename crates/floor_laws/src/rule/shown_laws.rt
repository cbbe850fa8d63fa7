//! What a quiet floor and its journal say of the state: together they say all of it.
ghost use Rattle.std.specs.Prelude.{◌≡◌, ℕ, List, map};
ghost use Rattle.seg_journal.specs.declared.journal.Entry.{Entry};
ghost use Rattle.twe_base.specs.Limits.{Bounds};
ghost use Rattle.twe_program.specs.Program.{Program};
ghost use Rattle.twe_program.specs.WellFormed.{IsWellFormed};
ghost use Rattle.machine_state.specs.declared.state.State.{State};
ghost use Rattle.machine_state.specs.declared.state.TaskRow.{TaskRow};
ghost use Rattle.machine_state.specs.Rows.{IsRow};
ghost use Rattle.machine_state.specs.Runs.{IsReached, Legal, state_after};
ghost use Rattle.floor_laws.specs.rule.Rows.{phase_of, slot_of};
ghost use Rattle.floor_laws.specs.rule.Shown.{first_fault_in, is_joined, row_by};

/// In each reached state the row of a task is the one that its slot and its phase say. The slots of all tasks say whether it
/// was joined.
pub fn slots_and_phases_show_the_rows()
    ensures { (p : Program) (lim : Bounds) (st : State) (t : ℕ) (row : TaskRow) → IsWellFormed p → IsReached p lim st
        → IsRow st t row → row ≡ row_by (slot_of row) (phase_of row) (is_joined t row.parent (map slot_of st.tasks)) }
{}

/// The first fault of a state is the first one of the journal that led to it.
pub fn journals_show_the_first_fault()
    ensures { (p : Program) (lim : Bounds) (journal : List Entry) → IsWellFormed p → Legal p lim journal
        → (state_after p lim journal).first_fault ≡ first_fault_in journal }
{}
