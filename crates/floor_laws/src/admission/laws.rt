//! The law that connects the states of runs to the core of admission.
ghost use Rattle.std.specs.Prelude.{List};
ghost use Rattle.seg_journal.specs.declared.journal.Entry.{Entry};
ghost use Rattle.twe_base.specs.Limits.{Bounds};
ghost use Rattle.twe_program.specs.Program.{Program};
ghost use Rattle.twe_program.specs.WellFormed.{IsWellFormed};
ghost use Rattle.isolation_laws.specs.soundness.KeepsEffects.{KeepsEffects};
ghost use Rattle.machine_state.specs.Runs.{Legal, state_after};
ghost use Rattle.floor_laws.specs.admission.admission_core.Tasks.{Tasks};
ghost use Rattle.floor_laws.specs.admission.admission_core.Conditions.{MeetsConditions};
ghost use Rattle.floor_laws.specs.admission.TasksOf.{AreTasksOf};

/// After each legal journal of an accepted program, its tasks meet the conditions that the core of admission asks for,
/// whoever has their turns and whichever are still to be placed.
pub fn runs_meet_the_conditions()
    ensures { (p : Program) → IsWellFormed p → KeepsEffects p → (lim : Bounds) (journal : List Entry)
        → Legal p lim journal → (tasks : Tasks) → AreTasksOf journal (state_after p lim journal) tasks
        → MeetsConditions tasks }
{}
