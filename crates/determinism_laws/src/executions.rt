//! Laws of sequential executions of deterministic declarations.
ghost use Rattle.std.specs.Prelude.{◌≡◌, ◌≢◌, ◌≤◌, ℕ, ℤ, IsTrue, List, [], slice_get};
ghost use Rattle.twe_base.specs.declared.place.Place.{Place};
ghost use Rattle.twe_base.specs.declared.fault.FaultKind.{FaultKind};
ghost use Rattle.twe_base.specs.Limits.{Bounds};
ghost use Rattle.effect_check.specs.Acts.{is_deterministic};
ghost use Rattle.seg_journal.specs.declared.journal.Entry.{Entry};
ghost use Rattle.twe_program.specs.Program.{Program};
ghost use Rattle.twe_program.specs.WellFormed.{IsWellFormed};
ghost use Rattle.isolation_laws.specs.soundness.KeepsEffects.{KeepsEffects};
ghost use Rattle.machine_state.specs.declared.state.TaskRow.{TaskRow};
ghost use Rattle.machine_state.specs.declared.state.TaskStatus.TheVariants.{Done};
ghost use Rattle.machine_state.specs.Moves.{initial_values};
ghost use Rattle.machine_state.specs.Rows.{IsRow};
ghost use Rattle.machine_state.specs.Runs.{state_after};
ghost use Rattle.determinism_laws.specs.declared.elision.progress.Progress.{Progress};
ghost use Rattle.determinism_laws.specs.elision.Elision.{elided, ends, fails, strays};
ghost use Rattle.determinism_laws.specs.AcceptedRuns.{IsAcceptedRun};
ghost use Rattle.determinism_laws.specs.Deterministic.{IsDeterministic};
ghost use Rattle.determinism_laws.specs.results.Main.{MainIsDeterministic};
ghost use Rattle.determinism_laws.specs.Counts.{HasCountedResult};
ghost use Rattle.determinism_laws.specs.Endings.{IsFaultOfRun, SomeRunFinishes};

/// The sequential execution of a deterministic declaration never strays, whatever the arguments and the cells are: it comes
/// to no `executeLater`, to no `getValue`, and to no join of a task that is no unjoined child. So it ends with a value or with
/// a fault.
pub fn deterministic_executions_never_stray()
    ensures { (p : Program) → IsWellFormed p → KeepsEffects p
        → (lim : Bounds) (task : ℕ) (args cells : List ℤ) → IsTrue (is_deterministic (slice_get p.tasks task))
        → elided p lim task args cells ≢ strays }
{}

/// The sequential execution of a deterministic `main` on the first cells is a run of the machine under the same limits. If it
/// ends with a value, some run ends with all tasks done. If it meets a fault, some run has this fault as its first.
pub fn sequential_executions_of_main_are_runs()
    ensures whole { (p : Program) → IsWellFormed p → KeepsEffects p → MainIsDeterministic p
        → (lim : Bounds) (value : ℤ) (later : Progress)
        → elided p lim p.main [] (initial_values p.cells) ≡ ends value later → SomeRunFinishes p lim }
    ensures fault { (p : Program) → IsWellFormed p → KeepsEffects p → MainIsDeterministic p
        → (lim : Bounds) (kind : FaultKind) (place : Place)
        → elided p lim p.main [] (initial_values p.cells) ≡ fails kind place → IsFaultOfRun p lim kind place }
{}

/// In every legal journal, the sequential execution of each deterministic task that is done at the end makes as many tasks as
/// there are in the run: the task itself, those that it spawned, those that these spawned, and so on.
pub fn results_count_the_tasks_below()
    ensures { (p : Program) (lim : Bounds) (journal : List Entry) → IsAcceptedRun p lim journal → 1 ≤ lim.tasks
        → (t : ℕ) (row : TaskRow) → IsRow (state_after p lim journal) t row → row.status ≡ Done
        → IsDeterministic p row → HasCountedResult p lim journal t row }
{}
