//! Laws of how a run ends if `main` is deterministic.
ghost use Rattle.std.specs.Prelude.{◌≡◌, List, [], None, Some};
ghost use Rattle.twe_base.specs.declared.place.Place.{Place};
ghost use Rattle.twe_base.specs.declared.fault.FaultKind.{FaultKind};
ghost use Rattle.twe_base.specs.Limits.{Bounds, IsWithin};
ghost use Rattle.seg_journal.specs.declared.journal.Entry.{Entry};
ghost use Rattle.seg_journal.specs.declared.moves.Move.{Move};
ghost use Rattle.twe_program.specs.Program.{Program};
ghost use Rattle.twe_program.specs.WellFormed.{IsWellFormed};
ghost use Rattle.isolation_laws.specs.soundness.KeepsEffects.{KeepsEffects};
ghost use Rattle.machine_state.specs.declared.ending.Outcome.TheVariants.{Stuck};
ghost use Rattle.machine_state.specs.declared.state.FirstFault.{FirstFault};
ghost use Rattle.machine_state.specs.declared.state.State.{State};
ghost use Rattle.machine_state.specs.Legal.{MayMove};
ghost use Rattle.machine_state.specs.LowestFirst.{IsOver};
ghost use Rattle.machine_state.specs.Moves.{initial_values};
ghost use Rattle.machine_state.specs.Runs.{AllTasksDone, IsOutcome, IsReached, state_after};
ghost use Rattle.determinism_laws.specs.elision.Elision.{elided, fails};
ghost use Rattle.determinism_laws.specs.AcceptedRuns.{IsAcceptedRun};
ghost use Rattle.determinism_laws.specs.results.Main.{HaveSameResult, MainIsDeterministic};

/// If `main` is deterministic, no run is ever stuck: in each reached state some move is legal, unless a task has met a fault
/// or all tasks are done. `spawn` and `join` alone cannot deadlock: a task waits only for one that was made after it, and
/// each task but `main` was enabled when it was made. So the last task that is not done may run.
pub fn deterministic_runs_are_never_stuck()
    ensures moves { (p : Program) → IsWellFormed p → KeepsEffects p → MainIsDeterministic p
        → (lim : Bounds) → IsWithin lim.fuel lim.tasks → (st : State) → IsReached p lim st
        → st.first_fault ≡ None → ¬ AllTasksDone st → (mv : Move) × MayMove st mv }
    ensures never_stuck { (p : Program) → IsWellFormed p → KeepsEffects p → MainIsDeterministic p
        → (lim : Bounds) → IsWithin lim.fuel lim.tasks → (st : State) → IsReached p lim st
        → ¬ IsOutcome st Stuck }
{}

/// If `main` is deterministic, and a run has ended and met no fault, then all of its tasks are done. Two such runs under the
/// same limits have the same result, whatever schedulers made them: the same cells, the same printed numbers and as many
/// tasks.
pub fn ended_runs_have_one_result()
    ensures done { (p : Program) → IsWellFormed p → KeepsEffects p → MainIsDeterministic p
        → (lim : Bounds) → IsWithin lim.fuel lim.tasks → (st : State) → IsReached p lim st
        → IsOver st → st.first_fault ≡ None → AllTasksDone st }
    ensures one_result { (p : Program) (lim : Bounds) (one other : List Entry) → IsAcceptedRun p lim one
        → IsAcceptedRun p lim other → MainIsDeterministic p → IsWithin lim.fuel lim.tasks
        → IsOver (state_after p lim one) → IsOver (state_after p lim other)
        → (state_after p lim one).first_fault ≡ None → (state_after p lim other).first_fault ≡ None
        → HaveSameResult (state_after p lim one) (state_after p lim other) }
{}

/// If the sequential execution of a deterministic `main` meets a fault, then no run under the same limits ends with all tasks
/// done, and each run that has ended has met a fault.
pub fn runs_of_a_faulty_main_end_with_a_fault()
    ensures never_done { (p : Program) (lim : Bounds) (journal : List Entry) → IsAcceptedRun p lim journal
        → MainIsDeterministic p → IsWithin lim.fuel lim.tasks → (kind : FaultKind) (place : Place)
        → elided p lim p.main [] (initial_values p.cells) ≡ fails kind place → ¬ AllTasksDone (state_after p lim journal) }
    ensures fault { (p : Program) → IsWellFormed p → KeepsEffects p → MainIsDeterministic p
        → (lim : Bounds) → IsWithin lim.fuel lim.tasks → (kind : FaultKind) (place : Place)
        → elided p lim p.main [] (initial_values p.cells) ≡ fails kind place
        → (st : State) → IsReached p lim st → IsOver st → (fault : FirstFault) × (st.first_fault ≡ Some fault) }
{}
