//! Laws that all runs of a deterministic `main` end alike: each with all tasks done, or each with a fault.
ghost use Rattle.std.specs.Prelude.{◌≡◌, List, [], None};
ghost use Rattle.twe_base.specs.Limits.{Bounds, IsWithin};
ghost use Rattle.seg_journal.specs.declared.journal.Entry.{Entry};
ghost use Rattle.seg_journal.specs.declared.moves.Move.{Move};
ghost use Rattle.twe_program.specs.Program.{Program};
ghost use Rattle.twe_program.specs.WellFormed.{IsWellFormed};
ghost use Rattle.isolation_laws.specs.soundness.KeepsEffects.{KeepsEffects};
ghost use Rattle.machine_state.specs.declared.state.State.{State};
ghost use Rattle.machine_state.specs.Legal.{MayMove};
ghost use Rattle.machine_state.specs.LowestFirst.{IsOver};
ghost use Rattle.machine_state.specs.Moves.{initial_values, move_result};
ghost use Rattle.machine_state.specs.Runs.{AllTasksDone, IsReached, state_after};
ghost use Rattle.determinism_laws.specs.elision.Elision.{elided};
ghost use Rattle.determinism_laws.specs.AcceptedRuns.{IsAcceptedRun};
ghost use Rattle.determinism_laws.specs.results.Main.{MainIsDeterministic};
ghost use Rattle.determinism_laws.specs.Endings.{CanFinish, HasEndedAs, HaveEndedAlike, SomeRunFinishes};

/// If `main` is deterministic, each legal move of a run leads to a state from which the run can end with all tasks done, if
/// the state before it was one. So no choice of a scheduler can spoil a run. The move changes places with those that come
/// before it in the moves that finish the run: no two of these segments conflict, and only the numbers of new tasks differ.
pub fn moves_keep_runs_able_to_finish()
    ensures { (p : Program) → IsWellFormed p → KeepsEffects p → MainIsDeterministic p
        → (lim : Bounds) (st : State) → IsReached p lim st → CanFinish p lim st
        → (mv : Move) → MayMove st mv → CanFinish p lim (move_result p lim st mv).0 }
{}

/// So if some run of a program whose `main` is deterministic ends with all tasks done, no run under the same limits ever meets
/// a fault, and each one that has ended has all tasks done.
pub fn runs_finish_if_one_does()
    ensures no_fault { (p : Program) (lim : Bounds) (journal : List Entry) → IsAcceptedRun p lim journal
        → MainIsDeterministic p → SomeRunFinishes p lim → (state_after p lim journal).first_fault ≡ None }
    ensures done { (p : Program) → IsWellFormed p → KeepsEffects p → MainIsDeterministic p
        → (lim : Bounds) → IsWithin lim.fuel lim.tasks → SomeRunFinishes p lim
        → (st : State) → IsReached p lim st → IsOver st → AllTasksDone st }
{}

/// How a run of a deterministic `main` ends is a function of the program and its limits, whatever the scheduler: each run that
/// has ended has ended as the sequential execution of `main` does, on the first cells and under the same limits. If that ends
/// with a value, all tasks are done, and the cells, the printed numbers and the number of tasks are its own. If it meets a
/// fault, the run has met one. So two runs that have ended have ended alike.
pub fn ended_runs_end_as_the_execution()
    ensures execution { (p : Program) → IsWellFormed p → KeepsEffects p → MainIsDeterministic p
        → (lim : Bounds) → IsWithin lim.fuel lim.tasks → (st : State) → IsReached p lim st → IsOver st
        → HasEndedAs st (elided p lim p.main [] (initial_values p.cells)) }
    ensures alike { (p : Program) → IsWellFormed p → KeepsEffects p → MainIsDeterministic p
        → (lim : Bounds) → IsWithin lim.fuel lim.tasks → (one other : State) → IsReached p lim one
        → IsReached p lim other → IsOver one → IsOver other → HaveEndedAlike one other }
{}
