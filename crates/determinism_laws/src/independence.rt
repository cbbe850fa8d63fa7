//! Laws that the next segments of tasks that may run do not depend on one another, and what follows for faults.
ghost use Rattle.std.specs.Prelude.{◌≡◌, ◌≢◌, ℕ, List, false};
ghost use Rattle.twe_base.specs.Limits.{Bounds};
ghost use Rattle.seg_journal.specs.declared.journal.Entry.{Entry};
ghost use Rattle.seg_journal.specs.declared.moves.Move.{Move};
ghost use Rattle.twe_program.specs.Program.{Program};
ghost use Rattle.twe_program.specs.WellFormed.{IsWellFormed};
ghost use Rattle.isolation_laws.specs.soundness.KeepsEffects.{KeepsEffects};
ghost use Rattle.machine_state.specs.declared.state.State.{State};
ghost use Rattle.machine_state.specs.declared.state.TaskRow.{TaskRow};
ghost use Rattle.machine_state.specs.Legal.{MayMove, MayRun};
ghost use Rattle.machine_state.specs.Moves.{move_result};
ghost use Rattle.machine_state.specs.Rows.{IsRow};
ghost use Rattle.machine_state.specs.Runs.{AllTasksDone, IsReached, is_fault, state_after};
ghost use Rattle.determinism_laws.specs.AcceptedRuns.{IsAcceptedRun};
ghost use Rattle.determinism_laws.specs.Segments.{state_before};
ghost use Rattle.determinism_laws.specs.Endings.{CanFinish};
ghost use Rattle.determinism_laws.specs.Independence.{KeepsNextSegment};

/// In each reached state of an accepted program, the next segment of a task that may run stays the same when another task
/// moves first: it makes the same accesses, leaves the same frame and stops in the same way. So a task that is about to divide
/// by zero, say, does so whatever other tasks do before.
pub fn other_moves_keep_the_next_segment()
    ensures { (p : Program) → IsWellFormed p → KeepsEffects p
        → (lim : Bounds) (st : State) → IsReached p lim st
        → (s : ℕ) (row : TaskRow) (mv : Move) → mv.task ≢ s → IsRow st s row → MayRun st s → MayMove st mv
        → KeepsNextSegment p st (move_result p lim st mv).0 s row }
{}

/// If some legal moves lead from a reached state of an accepted program to one in which all tasks are done, then no move that
/// is legal now meets a fault: a task that is about to meet one would meet it later, too, and the limit on tasks is not reached
/// later than sooner. So if a run ends with all tasks done, then at no moment of it could any task have met a fault: each move
/// that was legal before some entry, whether it was taken then or not, ends without one.
pub fn whole_runs_were_never_near_a_fault()
    ensures finishing { (p : Program) → IsWellFormed p → KeepsEffects p
        → (lim : Bounds) (st : State) → IsReached p lim st → CanFinish p lim st
        → (mv : Move) → MayMove st mv → is_fault (move_result p lim st mv).1 ≡ false }
    ensures at_each_place { (p : Program) (lim : Bounds) (journal : List Entry) → IsAcceptedRun p lim journal
        → AllTasksDone (state_after p lim journal) → (n : ℕ) (mv : Move) → MayMove (state_before p lim journal n) mv
        → is_fault (move_result p lim (state_before p lim journal n) mv).1 ≡ false }
{}
