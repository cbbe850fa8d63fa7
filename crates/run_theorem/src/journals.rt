//! Laws of whole journals of accepted programs.
ghost use Rattle.std.specs.Prelude.{List};
ghost use Rattle.seg_journal.specs.declared.journal.Entry.{Entry};
ghost use Rattle.twe_base.specs.Limits.{Bounds};
ghost use Rattle.twe_program.specs.Program.{Program};
ghost use Rattle.twe_program.specs.WellFormed.{IsWellFormed};
ghost use Rattle.machine_state.specs.Runs.{AllTasksDone, Legal, state_after};
ghost use Rattle.determinism_laws.specs.AcceptedRuns.{IsAcceptedRun};
ghost use Rattle.run_laws.specs.SafeRuns.{MoversAlwaysApart};
ghost use Rattle.run_theorem.specs.Journals.{AlwaysDeclared, EachEnabledAtMostOnce, EachEnabledOnce};

use isolation_laws::{
    beginnings_of_legal_journals_are_legal, tasks_keep_to_their_declarations,
    tasks_that_may_run_do_not_conflict,
};

/// After each beginning of a legal journal, each task runs its own declaration and has the effects that this declares for its
/// arguments, and no accesses of two tasks that may run conflict, whatever values the cells have. So two tasks that run at
/// once never race.
pub fn tasks_keep_apart_throughout()
    ensures declared { (p : Program) (lim : Bounds) (journal : List Entry) → IsAcceptedRun p lim journal
        → AlwaysDeclared p lim journal }
    ensures apart { (p : Program) (lim : Bounds) (journal : List Entry) → IsAcceptedRun p lim journal
        → MoversAlwaysApart p lim journal }
{
    beginnings_of_legal_journals_are_legal();
    tasks_keep_to_their_declarations();
    tasks_that_may_run_do_not_conflict();
}

/// In every legal journal each task is made, enabled and finished at most once, task 0 is never made, and nothing happens to
/// a task that is not there. If all tasks are done, each was enabled and finished exactly once, and made exactly once unless
/// it is task 0. A spawned task is enabled by the entry that makes it, and any other task by its admission.
pub fn each_task_is_enabled_once()
    ensures at_most_once { (p : Program) (lim : Bounds) (journal : List Entry) → IsWellFormed p → Legal p lim journal
        → EachEnabledAtMostOnce journal (state_after p lim journal) }
    ensures once { (p : Program) (lim : Bounds) (journal : List Entry) → IsWellFormed p → Legal p lim journal
        → AllTasksDone (state_after p lim journal) → EachEnabledOnce journal (state_after p lim journal) }
{}
