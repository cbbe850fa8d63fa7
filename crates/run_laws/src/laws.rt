//! The law of runs.
ghost use Rattle.std.specs.Prelude.{◌≤◌, List};
ghost use Rattle.seg_journal.specs.declared.journal.Entry.{Entry};
ghost use Rattle.twe_base.specs.Limits.{Bounds};
ghost use Rattle.twe_program.specs.Program.{Program};
ghost use Rattle.determinism_laws.specs.AcceptedRuns.{IsAcceptedRun};
ghost use Rattle.run_laws.specs.SafeRuns.{IsSafeRun};

use determinism_laws::results::{
    deterministic_mains_have_their_results, deterministic_tasks_have_results,
};
use isolation_laws::{
    accepted_runs_are_isolated, beginnings_of_legal_journals_are_legal,
    tasks_that_may_run_do_not_conflict,
};

/// Each legal journal of a program that keeps the rules on effects is safe, under all limits that allow a task. So each run is,
/// with workers or without, and each replay.
pub fn accepted_runs_are_safe()
    ensures { (p : Program) (lim : Bounds) (journal : List Entry) → IsAcceptedRun p lim journal → 1 ≤ lim.tasks
        → IsSafeRun p lim journal }
{
    accepted_runs_are_isolated();
    beginnings_of_legal_journals_are_legal();
    tasks_that_may_run_do_not_conflict();
    deterministic_tasks_have_results();
    deterministic_mains_have_their_results();
}
