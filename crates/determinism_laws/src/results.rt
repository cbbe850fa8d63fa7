//! What finished deterministic tasks have given: each its sequential result, and a deterministic `main` that of the program.
//!
//! A run is any journal that `machine_state` allows. So the laws hold whatever scheduler made it.
ghost use Rattle.std.specs.Prelude.{◌≤◌, List};
ghost use Rattle.seg_journal.specs.declared.journal.Entry.{Entry};
ghost use Rattle.twe_base.specs.Limits.{Bounds};
ghost use Rattle.twe_program.specs.Program.{Program};
ghost use Rattle.machine_state.specs.Runs.{AllTasksDone, state_after};
ghost use Rattle.determinism_laws.specs.AcceptedRuns.{IsAcceptedRun};
ghost use Rattle.determinism_laws.specs.results.Main.{HaveSameResult, MainHasItsResult, MainIsDeterministic};
ghost use Rattle.determinism_laws.specs.results.Results.{DeterministicTasksHaveResults};

/// In every legal journal each deterministic task that is done at the end has given the result of its sequential execution
/// on the cells as they were right after the entry that enabled it: its value, the cells under its effects as they are right
/// after the entry that finished it, and the numbers that it and the tasks below it have printed.
pub fn deterministic_tasks_have_results()
    ensures { (p : Program) (lim : Bounds) (journal : List Entry) → IsAcceptedRun p lim journal → 1 ≤ lim.tasks
        → DeterministicTasksHaveResults p lim journal }
{}

/// If `main` is deterministic and all tasks are done, the cells, the printed numbers and the number of tasks are those of the
/// sequential execution of `main` on the first cells.
pub fn deterministic_mains_have_their_results()
    ensures { (p : Program) (lim : Bounds) (journal : List Entry) → IsAcceptedRun p lim journal → 1 ≤ lim.tasks
        → MainHasItsResult p lim journal }
{}

/// So two runs of a program whose `main` is deterministic have the same result under the same limits, if all tasks are done in
/// both, whatever schedulers made them.
pub fn deterministic_mains_have_one_result()
    ensures { (p : Program) (lim : Bounds) (one other : List Entry) → IsAcceptedRun p lim one → IsAcceptedRun p lim other
        → MainIsDeterministic p → 1 ≤ lim.tasks
        → AllTasksDone (state_after p lim one) → AllTasksDone (state_after p lim other)
        → HaveSameResult (state_after p lim one) (state_after p lim other) }
{}
