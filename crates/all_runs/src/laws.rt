//! What an exploration says of all runs.
ghost use Rattle.std.specs.Prelude.{List, length};
ghost use Rattle.twe_base.specs.Limits.{Bounds, IsWithin};
ghost use Rattle.twe_program.specs.Program.{Program};
ghost use Rattle.twe_program.specs.WellFormed.{IsWellFormed};
ghost use Rattle.isolation_laws.specs.soundness.KeepsEffects.{KeepsEffects};
ghost use Rattle.flat_sched.specs.declared.ending.WholeRun.{WholeRun};
ghost use Rattle.all_runs.specs.declared.found.FoundRun.{FoundRun};
ghost use Rattle.all_runs.specs.AllRuns.{ShowsAllRuns};
ghost use Rattle.all_runs.specs.Explored.{IsClosedBelow, IsExploration};

/// If enough moves of each run that was found lead to runs that are known, then each run of an accepted program that has ended, by
/// whatever legal journal, has ended in the way of one that was found: with the same result if all tasks are done, or stuck as one
/// is, or with a fault as one is.
pub fn closed_explorations_show_all_runs()
    ensures { (p : Program) (lim : Bounds) (going : List FoundRun) (ended : List WholeRun) → IsWellFormed p → KeepsEffects p
        → IsWithin lim.fuel lim.tasks → IsExploration p lim going ended → IsClosedBelow p lim going ended (length going)
        → ShowsAllRuns p lim ended }
{}
