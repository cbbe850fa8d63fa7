//! The calls that run and replay accepted programs.
ghost use Rattle.std.specs.Prelude.{◌≡◌, ℕ, IfOk, IsErrOf};
ghost use Rattle.isolation_laws.specs.soundness.KeepsEffects.{KeepsEffects};
ghost use Rattle.isolation_laws.specs.Conflicts.{AlwaysCovered};
ghost use Rattle.isolation_laws.specs.Within.{AlwaysWithin};
ghost use Rattle.machine_state.specs.declared.ending.Outcome.TheVariants.{AllDone};
ghost use Rattle.machine_state.specs.declared.why.Why.{Why};
ghost use Rattle.machine_state.specs.declared.replay_fail.ReplayFail.TheVariants.{Illegal};
ghost use Rattle.machine_state.specs.LowestFirst.{IsOver, LowestFirst};
ghost use Rattle.machine_state.specs.Replays.{IsFirstIllegal, IsReplay};
ghost use Rattle.machine_state.specs.Runs.{AlwaysIsolated, EachAtMostOnce, EachOnce, IsOutcome, Legal, state_after};
ghost use Rattle.determinism_laws.specs.results.Main.{MainHasItsResult};
ghost use Rattle.determinism_laws.specs.results.Results.{DeterministicTasksHaveResults};
ghost use Rattle.run_laws.specs.SafeRuns.{MoversAlwaysApart};

use crate::laws::accepted_runs_are_safe;
use flat_sched::run_lowest;
use machine_state::{ReplayFail, State};
use seg_journal::{Journal, Limits, Move};
use std::alloc::Global;
use twe_base::Memory;
use twe_machine::replay_journal;
use twe_program::Prog;

/// Runs an accepted program under these limits to its end, as `run_lowest` does, which says more of the journal. At every moment
/// of the run, of two enabled tasks that interfere one yields to the other, and each task accesses only what its declared effects
/// cover. No two tasks that may run have conflicting accesses next. Each deterministic task that is done has the value of its
/// sequential execution, and so have the cells under its effects and its prints.
pub fn run_accepted(alloc: Global, p: &Prog, lim: Limits) -> Result<(Journal, State), Memory>
    requires { KeepsEffects p.now }
    ensures legal { IfOk result (λ run. Legal p.now lim run.0) }
    ensures state { IfOk result (λ run. run.1 ≡ state_after p.now lim run.0) }
    ensures lowest { IfOk result (λ run. LowestFirst p.now lim run.0) }
    ensures ended { IfOk result (λ run. IsOver run.1) }
    ensures once { IfOk result (λ run. IsOutcome run.1 AllDone → EachOnce run.0 run.1) }
    ensures at_most_once { IfOk result (λ run. EachAtMostOnce run.0) }
    ensures isolated { IfOk result (λ run. AlwaysIsolated p.now lim run.0) }
    ensures within { IfOk result (λ run. AlwaysWithin p.now lim run.0) }
    ensures covered { IfOk result (λ run. AlwaysCovered p.now lim run.0) }
    ensures apart { IfOk result (λ run. MoversAlwaysApart p.now lim run.0) }
    ensures results { IfOk result (λ run. DeterministicTasksHaveResults p.now lim run.0) }
    ensures main { IfOk result (λ run. MainHasItsResult p.now lim run.0) }
{
    accepted_runs_are_safe();
    let (_main, _tasks) = (p.main, lim.tasks);
    run_lowest(alloc, p, lim)
}

/// Replays moves of an accepted program, as `replay_journal` does. The journal that has these moves keeps to the same as the
/// journal of a run: whoever made it, it shows a run in which the tasks were isolated, and deterministic tasks that are done had
/// their sequential results.
pub fn replay_accepted(
    alloc: Global,
    p: &Prog,
    lim: Limits,
    moves: &[Move],
) -> Result<(Journal, State), ReplayFail>
    requires { KeepsEffects p.now }
    ensures replayed { IfOk result (λ run. IsReplay p.now lim moves.now run.0 run.1) }
    ensures illegal { (n : ℕ) (why : Why) → IsErrOf result (Illegal n why) → IsFirstIllegal p.now lim moves.now n why }
    ensures isolated { IfOk result (λ run. AlwaysIsolated p.now lim run.0) }
    ensures within { IfOk result (λ run. AlwaysWithin p.now lim run.0) }
    ensures covered { IfOk result (λ run. AlwaysCovered p.now lim run.0) }
    ensures apart { IfOk result (λ run. MoversAlwaysApart p.now lim run.0) }
    ensures results { IfOk result (λ run. DeterministicTasksHaveResults p.now lim run.0) }
    ensures main { IfOk result (λ run. MainHasItsResult p.now lim run.0) }
{
    accepted_runs_are_safe();
    let (_main, _tasks) = (p.main, lim.tasks);
    replay_journal(alloc, p, lim, moves)
}
