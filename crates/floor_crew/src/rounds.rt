//! A whole run by workers: by one it is run without a floor. By several it begins so, too; then a round and a quiet step take
//! turns, until the run is over.
ghost use Rattle.std.specs.Prelude.{◌≡◌, ◌≤◌, IfOk};
ghost use Rattle.flat_sched.specs.RunEnds.{IsRunEnd};
ghost use Rattle.isolation_laws.specs.soundness.KeepsEffects.{KeepsEffects};
ghost use Rattle.machine_state.specs.LowestFirst.{IsOver, LowestFirst};
ghost use Rattle.machine_state.specs.Runs.{Legal, state_after};

use crate::crew::FloorCrew;
use crate::until_long::UntilLong;
use flat_sched::{WholeRun, run_lowest, run_lowest_while};
use std::alloc::Global;
use std::sync::Wait;
use std::thread::Threads;
use steal_pool::gates::Gate;
use twe_base::{Limits, Memory};
use twe_program::Prog;

/// Runs the program under these limits to its end, by this many workers, 1 to 64. Returns the run, with how it has ended. By one
/// worker its journal is that of the lowest-first run. Several may run segments at the same time, on one floor after another;
/// which of the legal journals the run has depends on them, and after a fault it may have entries of moves that they began before
/// they knew of it.
pub fn run_on_floor<R: Threads + Wait + Sync, G: Gate + Sync>(
    rt: &R,
    alloc: Global,
    p: &Prog,
    lim: Limits,
    workers: u32,
    gate: &G,
) -> Result<WholeRun, Memory>
    requires accepted { KeepsEffects p.now }
    requires some { 1 ≤ workers }
    requires most { workers ≤ 64 }
    ensures legal { IfOk result (λ run. Legal p.now lim run.journal) }
    ensures state { IfOk result (λ run. run.state ≡ state_after p.now lim run.journal) }
    ensures ended { IfOk result (λ run. IsOver run.state) }
    ensures end { IfOk result (λ run. IsRunEnd run.state run.end) }
    ensures lone { workers ≡ 1 → IfOk result (λ run. LowestFirst p.now lim run.journal) }
{
    // One worker has nobody beside it, so it runs the program as it is run without workers.
    if workers == 1 {
        let (journal, state) = run_lowest(alloc, p, lim)?;
        return WholeRun::of(alloc, p, journal, state);
    }
    let (journal, state) = run_lowest_while(alloc, p, lim, &mut UntilLong::of(alloc, p)?)?;
    let mut crew = FloorCrew::of(alloc, p, lim, workers, journal, state)?;
    'rounds: for _ in rt.forever() {
        crew.round(rt, p, gate)?;
        let end = crew.quiet_step(p)?;
        if end.is_over() {
            let (journal, state) = crew.close()?;
            return Ok(WholeRun {
                journal,
                state,
                end,
            });
        }
    }
    unreachable!()
}
