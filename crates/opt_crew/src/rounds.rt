//! A whole run by workers that run ahead of admission: a quiet step and a round in turn, until the run is over.
ghost use Rattle.std.specs.Prelude.{◌≡◌, ◌≤◌, IfOk};
ghost use Rattle.flat_sched.specs.RunEnds.{IsRunEnd};
ghost use Rattle.machine_state.specs.LowestFirst.{IsOver};
ghost use Rattle.machine_state.specs.Runs.{Legal, counted, state_after};

use crate::crew::OptCrew;
use flat_sched::WholeRun;
use std::alloc::Global;
use std::sync::Wait;
use std::thread::Threads;
use steal_pool::gates::FreeGate;
use twe_base::{Limits, Memory};
use twe_program::Prog;

/// Runs the program under these limits to its end, by this many workers, 1 to 64, which run ahead of admission. Returns the run,
/// with how it has ended. Which of the legal journals it has depends on the workers. Nothing comes after a fault.
pub fn run_ahead<R: Threads + Wait + Sync>(
    rt: &R,
    alloc: Global,
    p: &Prog,
    lim: Limits,
    workers: u32,
) -> Result<WholeRun, Memory>
    requires some { 1 ≤ workers }
    requires most { workers ≤ 64 }
    ensures legal { IfOk result (λ run. Legal p.now lim run.journal) }
    ensures state { IfOk result (λ run. run.state ≡ state_after p.now lim run.journal) }
    ensures ended { IfOk result (λ run. IsOver run.state) }
    ensures end { IfOk result (λ run. IsRunEnd run.state run.end) }
    ensures counted { IfOk result (λ run. counted run.journal ≡ run.journal) }
{
    let mut crew = OptCrew::new(alloc, p, lim, workers)?;
    'rounds: for _ in rt.forever() {
        let end = crew.quiet_step(p)?;
        if end.is_over() {
            let (journal, state) = crew.close()?;
            return Ok(WholeRun {
                journal,
                state,
                end,
            });
        }
        crew.round(rt, p, &FreeGate)?;
    }
    unreachable!()
}
