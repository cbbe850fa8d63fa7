//! How all runs of a program can end.
ghost use Rattle.std.specs.Prelude.{◌≡◌, IfOk};
ghost use Rattle.isolation_laws.specs.soundness.KeepsEffects.{KeepsEffects};
ghost use Rattle.all_runs.specs.AllRuns.{ShowsAllRuns, ShowsRuns};
ghost use Rattle.all_runs.specs.Extents.{IsExtent};
ghost use Rattle.all_runs.specs.declared.extent.Extent.TheVariants.{All};

use crate::exploring::Exploration;
use crate::extent::Extent;
use crate::laws::closed_explorations_show_all_runs;
use flat_sched::WholeRun;
use seg_journal::Limits;
use std::alloc::Global;
use twe_base::{List, Memory};
use twe_program::Prog;

/// The ends that were found.
#[derive(Drop)]
pub struct FoundEnds {
    /// Runs that have ended, no two in one way, in the order in which they were found.
    pub ended: List<WholeRun>,
    /// How many states of runs that can go on were found.
    pub states: usize,
    /// How far the search went. If it was to its end, each run ends in one of these ways.
    pub extent: Extent,
}

/// How the runs of an accepted program can end under these limits: a run for each way to end, but of faults perhaps not each. The search is given up once more than `most`
/// states of runs that can go on are found, or once memory runs out; what was found until then is returned. Only if there is no
/// memory for the first state is nothing returned. A state takes memory for a copy of it and for a journal that leads to it.
pub fn find_ends(alloc: Global, p: &Prog, lim: Limits, most: usize) -> Result<FoundEnds, Memory>
    requires { KeepsEffects p.now }
    ensures shows { IfOk result (λ found. ShowsRuns p.now lim found.ended) }
    ensures all { IfOk result (λ found. found.extent ≡ All → ShowsAllRuns p.now lim found.ended) }
    ensures extent { IfOk result (λ found. IsExtent most found.states found.extent) }
{
    closed_explorations_show_all_runs();
    let (_main, _fuel) = (p.main, lim.fuel);
    let mut found = Exploration::begin(alloc, p, lim)?;
    let extent = found.explore(alloc, p, lim, most);
    let states = found.going.len();
    Ok(FoundEnds {
        ended: found.ended,
        states,
        extent,
    })
}
