//! Lending the run of a round to its workers: to a single one as it is, and to several under a lock.
ghost use Rattle.std.specs.Prelude.{◌≡◌, ◌≤◌, IfOk};
ghost use Rattle.opt_crew.specs.Keeping.{Keeps};

use crate::access::{Lent, Locked, WorkerState};
use crate::game::Game;
use crate::kept::Kept;
use crate::round_core::RoundCore;
use crate::seen::SeenOfRun;
use crate::trail::MoveTrail;
use opt_engine::{CoreRun, Hints, RoundName};
use std::sync::{Mutex, Wait};
use std::thread;
use std::thread::Threads;
use steal_pool::gates::Gate;
use twe_base::Memory;
use twe_rounds::{RoundProgress, Setup, Site, Worker, deal, lost};

/// The run after the moves of a single worker, which begins with the task `first`, if there is one. If there are others, it
/// leaves the run to them once they may gain by it.
pub(crate) fn alone<N: RoundName, R: Wait, G: Gate>(
    rt: &R,
    setup: &Setup<'_>,
    run: CoreRun,
    seen: &mut SeenOfRun,
    first: Option<u32>,
    has_others: bool,
    gate: &G,
) -> Result<CoreRun, Memory>
    requires named { (setup.now.p.now ≡ N.prog) × (setup.now.lim ≡ N.lim) }
    requires keeps { Keeps N.prog N.lim N.earlier run }
    ensures { IfOk result (Keeps N.prog N.lim N.earlier) }
{
    let (alloc, lim) = (setup.alloc, setup.lim);
    let entries = run.journal.len();
    let mut team = deal(alloc, &run.state, entries, lim.tasks, 1, first)?;
    let progress = RoundProgress::new(team.pending);
    let site = Site {
        gate,
        progress: &progress,
    };
    let game: Game<'_, N> = Game::new(setup);
    let hints = Hints::none(alloc);
    let mut core = RoundCore::new(alloc, lim, run, seen.take(alloc))?;
    for worker in team.workers.iter_mut() {
        let mut access = Lent {
            game: &game,
            hints: &hints,
            core: &mut core,
            trail: MoveTrail::new(),
            has_others,
        };
        worker.work(rt, &mut access, &site);
    }
    core.into_run(seen).ok_or(lost())
}

/// The run after the moves of several workers, each on a thread of its own. Meanwhile the run lies under a lock.
pub(crate) fn together<'a, N: RoundName + Send + Sync, R: Threads + Wait + Sync, G: Gate + Sync>(
    rt: &'a R,
    setup: &'a Setup<'a>,
    workers: u32,
    run: CoreRun,
    seen: &mut SeenOfRun,
    gate: &'a G,
) -> Result<CoreRun, Memory>
    requires some { 1 ≤ workers }
    requires named { (setup.now.p.now ≡ N.prog) × (setup.now.lim ≡ N.lim) }
    requires keeps { Keeps N.prog N.lim N.earlier run }
    ensures { IfOk result (Keeps N.prog N.lim N.earlier) }
{
    let (alloc, lim) = (setup.alloc, setup.lim);
    let entries = run.journal.len();
    let mut team = deal(alloc, &run.state, entries, lim.tasks, workers, None)?;
    let progress = RoundProgress::new(team.pending);
    let game: Game<'_, N> = Game::new(setup);
    let hints = Hints::of(alloc, &run.state.cells)?;
    let core = Mutex::new(RoundCore::new(alloc, lim, run, seen.take(alloc))?);
    let shared = SharedCore {
        rt,
        gate,
        progress: &progress,
        game: &game,
        hints: &hints,
        core: &core,
    };
    let team = team.workers.as_mut_slice();
    thread::for_each_mut(rt, team, workers as usize, &|_, worker| shared.send(worker));
    core.into_inner().into_run(seen).ok_or(lost())
}

/// What the workers of a round share.
#[derive(Drop)]
struct SharedCore<'a, R: Wait, G, N: RoundName> {
    rt: &'a R,
    gate: &'a G,
    progress: &'a RoundProgress,
    game: &'a Game<'a, N>,
    hints: &'a Hints,
    core: &'a Mutex<RoundCore<N>>,
}

impl<'a, R: Wait, G: Gate, N: RoundName> SharedCore<'a, R, G, N> {
    /// Sends a worker to work.
    fn send(&self, worker: &mut Worker) {
        let mut access = Locked {
            rt: self.rt,
            gate: self.gate,
            game: self.game,
            hints: self.hints,
            core: self.core,
            own: WorkerState {
                kept: Kept::new(self.game.alloc()),
                start: None,
                scratch: None,
                trail: MoveTrail::new(),
            },
        };
        let site = Site {
            gate: self.gate,
            progress: self.progress,
        };
        worker.work(self.rt, &mut access, &site);
    }
}
