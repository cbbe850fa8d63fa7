//! A round on the floor, in which workers admit tasks and run segments.
ghost use Rattle.std.specs.Prelude.{◌≡◌, ◌≤◌, length, IfOk};
ghost use mathlib.Core.List.{IsPrefix};
ghost use Rattle.twe_program.specs.WellFormed.{IsWellFormed};
ghost use Rattle.isolation_laws.specs.soundness.KeepsEffects.{KeepsEffects};
ghost use Rattle.machine_state.specs.Runs.{IsRun};
ghost use Rattle.floor_crew.specs.inner.Lent.{HasParts, IsMainOn, IsNewOn};

use crate::ground::Ground;
use crate::held_tasks::HeldTasks;
use crate::located::Located;
use crate::round_setup::RoundSetup;
use crate::round_worker::RoundWorker;
use crate::splitting::{join_all, split_all};
use crate::waiters::Waiters;
use floor_laws::table::Named;
use floor_laws::table::nodes::Planted;
use seg_journal::JournalPart;
use std::marker::Brand;
use std::sync::Wait;
use std::thread;
use std::thread::Threads;
use steal_pool::gates::Gate;
use task_floor::steps::Rest;
use task_floor::{Floor, Stand};
use tree_admit::serving::Workshop;
use twe_base::{List, Memory};
use twe_rounds::{RoundProgress, Site, Team, deal};

/// A round of the workers: the run goes on a floor, on which they admit tasks and run segments at the same time, until they
/// find no task that may go on, one of them finds that tasks are short, or a task with the number `full` was made. Returns the
/// run after that, whose journal begins with the one from before.
pub(crate) fn round<'a, N: Named + Planted + Send + Sync, R: Threads + Wait + Sync, G: Gate + Sync>(
    rt: &'a R,
    setup: &'a RoundSetup<'a, G>,
    full: u32,
    rest: Rest,
) -> Result<Rest, Memory>
    requires some { 1 ≤ setup.now.workers }
    requires accepted { KeepsEffects N.prog }
    requires named { (setup.now.p.now ≡ N.prog) × (setup.now.lim ≡ N.lim) × (setup.now.shape.now ≡ N.nodes) }
    requires run { IsRun N.prog N.lim rest.journal rest.state }
    ensures run { IfOk result (λ after. IsRun N.prog N.lim after.journal after.state) }
    ensures begins { IfOk result (λ after. IsPrefix rest.journal after.journal) }
{
    let (alloc, p, lim) = (setup.alloc, setup.p, setup.lim);
    let _main = p.main;
    let team = deal(alloc, &rest.state, 0, lim.tasks, setup.workers, None)?;
    let (floor, stand, part) = Floor::<N>::wake(alloc, setup.shape, lim, rest)?;
    let mut parts = List::new(alloc);
    parts.push(part)?;
    let stand = lend::<N, Brand, R, G>(rt, setup, full, &floor, stand, team, &mut parts)?;
    floor.rest(alloc, stand, parts.as_slice())
}

/// Lends the floor to the workers. The main stand is joined with theirs, and the entries of each are kept beside its own.
fn lend<
    'a,
    N: Named + Planted + Send + Sync,
    F: Located + Send + Sync,
    R: Threads + Wait + Sync,
    G: Gate + Sync,
>(
    rt: &'a R,
    setup: &'a RoundSetup<'a, G>,
    full: u32,
    floor: &'a Floor<N>,
    stand: Stand,
    team: Team,
    parts: &mut List<JournalPart>,
) -> Result<Stand, Memory>
    requires some { 1 ≤ setup.now.workers }
    requires named { (setup.now.p.now ≡ N.prog) × (setup.now.lim ≡ N.lim) × (setup.now.shape.now ≡ N.nodes) }
    requires located { floor.now ≡ F.table }
    requires new { IsNewOn F.table stand 0 }
    requires parts { HasParts stand parts.old }
    ensures main { IfOk result (λ stand. IsMainOn F.table stand 0) }
    ensures parts { IfOk result (λ stand. HasParts stand parts.new) }
    ensures kept { IfOk result (λ _. IsPrefix parts.old parts.new) }
{
    let mut stand = stand;
    let waiters = Waiters::new(setup.alloc, setup.lim.tasks)?;
    let held = HeldTasks::new(setup.alloc, setup.lim.tasks)?;
    let progress = RoundProgress::new(team.pending);
    let workers = setup.workers;
    let mut hands = split_all::<N, F>(setup.alloc, floor, &mut stand, team.workers, workers)?;
    let shop = Workshop::new(setup.alloc, setup.p, setup.lim, setup.shape, floor);
    let ground: Ground<'_, N, F> = Ground::new(shop, waiters, held, full);
    let shared = SharedFloor {
        rt,
        gate: setup.gate,
        progress: &progress,
        ground: &ground,
    };
    let lent = hands.as_mut_slice();
    thread::for_each_mut(rt, lent, workers as usize, &|_, hand| shared.send(hand));
    join_all::<N, F>(floor, &mut stand, hands, parts)?;
    Ok(stand)
}

/// What the workers of a round share.
#[derive(Drop)]
struct SharedFloor<'a, R: Wait, G, N: Named + Planted, F: Located> {
    rt: &'a R,
    gate: &'a G,
    progress: &'a RoundProgress,
    ground: &'a Ground<'a, N, F>,
}

impl<'a, R: Wait, G: Gate, N: Named + Planted, F: Located> SharedFloor<'a, R, G, N, F> {
    /// Sends a worker to work.
    fn send(&self, hand: &mut RoundWorker<F>) {
        let site = Site {
            gate: self.gate,
            progress: self.progress,
        };
        hand.work(self.rt, self.ground, &site);
    }
}
