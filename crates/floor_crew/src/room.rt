//! A round on a floor with room for fewer tasks than may be made, which is laid out in less time.
//!
//! It is a round under a lower limit on tasks. As long as fewer tasks were asked for than that, the journal and the state are the
//! same under both limits. The workers stop before a task is made for which there is no room. If one was asked for all the same,
//! the run goes on from where it was before the round.
ghost use Rattle.std.specs.Prelude.{◌≡◌, ◌≤◌, ◌<◌, IfOk, Ok, length, take};
ghost use mathlib.Core.List.{IsPrefix};
ghost use Rattle.isolation_laws.specs.soundness.KeepsEffects.{KeepsEffects};
ghost use Rattle.machine_state.specs.Runs.{IsRun, Legal};

use crate::round::round;
use crate::round_setup::RoundSetup;
use machine_state::{ReplayFail, moves_make_the_journal, one_first_illegal};
use seg_journal::{Entry, moves_of};
use std::alloc::Global;
use std::marker::Brand;
use std::sync::Wait;
use std::thread::Threads;
use steal_pool::gates::Gate;
use task_floor::steps::Rest;
use twe_base::{Limits, Memory};
use twe_machine::replay_journal;

/// A round on a floor with room for so many tasks, or for all that may be made. Returns the run after that,
/// whose journal begins with the one from before.
pub(crate) fn round_within<R: Threads + Wait + Sync, G: Gate + Sync>(
    rt: &R,
    setup: &RoundSetup<'_, G>,
    room: u32,
    rest: Rest,
) -> Result<Rest, Memory>
    requires some { 1 ≤ setup.now.workers }
    requires accepted { KeepsEffects setup.now.p.now }
    requires run { IsRun setup.now.p.now setup.now.lim rest.journal rest.state }
    ensures run { IfOk result (λ after. IsRun setup.now.p.now setup.now.lim after.journal after.state) }
    ensures begins { IfOk result (λ after. IsPrefix rest.journal after.journal) }
{
    let (p, lim) = (setup.p, setup.lim);
    if room >= lim.tasks || rest.state.asked >= room {
        return on_own_floor(rt, setup, u32::MAX, rest);
    }
    let before = rest.journal.len();
    let lower = RoundSetup {
        alloc: setup.alloc,
        p,
        lim: Limits {
            fuel: lim.fuel,
            tasks: room,
        },
        shape: setup.shape,
        workers: setup.workers,
        gate: setup.gate,
    };
    let full = room.saturating_sub(setup.workers);
    let after = on_own_floor(rt, &lower, full, rest)?;
    kept_or_back(setup, room, before, after)
}

/// The run after a round under a lower limit on tasks, if fewer were asked for than that. Only if as many were asked for or more,
/// the round is discarded: the run has the first `before` entries again.
fn kept_or_back<G>(
    setup: &RoundSetup<'_, G>,
    room: u32,
    before: usize,
    after: Rest,
) -> Result<Rest, Memory>
    requires lower { room < setup.now.lim.tasks }
    requires run { IsRun setup.now.p.now (record setup.now.lim { tasks = room }) after.journal after.state }
    requires there { before ≤ length after.journal }
    requires legal { Legal setup.now.p.now setup.now.lim (take before after.journal) }
    ensures kept { after.state.asked < room → result ≡ Ok after }
    ensures back { room ≤ after.state.asked → IfOk result (λ back. back.journal ≡ take before after.journal) }
    ensures run { IfOk result (λ run. IsRun setup.now.p.now setup.now.lim run.journal run.state) }
{
    if after.state.asked < room {
        return Ok(after);
    }
    go_back(setup, &after.journal.as_slice()[..before])
}

/// A round on a floor that is laid out for it.
fn on_own_floor<R: Threads + Wait + Sync, G: Gate + Sync>(
    rt: &R,
    setup: &RoundSetup<'_, G>,
    full: u32,
    rest: Rest,
) -> Result<Rest, Memory>
    requires some { 1 ≤ setup.now.workers }
    requires accepted { KeepsEffects setup.now.p.now }
    requires run { IsRun setup.now.p.now setup.now.lim rest.journal rest.state }
    ensures run { IfOk result (λ after. IsRun setup.now.p.now setup.now.lim after.journal after.state) }
    ensures begins { IfOk result (λ after. IsPrefix rest.journal after.journal) }
{
    round::<Brand, R, G>(rt, setup, full, rest)
}

/// The run that has these entries.
fn go_back<G>(setup: &RoundSetup<'_, G>, entries: &[Entry]) -> Result<Rest, Memory>
    requires { Legal setup.now.p.now setup.now.lim entries.now }
    ensures run { IfOk result (λ back. IsRun setup.now.p.now setup.now.lim back.journal back.state) }
    ensures same { IfOk result (λ back. back.journal ≡ entries.now) }
{
    one_first_illegal();
    moves_make_the_journal();
    let (alloc, p, lim) = (setup.alloc, setup.p, setup.lim);
    let _main = p.main;
    let moves = moves_of(alloc, entries)?;
    match replay_journal(alloc, p, lim, moves.as_slice()) {
        Ok((journal, state)) => Ok(Rest { state, journal }),
        Err(ReplayFail::Illegal { .. }) => unreachable!(),
        Err(ReplayFail::OutOfMemory(memory)) => Err(memory),
    }
}
