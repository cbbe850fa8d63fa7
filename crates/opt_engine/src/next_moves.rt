//! Taking the moves of a task's next segment without a draft.
ghost use Rattle.std.specs.Prelude.{◌≡◌, ◌↔◌, IfOk, IsTrue, Some};
ghost use mathlib.Core.List.{IsPrefix};
ghost use Rattle.twe_machine.specs.Listings.{IsListing};
ghost use Rattle.twe_base.specs.Limits.{Bounds};
ghost use Rattle.machine_state.specs.Runs.{IsReached, IsRun};
ghost use Rattle.opt_engine.specs.NextMoves.{GoesNext, MayTakeNext, TakesNext};
ghost use Rattle.opt_engine.specs.Verdicts.{IsFree};

use crate::committing::admit_if_made;
use crate::core_run::CoreRun;
use crate::hints::Hints;
use crate::readiness::is_ready;
use flat_sched::is_made;
use machine_state::State;
use seg_journal::{Kind, Move};
use std::alloc::Global;
use twe_base::{Limits, Memory};
use twe_machine::EnabledTasks;
use twe_program::Prog;

/// Takes the moves of a task's next segment, if they are legal. Returns the number of the last entry, or `None` if they are not.
/// Then the run is as before. The enabled tasks are those of the run. By its code it stores what was written to the hints.
#[tactic(auto, using(crate::proofs::NextMoves::next_begins, crate::proofs::Told::begins_itself, crate::proofs::Told::reached_of))]
pub(crate) fn go_next(
    alloc: Global,
    p: &Prog,
    lim: Limits,
    hints: &Hints,
    run: CoreRun,
    enabled: &mut EnabledTasks,
    t: u32,
) -> Result<(CoreRun, Option<u64>), Memory>
    requires run { IsRun p.now lim run.journal run.state }
    requires listing { IsListing run.state enabled.old }
    ensures run { IfOk result (λ answer. IsRun p.now lim answer.0.journal answer.0.state) }
    ensures listing { IfOk result (λ answer. IsListing answer.0.state enabled.new) }
    ensures goes { IfOk result (λ answer. GoesNext p.now lim run t answer.1 (Some answer.0)) }
    ensures begins { IfOk result (λ answer. IsPrefix run.journal answer.0.journal) }
{
    if !may_take_next(p, &run.state, enabled, t) {
        return Ok((run, None));
    }
    let (after, number) = take_next(alloc, p, lim, hints, run, enabled, t)?;
    Ok((after, Some(number)))
}

/// Whether a task has a next segment, and nothing holds it back.
fn may_take_next(p: &Prog, st: &State, enabled: &EnabledTasks, t: u32) -> bool
    requires reached { (lim : Bounds) × IsReached p.now lim st.now }
    requires listing { IsListing st.now enabled.now }
    ensures { IsTrue result ↔ MayTakeNext st.now t }
{
    let _main = p.main;
    is_ready(st, t) && is_free(p, st, enabled, t)
}

/// Whether nothing holds a task back.
fn is_free(p: &Prog, st: &State, enabled: &EnabledTasks, t: u32) -> bool
    requires reached { (lim : Bounds) × IsReached p.now lim st.now }
    requires listing { IsListing st.now enabled.now }
    ensures { IsTrue result ↔ IsFree st.now t }
{
    let _main = p.main;
    if !is_made(st, t) {
        return true;
    }
    enabled.bar(st, t).is_none()
}

/// Takes the moves of the next segment of a task that may go on. Returns the run and the number of the last entry, counted
/// from 0.
fn take_next(
    alloc: Global,
    p: &Prog,
    lim: Limits,
    hints: &Hints,
    run: CoreRun,
    enabled: &mut EnabledTasks,
    t: u32,
) -> Result<(CoreRun, u64), Memory>
    requires run { IsRun p.now lim run.journal run.state }
    requires may { MayTakeNext run.state t }
    requires listing { IsListing run.state enabled.old }
    ensures run { IfOk result (λ took. IsRun p.now lim took.0.journal took.0.state) }
    ensures takes { IfOk result (λ took. TakesNext p.now lim run t took.1 took.0) }
    ensures listing { IfOk result (λ took. IsListing took.0.state enabled.new) }
{
    let _main = p.main;
    let mut run = run;
    let mv = Move {
        kind: Kind::Run,
        task: t,
    };
    admit_if_made(alloc, p, lim, &mut run, enabled, t)?;
    let before = run.state.links.task_count();
    run.run_shown(alloc, p, lim, hints, t)?;
    enabled.note(&run.state, mv, before)?;
    let number = run.journal.len().saturating_sub(1) as u64;
    Ok((run, number))
}
