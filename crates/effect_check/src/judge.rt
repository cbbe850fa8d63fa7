//! Reports the rules that a body fails by what it does, and keeps the first failure.
ghost use Rattle.std.specs.Prelude.{◌≡◌, OnOk};
ghost use Rattle.effect_check.specs.inner.Failures.{HasMarks, JudgesGroup, JudgesMethod, JudgesTask, declared_failures, declared_failures_at, first_from, future_failures, future_failures_at, method_failures_at};

use crate::act::{Act, ActKind};
use crate::body::acts_of_body;
use crate::cover::{are_inside, is_inside};
use crate::futures::{Futures, Spawn, followed, spawns_among};
use crate::marks::marks_of_all;
use crate::rule::ERule;
use crate::settled::{report_effect, report_effects};
use cover_flow::{FUTURES_AT_ONCE, flow};
use std::alloc::Global;
use twe_base::{Failure, Memory, report_if};
use twe_program::{Body, Decl, Prog};

/// Reports the failures of a task at one act, apart from those that futures make.
#[tactic(auto, using(crate::proofs::Firsts::firsts))]
fn judge_declared(task: &Decl, kind: &ActKind, first: &mut Option<Failure<ERule>>)
    ensures { first.new ≡ first_from first.old (declared_failures_at task.now kind.now) }
{
    match kind {
        ActKind::Touch { effect, place } => {
            let inside = is_inside(&task.summary, effect);
            report_if(first, !inside, ERule::E1, *place);
        }
        ActKind::Call { effects, place } => {
            let inside = are_inside(&task.summary, effects);
            report_if(first, !inside, ERule::E2, *place);
        }
        ActKind::Make {
            spawned: true,
            deterministic,
            effects,
            place,
            ..
        } => {
            let inside = are_inside(&task.summary, effects);
            let differs = task.deterministic && !*deterministic;
            report_if(first, !inside, ERule::E3, *place);
            report_if(first, differs, ERule::E7, *place);
        }
        ActKind::Make {
            spawned: false,
            place,
            ..
        } => report_if(first, task.deterministic, ERule::E6, *place),
        ActKind::Wait { join: true, .. } => {}
        ActKind::Wait {
            join: false,
            place,
            ..
        } => report_if(first, task.deterministic, ERule::E6, *place),
    }
}

/// Reports these failures of a task at each of its acts.
#[tactic(auto, using(crate::proofs::Firsts::firsts))]
fn judge_all_declared(task: &Decl, acts: &[Act], first: &mut Option<Failure<ERule>>)
    ensures { first.new ≡ first_from first.old (declared_failures task.now acts.now) }
{
    for act in acts {
        judge_declared(task, &act.kind, first);
    }
}

/// Reports the failures that the futures make at one act of a task.
#[tactic(auto, using(crate::proofs::Firsts::firsts))]
fn judge_futures(futures: &Futures, point: u32, kind: &ActKind, first: &mut Option<Failure<ERule>>)
    requires { HasMarks futures.now }
    ensures { first.new ≡ first_from first.old (future_failures_at futures.now point kind.now) }
{
    match kind {
        ActKind::Touch { effect, place } => {
            report_effect(first, futures, point, effect, ERule::E1, *place);
        }
        ActKind::Call { effects, place } => {
            report_effects(first, futures, point, effects, ERule::E2, *place);
        }
        ActKind::Make {
            future,
            spawned: true,
            effects,
            future_place,
            place,
            ..
        } => {
            let out = futures.points.may(point, *future);
            report_if(first, out, ERule::E5, *future_place);
            report_effects(first, futures, point, effects, ERule::E3, *place);
        }
        ActKind::Make { spawned: false, .. } => {}
        ActKind::Wait {
            future,
            join: true,
            place,
        } => {
            let out = futures.points.surely(point, *future);
            report_if(first, !out, ERule::E4, *place);
        }
        ActKind::Wait { join: false, .. } => {}
    }
}

/// Reports the failures that the futures make at each act of a task.
#[tactic(auto, using(crate::proofs::Firsts::firsts))]
fn judge_all_futures(futures: &Futures, acts: &[Act], first: &mut Option<Failure<ERule>>)
    requires { HasMarks futures.now }
    ensures { first.new ≡ first_from first.old (future_failures futures.now acts.now) }
{
    for act in acts {
        judge_futures(futures, act.point, &act.kind, first);
    }
}

/// Reports the failures that the 128 futures from this one on make at the acts of a body.
fn judge_group(
    alloc: Global,
    body: &Body,
    acts: &[Act],
    spawns: &[Spawn],
    start: u32,
    first: &mut Option<Failure<ERule>>,
) -> Result<(), Memory>
    ensures { OnOk result (JudgesGroup body.now acts.now spawns.now start first.old first.new) }
{
    let points = flow(alloc, body, start)?;
    let mine = followed(alloc, &points, spawns)?;
    let all = marks_of_all(false, mine.as_slice());
    let writes = marks_of_all(true, mine.as_slice());
    let futures = Futures {
        points,
        spawns: mine,
        all,
        writes,
    };
    judge_all_futures(&futures, acts, first);
    Ok(())
}

/// Reports the failures of a task: those that it has without its futures, and those that its futures make, 128 at once.
pub fn judge_task(
    alloc: Global,
    p: &Prog,
    task: &Decl,
    first: &mut Option<Failure<ERule>>,
) -> Result<(), Memory>
    ensures { OnOk result (JudgesTask p.now task.now first.old first.new) }
{
    let done = acts_of_body(alloc, p, &task.body.block)?;
    let acts = done.as_slice();
    let made = spawns_among(alloc, acts)?;
    let spawns = made.as_slice();
    judge_all_declared(task, acts, first);
    for group in 0..task.body.futures / FUTURES_AT_ONCE + 1 {
        judge_group(
            alloc,
            &task.body,
            acts,
            spawns,
            group * FUTURES_AT_ONCE,
            first,
        )?;
    }
    Ok(())
}

/// Reports the failures of a method at one act.
fn judge_in_method(method: &Decl, kind: &ActKind, first: &mut Option<Failure<ERule>>)
    ensures { first.new ≡ first_from first.old (method_failures_at method.now kind.now) }
{
    match kind {
        ActKind::Touch { effect, place } => {
            let inside = is_inside(&method.summary, effect);
            report_if(first, !inside, ERule::E8, *place);
        }
        ActKind::Call { effects, place } => {
            let all_inside = are_inside(&method.summary, effects);
            report_if(first, !all_inside, ERule::E8, *place);
        }
        _ => {}
    }
}

/// Reports the failures of a method.
#[tactic(auto, using(crate::proofs::Firsts::firsts))]
pub fn judge_method(
    alloc: Global,
    p: &Prog,
    method: &Decl,
    first: &mut Option<Failure<ERule>>,
) -> Result<(), Memory>
    ensures { OnOk result (JudgesMethod p.now method.now first.old first.new) }
{
    let acts = acts_of_body(alloc, p, &method.body.block)?;
    for act in acts.as_slice() {
        judge_in_method(method, &act.kind, first);
    }
    Ok(())
}
