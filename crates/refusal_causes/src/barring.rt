//! A spawned task that bars one of several effects: it may be out, and has an effect that interferes.
ghost use Rattle.std.specs.Prelude.{◌≡◌, ◌<◌, false, true, IfNone, IfOk, IfSome, IsTrue, Contains, OnOk};
ghost use Rattle.std.specs.List.{All};
ghost use Rattle.twe_program.specs.WellFormed.{DeclFits};
ghost use Rattle.cover_flow.specs.Flow.{IsFlowOf, is_among};
ghost use Rattle.effect_sets.specs.Interference.{statically_interferes};
ghost use Rattle.effect_check.specs.Acts.{acts_in_all};
ghost use Rattle.effect_check.specs.Covered.{Does};
ghost use Rattle.refusal_causes.specs.Barring.{IsFutureBar, IsPair, IsSpawnBar};
ghost use Rattle.refusal_causes.specs.inner.Keeping.{AreFreeOf, BarsNone, IsDone, IsFollowed, IsFreeOf, IsNoBar};

use crate::showing::way_if;
use crate::way::ControlWay;
use cover_flow::{Points, flow};
use effect_check::{Act, ActKind};
use effect_sets::{Effect, Summary, interferes};
use std::alloc::Global;
use twe_base::{Memory, Place};
use twe_program::{Body, Decl, Prog};

/// An effect that is needed, and one that interferes with it.
#[derive(Debug, Drop)]
pub struct Pair {
    /// The effect that is needed.
    pub need: Effect,
    /// The effect of the spawned task.
    pub other: Effect,
}

/// An effect that is needed, one of a spawned task that bars it, and the place of the future's name.
#[derive(Debug, Drop)]
pub struct SpawnBar {
    /// The effect that is needed.
    pub need: Effect,
    /// The effect of the spawned task.
    pub other: Effect,
    /// The place of the future's name.
    pub future_place: Place,
    /// A way on which the future is out, if ways are wanted.
    pub way: Option<ControlWay>,
}

/// The first of the other effects that interferes with the effect, if one does.
fn first_interfering(
    alloc: Global,
    effect: &Effect,
    others: &Summary,
) -> Result<Option<Effect>, Memory>
    ensures found { IfOk result (λ found. IfSome found (λ other.
        Contains others.now.effects other × IsTrue (statically_interferes effect.now other))) }
    ensures none { IfOk result (λ found. IfNone found (IsFreeOf others.now effect.now)) }
{
    for other in others.effects.as_slice() {
        if interferes(effect, other) {
            return Ok(Some(other.copy(alloc)?));
        }
    }
    Ok(None)
}

/// The first of the needed effects that interferes with one of the others, if one does.
fn first_pair(alloc: Global, needs: &[Effect], others: &Summary) -> Result<Option<Pair>, Memory>
    ensures found { IfOk result (λ found. IfSome found (IsPair needs.now others.now)) }
    ensures none { IfOk result (λ found. IfNone found (All (IsFreeOf others.now) needs.now)) }
{
    for need in needs {
        let interfering = first_interfering(alloc, need, others)?;
        if let Some(other) = interfering {
            let need = need.copy(alloc)?;
            return Ok(Some(Pair { need, other }));
        }
    }
    Ok(None)
}

/// Finds new facts of the body, if these do not follow the future.
fn follow(alloc: Global, body: &Body, points: &mut Points, future: u32) -> Result<(), Memory>
    requires { IsFlowOf points.now body.now }
    ensures facts { OnOk result (IsFlowOf points.new body.now) }
    ensures followed { OnOk result (IsTrue (is_among points.new.first future)) }
{
    if !points.follows(future) {
        *points = flow(alloc, body, future)?;
    }
    Ok(())
}

/// How a spawn into the future, of a task with these effects, bars one of the needed ones at the point, if it does.
fn bar_by_spawn(
    alloc: Global,
    body: &Body,
    points: &Points,
    point: u32,
    needs: &[Effect],
    future: u32,
    effects: &Summary,
    future_place: Place,
    ways: bool,
) -> Result<Option<SpawnBar>, Memory>
    requires facts { IsFlowOf points.now body.now }
    requires here { point < body.now.points }
    requires there { future < body.now.futures }
    requires followed { IsTrue (is_among points.now.first future) }
    ensures found { IfOk result (λ found. IfSome found
        (IsFutureBar ways body.now point needs.now future effects.now future_place)) }
    ensures none { IfOk result (λ found. IfNone found (AreFreeOf body.now point needs.now future effects.now)) }
{
    if !points.may(point, future) {
        return Ok(None);
    }
    let pair = first_pair(alloc, needs, effects)?;
    match pair {
        None => Ok(None),
        Some(Pair { need, other }) => {
            let way = way_if(ways, body, point, future, true);
            Ok(Some(SpawnBar {
                need,
                other,
                future_place,
                way,
            }))
        }
    }
}

/// Finds new facts of the body, if this is a spawn whose future these do not follow.
fn follow_spawn(
    alloc: Global,
    body: &Body,
    points: &mut Points,
    kind: &ActKind,
) -> Result<(), Memory>
    requires { IsFlowOf points.now body.now }
    ensures facts { OnOk result (IsFlowOf points.new body.now) }
    ensures followed { OnOk result (IsFollowed points.new.first kind.now) }
{
    match kind {
        ActKind::Make {
            future,
            spawned: true,
            ..
        } => follow(alloc, body, points, *future),
        ActKind::Make { spawned: false, .. } => Ok(()),
        ActKind::Touch { .. } | ActKind::Call { .. } | ActKind::Wait { .. } => Ok(()),
    }
}

/// How this act of the task bars one of the needed effects at the point, if it is a spawn that does. Its future is followed.
fn bar_by(
    alloc: Global,
    p: &Prog,
    task: &Decl,
    points: &Points,
    point: u32,
    needs: &[Effect],
    act: &Act,
    ways: bool,
) -> Result<Option<SpawnBar>, Memory>
    requires facts { IsFlowOf points.now task.now.body }
    requires fits { DeclFits p.now task.now }
    requires here { point < task.now.body.points }
    requires done { Does p.now task.now act.now.point act.now.kind }
    requires followed { IsFollowed points.now.first act.now.kind }
    ensures found { IfOk result (λ found. IfSome found (IsSpawnBar p.now ways task.now point needs.now)) }
    ensures none { IfOk result (λ found. IfNone found (BarsNone task.now point needs.now act.now.kind)) }
{
    let _ = p;
    match &act.kind {
        ActKind::Make {
            future,
            spawned: true,
            effects,
            future_place,
            ..
        } => bar_by_spawn(
            alloc,
            &task.body,
            points,
            point,
            needs,
            *future,
            effects,
            *future_place,
            ways,
        ),
        ActKind::Make { spawned: false, .. } => Ok(None),
        ActKind::Touch { .. } => Ok(None),
        ActKind::Call { .. } => Ok(None),
        ActKind::Wait { .. } => Ok(None),
    }
}

/// How one of these acts of the task bars one of the needed effects at the point, if one does, without a way. Their futures
/// are followed.
pub fn bar_in_group(
    alloc: Global,
    p: &Prog,
    task: &Decl,
    points: &Points,
    point: u32,
    needs: &[Effect],
    makes: &[Act],
) -> Result<Option<SpawnBar>, Memory>
    requires facts { IsFlowOf points.now task.now.body }
    requires fits { DeclFits p.now task.now }
    requires here { point < task.now.body.points }
    requires done { All (IsDone p.now task.now) makes.now }
    requires followed { All (λ act. IsFollowed points.now.first act.kind) makes.now }
    ensures found { IfOk result (λ found. IfSome found (IsSpawnBar p.now false task.now point needs.now)) }
    ensures none { IfOk result (λ found. IfNone found (All (IsNoBar task.now point needs.now) makes.now)) }
{
    for act in makes {
        let found = bar_by(alloc, p, task, points, point, needs, act, false)?;
        if let Some(bar) = found {
            return Ok(Some(bar));
        }
    }
    Ok(None)
}

/// How one of the task's acts bars one of the needed effects at the point, if one does, with a way. The facts of 128 futures
/// are found at once.
pub fn bar_among(
    alloc: Global,
    p: &Prog,
    task: &Decl,
    point: u32,
    needs: &[Effect],
    acts: &[Act],
) -> Result<Option<SpawnBar>, Memory>
    requires fits { DeclFits p.now task.now }
    requires here { point < task.now.body.points }
    requires all { acts.now ≡ acts_in_all p.now task.now.body.block }
    ensures found { IfOk result (λ found. IfSome found (IsSpawnBar p.now true task.now point needs.now)) }
    ensures none { IfOk result (λ found. IfNone found (All (IsNoBar task.now point needs.now) acts.now)) }
{
    let mut points = flow(alloc, &task.body, 0)?;
    for act in acts {
        follow_spawn(alloc, &task.body, &mut points, &act.kind)?;
        let found = bar_by(alloc, p, task, &points, point, needs, act, true)?;
        if let Some(bar) = found {
            return Ok(Some(bar));
        }
    }
    Ok(None)
}
