//! Joins and spawns of a task at a place, and what a deterministic task must not do: why the rules on these fail there.
ghost use Rattle.std.specs.Prelude.{◌≡◌, Bool, false, true, IfNone, IfOk, IfSome};
ghost use Rattle.std.specs.List.{All};
ghost use Rattle.twe_program.specs.WellFormed.{DeclFits};
ghost use Rattle.effect_check.specs.Acts.{acts_in_all};
ghost use Rattle.effect_check.specs.Covered.{Does};
ghost use Rattle.effect_check.specs.declared.rule.ERule.TheVariants.{E4, E5, E6, E7};
ghost use Rattle.refusal_causes.specs.Causes.{IsCauseIn, IsMadeAt, has_open_order, spawns_other};
ghost use Rattle.refusal_causes.specs.inner.Keeping.{IsDone, IsMaking, IsNoMake, JoinsSurely, KeepsOrder, SpawnsAlike, SpawnsAnew, is_making};

use crate::cause::RuleCause;
use crate::needing::is_at;
use crate::showing::way_if;
use cover_flow::flow;
use effect_check::{Act, ActKind};
use std::alloc::Global;
use twe_base::{Memory, Place};
use twe_program::{Decl, Prog};

/// The place of the future's name, if this makes the task of the future.
fn place_if_making(kind: &ActKind, wanted: u32) -> Option<Place>
    ensures found { IfSome result (λ place. IsMaking wanted place kind.now) }
    ensures none { IfNone result (is_making wanted kind.now ≡ false) }
{
    match kind {
        ActKind::Make {
            future,
            future_place,
            ..
        } => {
            if *future == wanted {
                Some(*future_place)
            } else {
                None
            }
        }
        ActKind::Touch { .. } => None,
        ActKind::Call { .. } => None,
        ActKind::Wait { .. } => None,
    }
}

/// The place of the future's name, where one of these acts of the task makes the future's task. `None` is returned if and only if
/// none of them does.
pub fn place_of_making(p: &Prog, task: &Decl, acts: &[Act], future: u32) -> Option<Place>
    requires { All (IsDone p.now task.now) acts.now }
    ensures found { IfSome result (IsMadeAt p.now task.now future) }
    ensures none { IfNone result (All (IsNoMake future) acts.now) }
{
    let _ = p;
    let _ = task;
    for act in acts {
        let found = place_if_making(&act.kind, future);
        if found.is_some() {
            return found;
        }
    }
    None
}

/// Why this fails rule E4, if it is a join at the place whose future is not surely out.
pub fn cause_of_join(
    alloc: Global,
    p: &Prog,
    task: &Decl,
    place: Place,
    act: &Act,
    acts: &[Act],
) -> Result<Option<RuleCause>, Memory>
    requires done { Does p.now task.now act.now.point act.now.kind }
    requires fits { DeclFits p.now task.now }
    requires all { acts.now ≡ acts_in_all p.now task.now.body.block }
    ensures found { IfOk result (λ found. IfSome found (IsCauseIn p.now true E4 place task.now)) }
    ensures none { IfOk result (λ found. IfNone found (JoinsSurely task.now place act.now.point act.now.kind)) }
{
    match &act.kind {
        ActKind::Wait {
            future,
            join: true,
            place: at,
        } => {
            if !is_at(*at, place) {
                return Ok(None);
            }
            let points = flow(alloc, &task.body, *future)?;
            if points.surely(act.point, *future) {
                return Ok(None);
            }
            let future_place = place_of_making(p, task, acts, *future);
            let way = way_if(true, &task.body, act.point, *future, false);
            Ok(Some(RuleCause::NotOut { future_place, way }))
        }
        ActKind::Wait { join: false, .. } => Ok(None),
        ActKind::Touch { .. } => Ok(None),
        ActKind::Call { .. } => Ok(None),
        ActKind::Make { .. } => Ok(None),
    }
}

/// Why this fails rule E5, if it is a spawn at the place whose future may be out.
pub fn cause_of_spawn(
    alloc: Global,
    p: &Prog,
    task: &Decl,
    place: Place,
    act: &Act,
) -> Result<Option<RuleCause>, Memory>
    requires done { Does p.now task.now act.now.point act.now.kind }
    requires fits { DeclFits p.now task.now }
    ensures found { IfOk result (λ found. IfSome found (IsCauseIn p.now true E5 place task.now)) }
    ensures none { IfOk result (λ found. IfNone found (SpawnsAnew task.now place act.now.point act.now.kind)) }
{
    let _ = p;
    match &act.kind {
        ActKind::Make {
            future,
            spawned: true,
            future_place,
            ..
        } => {
            if !is_at(*future_place, place) {
                return Ok(None);
            }
            let points = flow(alloc, &task.body, *future)?;
            if points.may(act.point, *future) {
                let way = way_if(true, &task.body, act.point, *future, true);
                Ok(Some(RuleCause::OutAgain { way }))
            } else {
                Ok(None)
            }
        }
        ActKind::Make { spawned: false, .. } => Ok(None),
        ActKind::Touch { .. } => Ok(None),
        ActKind::Call { .. } => Ok(None),
        ActKind::Wait { .. } => Ok(None),
    }
}

/// Whether this is an `executeLater` at the place, or a `getValue`.
fn has_open_order(place: Place, makes: bool, kind: &ActKind) -> bool
    ensures { result ≡ has_open_order place makes kind.now }
{
    match kind {
        ActKind::Make {
            spawned,
            place: at,
            ..
        } => makes && !*spawned && is_at(*at, place),
        ActKind::Wait {
            join,
            place: at,
            ..
        } => !makes && !*join && is_at(*at, place),
        ActKind::Touch { .. } => false,
        ActKind::Call { .. } => false,
    }
}

/// Whether this is a spawn at the place of a task that was not declared deterministic.
fn spawns_other(place: Place, kind: &ActKind) -> bool
    ensures { result ≡ spawns_other place kind.now }
{
    match kind {
        ActKind::Make {
            spawned,
            deterministic,
            place: at,
            ..
        } => *spawned && !*deterministic && is_at(*at, place),
        ActKind::Touch { .. } => false,
        ActKind::Call { .. } => false,
        ActKind::Wait { .. } => false,
    }
}

/// Why this fails rule E6, if the task is deterministic, and this is an `executeLater` or a `getValue` at the place.
pub fn cause_of_order(p: &Prog, task: &Decl, place: Place, act: &Act) -> Option<RuleCause>
    requires { Does p.now task.now act.now.point act.now.kind }
    ensures found { (ways : Bool) → IfSome result (IsCauseIn p.now ways E6 place task.now) }
    ensures none { IfNone result (KeepsOrder task.now place act.now.kind) }
{
    let _ = p;
    let decl_place = task.place;
    if !task.deterministic {
        return None;
    }
    if has_open_order(place, true, &act.kind) {
        return Some(RuleCause::OrderOpen {
            makes: true,
            decl_place,
        });
    }
    if has_open_order(place, false, &act.kind) {
        return Some(RuleCause::OrderOpen {
            makes: false,
            decl_place,
        });
    }
    None
}

/// Why this fails rule E7, if the task is deterministic, and this is a spawn at the place of a task that was not declared so.
pub fn cause_of_child(p: &Prog, task: &Decl, place: Place, act: &Act) -> Option<RuleCause>
    requires { Does p.now task.now act.now.point act.now.kind }
    ensures found { (ways : Bool) → IfSome result (IsCauseIn p.now ways E7 place task.now) }
    ensures none { IfNone result (SpawnsAlike task.now place act.now.kind) }
{
    let _ = p;
    if !task.deterministic || !spawns_other(place, &act.kind) {
        return None;
    }
    Some(RuleCause::NotDeterministic {
        decl_place: task.place,
    })
}
