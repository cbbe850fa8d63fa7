//! What a task fails since one of 128 futures may be out, or is not surely out.
ghost use Rattle.std.specs.Prelude.{◌≡◌, ◌++◌, false, Contains, IfNone, IfOk, IfSome, OnOk, option_to_list};
ghost use Rattle.std.specs.List.{All};
ghost use Rattle.twe_base.specs.declared.place.Place.{Place as At};
ghost use Rattle.twe_program.specs.WellFormed.{DeclFits};
ghost use Rattle.cover_flow.specs.Flow.{IsFlowOf};
ghost use Rattle.effect_check.specs.declared.rule.ERule.{ERule as Named};
ghost use Rattle.effect_check.specs.declared.rule.ERule.TheVariants.{E4, E5};
ghost use Rattle.effect_check.specs.Acts.{acts_in_all};
ghost use Rattle.effect_check.specs.Covered.{Does};
ghost use Rattle.refusal_causes.specs.Barring.{IsSpawnBar};
ghost use Rattle.refusal_causes.specs.Seeking.{needs_of};
ghost use Rattle.refusal_causes.specs.inner.Found.{Grows, IsUnlisted};
ghost use Rattle.refusal_causes.specs.inner.Keeping.{IsNoBar};
ghost use Rattle.refusal_causes.specs.inner.Listed.{IsFreeFor, IsGroup, JoinsInGroup, KeepsGroup, SpawnsInGroup, make_if, makes_of};

use crate::alone::{need_at, note_of_task};
use crate::barring::{SpawnBar, bar_in_group};
use crate::cause::RuleCause;
use crate::found::FoundFailures;
use crate::needing::needs_of;
use crate::ordering::place_of_making;
use cover_flow::{Points, flow};
use effect_check::{Act, ActKind, ERule};
use std::alloc::Global;
use twe_base::{Failure, List, Memory};
use twe_program::{Decl, Prog};

/// An equal act in its own memory, if it makes the task of a future that is followed.
fn make_copy(alloc: Global, points: &Points, act: &Act) -> Result<Option<Act>, Memory>
    ensures { IfOk result (λ copy. copy ≡ make_if points.now.first act.now) }
{
    match &act.kind {
        ActKind::Make {
            future,
            spawned,
            deterministic,
            effects,
            future_place,
            place,
        } => {
            if !points.follows(*future) {
                return Ok(None);
            }
            let kind = ActKind::Make {
                future: *future,
                spawned: *spawned,
                deterministic: *deterministic,
                effects: effects.copy(alloc)?,
                future_place: *future_place,
                place: *place,
            };
            Ok(Some(Act {
                point: act.point,
                kind,
            }))
        }
        ActKind::Touch { .. } => Ok(None),
        ActKind::Call { .. } => Ok(None),
        ActKind::Wait { .. } => Ok(None),
    }
}

/// Adds the act, if there is one.
fn push_some(acts: &mut List<Act>, some: Option<Act>) -> Result<(), Memory>
    ensures { OnOk result (acts.new ≡ acts.old ++ option_to_list some) }
{
    match some {
        None => Ok(()),
        Some(act) => acts.push(act),
    }
}

/// The acts that make the tasks of the futures that are followed.
fn makes_of(alloc: Global, points: &Points, acts: &[Act]) -> Result<List<Act>, Memory>
    ensures { IfOk result (λ makes. makes ≡ makes_of points.now.first acts.now) }
{
    let mut makes = List::new(alloc);
    for act in acts {
        let copy = make_copy(alloc, points, act)?;
        push_some(&mut makes, copy)?;
    }
    Ok(makes)
}

/// How one of these spawns bars an effect that is needed for the act, if one does.
fn bar_for(
    alloc: Global,
    p: &Prog,
    task: &Decl,
    points: &Points,
    makes: &[Act],
    act: &Act,
) -> Result<Option<SpawnBar>, Memory>
    requires group { IsGroup p.now task.now points.now makes.now }
    requires fits { DeclFits p.now task.now }
    requires done { Does p.now task.now act.now.point act.now.kind }
    ensures found { IfOk result (λ found. IfSome found (IsSpawnBar p.now false task.now act.now.point (needs_of act.now.kind))) }
    ensures none { IfOk result (λ found. IfNone found
        (All (IsNoBar task.now act.now.point (needs_of act.now.kind)) makes.now)) }
{
    if !points.some_may(act.point) {
        return Ok(None);
    }
    let needs = needs_of(alloc, &act.kind)?;
    bar_in_group(alloc, p, task, points, act.point, needs.as_slice(), makes)
}

/// Notes that one of these spawns bars an effect that is needed for the act, if one does.
fn note_barred(
    found: &mut FoundFailures,
    alloc: Global,
    p: &Prog,
    task: &Decl,
    points: &Points,
    makes: &[Act],
    act: &Act,
) -> Result<(), Memory>
    requires group { IsGroup p.now task.now points.now makes.now }
    requires fits { DeclFits p.now task.now }
    requires inside { Contains p.now.tasks task.now }
    requires done { Does p.now task.now act.now.point act.now.kind }
    ensures grows { OnOk result (Grows p.now found.old found.new) }
    ensures kept { OnOk result ((rule : Named) (place : At) → IsUnlisted found.new rule place
        → IsFreeFor task.now makes.now rule place act.now) }
{
    let need = need_at(false, &act.kind);
    match need {
        None => Ok(()),
        Some(Failure { rule, place }) => {
            if found.has(rule, place) {
                return Ok(());
            }
            let barred = bar_for(alloc, p, task, points, makes, act)?;
            match barred {
                None => Ok(()),
                Some(
                    SpawnBar {
                        need,
                        other,
                        future_place,
                        way,
                    },
                ) => {
                    let decl_place = task.place;
                    let cause = RuleCause::Out {
                        need,
                        other,
                        future_place,
                        way,
                        decl_place,
                    };
                    found.note(p, rule, place, cause)
                }
            }
        }
    }
}

/// Notes that the act joins one of these futures which is not surely out, if it does.
fn note_join(
    found: &mut FoundFailures,
    p: &Prog,
    task: &Decl,
    points: &Points,
    makes: &[Act],
    act: &Act,
) -> Result<(), Memory>
    requires group { IsGroup p.now task.now points.now makes.now }
    requires fits { DeclFits p.now task.now }
    requires inside { Contains p.now.tasks task.now }
    requires done { Does p.now task.now act.now.point act.now.kind }
    ensures grows { OnOk result (Grows p.now found.old found.new) }
    ensures kept { OnOk result ((place : At) → IsUnlisted found.new E4 place
        → JoinsInGroup task.now points.now.first place act.now) }
{
    match &act.kind {
        ActKind::Wait {
            future,
            join: true,
            place,
        } => {
            if !points.follows(*future) {
                return Ok(());
            }
            if points.surely(act.point, *future) {
                return Ok(());
            }
            let future_place = place_of_making(p, task, makes, *future);
            let cause = RuleCause::NotOut {
                future_place,
                way: None,
            };
            note_of_task(found, p, task, ERule::E4, *place, cause)
        }
        ActKind::Wait { join: false, .. } => Ok(()),
        ActKind::Touch { .. } => Ok(()),
        ActKind::Call { .. } => Ok(()),
        ActKind::Make { .. } => Ok(()),
    }
}

/// Notes that the act spawns into one of these futures which may be out, if it does.
fn note_spawn(
    found: &mut FoundFailures,
    p: &Prog,
    task: &Decl,
    points: &Points,
    act: &Act,
) -> Result<(), Memory>
    requires facts { IsFlowOf points.now task.now.body }
    requires fits { DeclFits p.now task.now }
    requires inside { Contains p.now.tasks task.now }
    requires done { Does p.now task.now act.now.point act.now.kind }
    ensures grows { OnOk result (Grows p.now found.old found.new) }
    ensures kept { OnOk result ((place : At) → IsUnlisted found.new E5 place
        → SpawnsInGroup task.now points.now.first place act.now) }
{
    match &act.kind {
        ActKind::Make {
            future,
            spawned: true,
            future_place,
            ..
        } => {
            if !points.follows(*future) {
                return Ok(());
            }
            if !points.may(act.point, *future) {
                return Ok(());
            }
            note_of_task(
                found,
                p,
                task,
                ERule::E5,
                *future_place,
                RuleCause::OutAgain { way: None },
            )
        }
        ActKind::Make { spawned: false, .. } => Ok(()),
        ActKind::Touch { .. } => Ok(()),
        ActKind::Call { .. } => Ok(()),
        ActKind::Wait { .. } => Ok(()),
    }
}

/// Notes what the task fails by this act since one of these futures may be out, or is not surely out.
fn note_in_group(
    found: &mut FoundFailures,
    alloc: Global,
    p: &Prog,
    task: &Decl,
    points: &Points,
    makes: &[Act],
    act: &Act,
) -> Result<(), Memory>
    requires fits { DeclFits p.now task.now }
    requires inside { Contains p.now.tasks task.now }
    requires group { IsGroup p.now task.now points.now makes.now }
    requires done { Does p.now task.now act.now.point act.now.kind }
    ensures grows { OnOk result (Grows p.now found.old found.new) }
    ensures kept { OnOk result ((rule : Named) (place : At) → IsUnlisted found.new rule place
        → KeepsGroup p.now task.now points.now.first rule place act.now) }
{
    note_barred(found, alloc, p, task, points, makes, act)?;
    note_join(found, p, task, points, makes, act)?;
    note_spawn(found, p, task, points, act)?;
    Ok(())
}

/// Notes what the task fails since one of the 128 futures from this one on may be out, or is not surely out. All acts of the task
/// are given.
pub fn note_group(
    found: &mut FoundFailures,
    alloc: Global,
    p: &Prog,
    task: &Decl,
    acts: &[Act],
    first: u32,
) -> Result<(), Memory>
    requires fits { DeclFits p.now task.now }
    requires inside { Contains p.now.tasks task.now }
    requires all { acts.now ≡ acts_in_all p.now task.now.body.block }
    ensures grows { OnOk result (Grows p.now found.old found.new) }
    ensures kept { OnOk result ((rule : Named) (place : At) → IsUnlisted found.new rule place
        → All (KeepsGroup p.now task.now first rule place) acts.now) }
{
    let points = flow(alloc, &task.body, first)?;
    let made = makes_of(alloc, &points, acts)?;
    let makes = made.as_slice();
    for act in acts {
        note_in_group(found, alloc, p, task, &points, makes, act)?;
    }
    Ok(())
}
