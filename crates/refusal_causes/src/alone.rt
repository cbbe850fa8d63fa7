//! What a task or a method fails by an act, whatever its futures are.
ghost use Rattle.std.specs.Prelude.{◌≡◌, false, Contains, OnOk};
ghost use Rattle.std.specs.List.{All};
ghost use Rattle.twe_base.specs.declared.place.Place.{Place as At};
ghost use Rattle.effect_check.specs.declared.rule.ERule.{ERule as Named};
ghost use Rattle.effect_check.specs.declared.rule.ERule.TheVariants.{E6, E7};
ghost use Rattle.effect_check.specs.Covered.{Does};
ghost use Rattle.refusal_causes.specs.Causes.{IsCauseIn};
ghost use Rattle.refusal_causes.specs.Seeking.{is_of_needs};
ghost use Rattle.refusal_causes.specs.inner.Found.{Grows, IsUnlisted};
ghost use Rattle.refusal_causes.specs.inner.Keeping.{IsDeclaredFor, IsDone, KeepsOrder, SpawnsAlike, need_at, rule_for};
ghost use Rattle.refusal_causes.specs.inner.Listed.{KeepsAlone, decls_of, place_of};

use crate::cause::RuleCause;
use crate::found::FoundFailures;
use crate::needing::{first_undeclared, needs_of};
use crate::ordering::{cause_of_child, cause_of_order};
use effect_check::{Act, ActKind, ERule};
use std::alloc::Global;
use twe_base::{Failure, Memory, Place};
use twe_program::{Decl, Prog};

/// The rule for methods in place of the rule for tasks, if it is a method that does something.
fn rule_for(of_methods: bool, of_tasks: ERule) -> ERule
    ensures { result ≡ rule_for of_methods of_tasks }
{
    if of_methods { ERule::E8 } else { of_tasks }
}

/// The rule that a task, or a method, fails by this if it lacks an effect for it, and the place at which it does.
pub fn need_at(of_methods: bool, kind: &ActKind) -> Option<Failure<ERule>>
    ensures { result ≡ need_at of_methods kind.now }
{
    match kind {
        ActKind::Touch { place, .. } => Some(Failure {
            rule: rule_for(of_methods, ERule::E1),
            place: *place,
        }),
        ActKind::Call { place, .. } => Some(Failure {
            rule: rule_for(of_methods, ERule::E2),
            place: *place,
        }),
        ActKind::Make {
            spawned: true,
            place,
            ..
        } => {
            if of_methods {
                None
            } else {
                Some(Failure {
                    rule: ERule::E3,
                    place: *place,
                })
            }
        }
        ActKind::Make { spawned: false, .. } => None,
        ActKind::Wait { .. } => None,
    }
}

/// The place at which the act fails most rules.
fn place_of(kind: &ActKind) -> Place
    ensures { result ≡ place_of kind.now }
{
    match kind {
        ActKind::Touch { place, .. } | ActKind::Call { place, .. } => *place,
        ActKind::Make { place, .. } | ActKind::Wait { place, .. } => *place,
    }
}

/// Notes a failure of this rule, which is for tasks, with a cause that it has.
pub fn note_of_task(
    found: &mut FoundFailures,
    p: &Prog,
    task: &Decl,
    rule: ERule,
    place: Place,
    cause: RuleCause,
) -> Result<(), Memory>
    requires inside { Contains p.now.tasks task.now }
    requires late { is_of_needs rule ≡ false }
    requires caused { IsCauseIn p.now false rule place task.now cause }
    ensures grows { OnOk result (Grows p.now found.old found.new) }
    ensures listed { OnOk result (¬ IsUnlisted found.new rule place) }
{
    let _ = task;
    found.note(p, rule, place, cause)
}

/// Notes that the act fails its rule on needs, if it needs an effect that is not declared.
pub fn note_undeclared(
    found: &mut FoundFailures,
    alloc: Global,
    p: &Prog,
    decl: &Decl,
    of_methods: bool,
    act: &Act,
) -> Result<(), Memory>
    requires inside { Contains (decls_of p.now of_methods) decl.now }
    requires done { Does p.now decl.now act.now.point act.now.kind }
    ensures grows { OnOk result (Grows p.now found.old found.new) }
    ensures kept { OnOk result ((rule : Named) (place : At) → IsUnlisted found.new rule place
        → IsDeclaredFor of_methods rule place decl.now act.now.kind) }
{
    let need = need_at(of_methods, &act.kind);
    match need {
        None => Ok(()),
        Some(Failure { rule, place }) => {
            let needs = needs_of(alloc, &act.kind)?;
            let undeclared = first_undeclared(alloc, &decl.summary, needs.as_slice())?;
            match undeclared {
                None => Ok(()),
                Some(need) => {
                    let declared = decl.summary.copy(alloc)?;
                    let decl_place = decl.place;
                    let cause = RuleCause::Undeclared {
                        need,
                        declared,
                        decl_place,
                    };
                    found.note(p, rule, place, cause)
                }
            }
        }
    }
}

/// Notes that a deterministic task makes a task by `executeLater` here, or waits for one by `getValue`, if it does.
fn note_order(found: &mut FoundFailures, p: &Prog, task: &Decl, act: &Act) -> Result<(), Memory>
    requires inside { Contains p.now.tasks task.now }
    requires done { Does p.now task.now act.now.point act.now.kind }
    ensures grows { OnOk result (Grows p.now found.old found.new) }
    ensures kept { OnOk result ((place : At) → IsUnlisted found.new E6 place → KeepsOrder task.now place act.now.kind) }
{
    let place = place_of(&act.kind);
    let cause = cause_of_order(p, task, place, act);
    match cause {
        None => Ok(()),
        Some(cause) => note_of_task(found, p, task, ERule::E6, place, cause),
    }
}

/// Notes that a deterministic task spawns one here that was not declared so, if it does.
fn note_child(found: &mut FoundFailures, p: &Prog, task: &Decl, act: &Act) -> Result<(), Memory>
    requires inside { Contains p.now.tasks task.now }
    requires done { Does p.now task.now act.now.point act.now.kind }
    ensures grows { OnOk result (Grows p.now found.old found.new) }
    ensures kept { OnOk result ((place : At) → IsUnlisted found.new E7 place → SpawnsAlike task.now place act.now.kind) }
{
    let place = place_of(&act.kind);
    let cause = cause_of_child(p, task, place, act);
    match cause {
        None => Ok(()),
        Some(cause) => note_of_task(found, p, task, ERule::E7, place, cause),
    }
}

/// Notes what the task fails by this act, whatever its futures are.
fn note_alone(
    found: &mut FoundFailures,
    alloc: Global,
    p: &Prog,
    task: &Decl,
    act: &Act,
) -> Result<(), Memory>
    requires inside { Contains p.now.tasks task.now }
    requires done { Does p.now task.now act.now.point act.now.kind }
    ensures grows { OnOk result (Grows p.now found.old found.new) }
    ensures kept { OnOk result ((rule : Named) (place : At) → IsUnlisted found.new rule place
        → KeepsAlone rule place task.now act.now.kind) }
{
    note_undeclared(found, alloc, p, task, false, act)?;
    note_order(found, p, task, act)?;
    note_child(found, p, task, act)?;
    Ok(())
}

/// Notes what the task fails by these acts of its own, whatever its futures are.
pub fn note_all_alone(
    found: &mut FoundFailures,
    alloc: Global,
    p: &Prog,
    task: &Decl,
    acts: &[Act],
) -> Result<(), Memory>
    requires inside { Contains p.now.tasks task.now }
    requires done { All (IsDone p.now task.now) acts.now }
    ensures grows { OnOk result (Grows p.now found.old found.new) }
    ensures kept { OnOk result ((rule : Named) (place : At) → IsUnlisted found.new rule place
        → All (λ act. KeepsAlone rule place task.now act.kind) acts.now) }
{
    for act in acts {
        note_alone(found, alloc, p, task, act)?;
    }
    Ok(())
}
