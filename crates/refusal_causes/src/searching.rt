//! The search for the cause of a failure: through the declarations that the rule is for, and all that their bodies do.
ghost use Rattle.std.specs.Prelude.{◌≡◌, true, IfNone, IfOk, IfSome};
ghost use Rattle.std.specs.List.{All};
ghost use Rattle.twe_program.specs.WellFormed.{DeclFits};
ghost use Rattle.effect_check.specs.Acts.{acts_in_all};
ghost use Rattle.effect_check.specs.Covered.{Does};
ghost use Rattle.effect_check.specs.FailsEffect.{FailsEffect};
ghost use Rattle.refusal_causes.specs.Causes.{IsCause, IsCauseIn, IsCauseOfSome};
ghost use Rattle.refusal_causes.specs.Seeking.{decls_for, is_of_methods};
ghost use Rattle.refusal_causes.specs.inner.Keeping.{IsKept, KeepsThere};

use crate::cause::RuleCause;
use crate::needing::cause_of_lack;
use crate::ordering::{cause_of_child, cause_of_join, cause_of_order, cause_of_spawn};
use effect_check::{Act, ERule, acts_of_body};
use std::alloc::Global;
use twe_base::{Memory, Place};
use twe_program::{Decl, Prog};

/// Why the declaration fails the rule at the place by this act, if it does.
fn cause_of_act(
    alloc: Global,
    p: &Prog,
    decl: &Decl,
    rule: ERule,
    place: Place,
    act: &Act,
    acts: &[Act],
) -> Result<Option<RuleCause>, Memory>
    requires done { Does p.now decl.now act.now.point act.now.kind }
    requires fits { DeclFits p.now decl.now }
    requires all { acts.now ≡ acts_in_all p.now decl.now.body.block }
    ensures found { IfOk result (λ found. IfSome found (IsCauseIn p.now true rule place decl.now)) }
    ensures none { IfOk result (λ found. IfNone found (IsKept p.now rule place decl.now act.now)) }
{
    match rule {
        ERule::E1 => cause_of_lack(alloc, p, decl, ERule::E1, place, act, acts),
        ERule::E2 => cause_of_lack(alloc, p, decl, ERule::E2, place, act, acts),
        ERule::E3 => cause_of_lack(alloc, p, decl, ERule::E3, place, act, acts),
        ERule::E4 => cause_of_join(alloc, p, decl, place, act, acts),
        ERule::E5 => cause_of_spawn(alloc, p, decl, place, act),
        ERule::E6 => Ok(cause_of_order(p, decl, place, act)),
        ERule::E7 => Ok(cause_of_child(p, decl, place, act)),
        ERule::E8 => cause_of_lack(alloc, p, decl, ERule::E8, place, act, acts),
    }
}

/// Why the declaration fails the rule at the place, if it does.
fn cause_within(
    alloc: Global,
    p: &Prog,
    decl: &Decl,
    rule: ERule,
    place: Place,
) -> Result<Option<RuleCause>, Memory>
    requires { DeclFits p.now decl.now }
    ensures found { IfOk result (λ found. IfSome found (IsCauseIn p.now true rule place decl.now)) }
    ensures none { IfOk result (λ found. IfNone found (KeepsThere p.now rule place decl.now)) }
{
    let done = acts_of_body(alloc, p, &decl.body.block)?;
    let acts = done.as_slice();
    for act in acts {
        let found = cause_of_act(alloc, p, decl, rule, place, act, acts)?;
        if let Some(cause) = found {
            return Ok(Some(cause));
        }
    }
    Ok(None)
}

/// Why one of these declarations fails the rule at the place, if one does.
fn cause_in_some(
    alloc: Global,
    p: &Prog,
    decls: &[Decl],
    rule: ERule,
    place: Place,
) -> Result<Option<RuleCause>, Memory>
    requires { All (DeclFits p.now) decls.now }
    ensures found { IfOk result (λ found. IfSome found (IsCauseOfSome p.now true rule place decls.now)) }
    ensures none { IfOk result (λ found. IfNone found (All (KeepsThere p.now rule place) decls.now)) }
{
    for decl in decls {
        let found = cause_within(alloc, p, decl, rule, place)?;
        if let Some(cause) = found {
            return Ok(Some(cause));
        }
    }
    Ok(None)
}

/// Whether the rule is for methods, and not for tasks.
fn is_of_methods(rule: ERule) -> bool
    ensures { result ≡ is_of_methods rule }
{
    match rule {
        ERule::E1 => false,
        ERule::E2 => false,
        ERule::E3 => false,
        ERule::E4 => false,
        ERule::E5 => false,
        ERule::E6 => false,
        ERule::E7 => false,
        ERule::E8 => true,
    }
}

/// The declarations that the rule is for.
fn decls_for(p: &Prog, rule: ERule) -> &[Decl]
    ensures { result.now ≡ decls_for p.now rule }
{
    if is_of_methods(rule) {
        p.methods.as_slice()
    } else {
        p.tasks.as_slice()
    }
}

/// Why the program fails the rule at the place, where it does, with a way if that speaks of a future. There is always a cause.
pub fn cause_at(alloc: Global, p: &Prog, rule: ERule, place: Place) -> Result<RuleCause, Memory>
    requires { FailsEffect p.now rule place }
    ensures { IfOk result (IsCause p.now true rule place) }
{
    let _main = p.main;
    let decls = decls_for(p, rule);
    let found = cause_in_some(alloc, p, decls, rule, place)?;
    match found {
        Some(cause) => Ok(cause),
        None => unreachable!(),
    }
}
