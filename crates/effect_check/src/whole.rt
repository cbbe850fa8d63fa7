//! The check of a program.
ghost use Rattle.std.specs.Prelude.{IfErr, IfOk, OnOk};
ghost use Rattle.twe_base.specs.declared.place.Place.{Place};
ghost use Rattle.effect_check.specs.declared.rule.ERule.{ERule as Named};
ghost use Rattle.effect_check.specs.FailsEffect.{FailsEffect, CheckHasCause};
ghost use Rattle.effect_check.specs.inner.First.{IsFirstOf, FailsInTask, FailsInBody};

use crate::judge::{judge_method, judge_task};
use crate::rule::{CheckFail, ERule};
use std::alloc::Global;
use twe_base::{Failure, Memory};
use twe_program::Prog;

/// The first failure of the tasks.
fn first_in_tasks(alloc: Global, p: &Prog) -> Result<Option<Failure<ERule>>, Memory>
    ensures { IfOk result (IsFirstOf (FailsInTask p.now)) }
{
    let mut first = None;
    for task in p.tasks.as_slice() {
        judge_task(alloc, p, task, &mut first)?;
    }
    Ok(first)
}

/// The first failure of all bodies.
fn first_failure(alloc: Global, p: &Prog) -> Result<Option<Failure<ERule>>, Memory>
    ensures { IfOk result (IsFirstOf (FailsInBody p.now)) }
{
    let mut first = first_in_tasks(alloc, p)?;
    for method in p.methods.as_slice() {
        judge_method(alloc, p, method, &mut first)?;
    }
    Ok(first)
}

/// Checks that the program keeps the rules on effects. It is Ok exactly if no rule fails. Otherwise, if memory suffices, it
/// returns the failure that comes first in the text, and at one place the one with the lowest number.
pub fn check(alloc: Global, p: &Prog) -> Result<(), CheckFail>
    ensures accepted { OnOk result ((rule : Named) (place : Place) → ¬ FailsEffect p.now rule place) }
    ensures refused { IfErr result (CheckHasCause p.now) }
{
    match first_failure(alloc, p)? {
        None => Ok(()),
        Some(Failure { rule, place }) => Err(CheckFail::Rule { rule, place }),
    }
}
