//! All failures of the rules on effects, each with a cause.
ghost use Rattle.std.specs.Prelude.{◌≡◌, false, Contains, IfOk, OnOk};
ghost use Rattle.std.specs.List.{All};
ghost use Rattle.twe_base.specs.declared.place.Place.{Place as At};
ghost use Rattle.twe_program.specs.WellFormed.{DeclFits};
ghost use Rattle.effect_check.specs.declared.rule.ERule.{ERule as Named};
ghost use Rattle.effect_check.specs.declared.rule.ERule.TheVariants.{E8};
ghost use Rattle.refusal_causes.specs.Listing.{AreAllCauses};
ghost use Rattle.refusal_causes.specs.Seeking.{is_of_methods};
ghost use Rattle.refusal_causes.specs.inner.Found.{Grows, IsUnlisted};
ghost use Rattle.refusal_causes.specs.inner.Keeping.{KeepsThere};

use crate::alone::{note_all_alone, note_undeclared};
use crate::found::{CausedFailure, FoundFailures};
use crate::group::note_group;
use cover_flow::FUTURES_AT_ONCE;
use effect_check::acts_of_body;
use std::alloc::Global;
use twe_base::{List, Memory};
use twe_program::{Decl, Prog};

/// Notes what the task fails.
fn note_task(found: &mut FoundFailures, alloc: Global, p: &Prog, task: &Decl) -> Result<(), Memory>
    requires fits { DeclFits p.now task.now }
    requires inside { Contains p.now.tasks task.now }
    ensures grows { OnOk result (Grows p.now found.old found.new) }
    ensures kept { OnOk result ((rule : Named) (place : At) → is_of_methods rule ≡ false → IsUnlisted found.new rule place
        → KeepsThere p.now rule place task.now) }
{
    let done = acts_of_body(alloc, p, &task.body.block)?;
    let acts = done.as_slice();
    note_all_alone(found, alloc, p, task, acts)?;
    for group in 0..task.body.futures / FUTURES_AT_ONCE + 1 {
        note_group(found, alloc, p, task, acts, group * FUTURES_AT_ONCE)?;
    }
    Ok(())
}

/// Notes what the method fails.
fn note_method(
    found: &mut FoundFailures,
    alloc: Global,
    p: &Prog,
    method: &Decl,
) -> Result<(), Memory>
    requires inside { Contains p.now.methods method.now }
    ensures grows { OnOk result (Grows p.now found.old found.new) }
    ensures kept { OnOk result ((place : At) → IsUnlisted found.new E8 place → KeepsThere p.now E8 place method.now) }
{
    let done = acts_of_body(alloc, p, &method.body.block)?;
    for act in done.as_slice() {
        note_undeclared(found, alloc, p, method, true, act)?;
    }
    Ok(())
}

/// Notes what the tasks fail.
fn note_tasks(found: &mut FoundFailures, alloc: Global, p: &Prog) -> Result<(), Memory>
    ensures grows { OnOk result (Grows p.now found.old found.new) }
    ensures kept { OnOk result ((rule : Named) (place : At) → is_of_methods rule ≡ false → IsUnlisted found.new rule place
        → All (KeepsThere p.now rule place) p.now.tasks) }
{
    let _main = p.main;
    for task in p.tasks.as_slice() {
        note_task(found, alloc, p, task)?;
    }
    Ok(())
}

/// Notes what the methods fail.
fn note_methods(found: &mut FoundFailures, alloc: Global, p: &Prog) -> Result<(), Memory>
    ensures grows { OnOk result (Grows p.now found.old found.new) }
    ensures kept { OnOk result ((place : At) → IsUnlisted found.new E8 place
        → All (KeepsThere p.now E8 place) p.now.methods) }
{
    let _main = p.main;
    for method in p.methods.as_slice() {
        note_method(found, alloc, p, method)?;
    }
    Ok(())
}

/// Each rule on effects that the program fails, at each place where it does, with a cause, in the order of the text. No cause
/// has a way: the ways for all of them would take time by the square of the text's length.
pub fn all_causes(alloc: Global, p: &Prog) -> Result<List<CausedFailure>, Memory>
    ensures { IfOk result (AreAllCauses p.now) }
{
    let mut found = FoundFailures::new(alloc, p);
    note_tasks(&mut found, alloc, p)?;
    note_methods(&mut found, alloc, p)?;
    let failures = found.into_list(alloc)?;
    Ok(failures)
}
