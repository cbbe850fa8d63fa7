//! What the body of a declaration needs.
ghost use Rattle.std.specs.Prelude.{◌≡◌, ◌++◌, IfOk, OnOk, map, slice_get};
ghost use Rattle.std.specs.List.{flat_map};
ghost use Rattle.effect_infer.specs.needs.Needs.{effect_of};
ghost use Rattle.summary_comparing.specs.Needed.{body_needs, called_needs, child_needs, said_effect, said_needs, said_spawn, spawn_needs};
ghost use Rattle.summary_comparing.specs.inner.Differing.{HaveSame, numbered_needs};

use crate::differing::differing_steps;
use crate::said::said_effect;
use effect_check::{Act, ActKind, acts_of_body};
use effect_infer::needs::{BodyStep, Need, steps_of_body};
use effect_sets::{Effect, Effects, Summary};
use region_paths::{Elem, Elems, Path};
use std::alloc::Global;
use twe_base::Memory;
use twe_program::{Decl, Prog};

/// Appends these effects, as a declaration says them that has so many parameters.
fn push_said(
    needs: &mut Effects,
    alloc: Global,
    params: u32,
    effects: &[Effect],
) -> Result<(), Memory>
    ensures { OnOk result (needs.new ≡ needs.old ++ map (said_effect params) effects.now) }
{
    for effect in effects {
        needs.push(said_effect(alloc, effect, params)?)?;
    }
    Ok(())
}

/// A read or a write, as an effect.
pub(crate) fn touched(alloc: Global, need: &Need) -> Result<Effect, Memory>
    ensures { IfOk result (λ effect. effect ≡ effect_of need.now) }
{
    let elems = need.elems.copy(alloc)?;
    let path = Path::new(elems, false, Elems::new(alloc));
    Ok(Effect {
        write: need.write,
        path,
    })
}

/// What a call of a method needs, if the methods have these summaries.
fn called_needs(
    alloc: Global,
    summaries: &[Summary],
    method: u32,
    args: &[Elem],
) -> Result<Effects, Memory>
    ensures { IfOk result (λ effects. effects ≡ called_needs (slice_get summaries.now method) args.now) }
{
    match summaries.get(method as usize) {
        None => Ok(Effects::new(alloc)),
        Some(summary) => {
            let Summary { effects } = summary.fill(alloc, args)?;
            Ok(effects)
        }
    }
}

/// Appends what a step needs, if the methods have these summaries.
fn push_step(
    needs: &mut Effects,
    alloc: Global,
    summaries: &[Summary],
    params: u32,
    step: &BodyStep,
) -> Result<(), Memory>
    ensures { OnOk result (needs.new ≡ needs.old ++ said_needs summaries.now params step.now) }
{
    match step {
        BodyStep::Touch(need) => {
            let effect = touched(alloc, need)?;
            needs.push(said_effect(alloc, &effect, params)?)
        }
        BodyStep::Call { method, args } => {
            let called = called_needs(alloc, summaries, *method, args.as_slice())?;
            push_said(needs, alloc, params, called.as_slice())
        }
    }
}

/// Appends what the step with this number needs, if there is one.
fn push_numbered(
    needs: &mut Effects,
    alloc: Global,
    summaries: &[Summary],
    params: u32,
    steps: &[BodyStep],
    number: usize,
) -> Result<(), Memory>
    ensures { OnOk result (needs.new ≡ needs.old ++ numbered_needs summaries.now params steps.now number) }
{
    match steps.get(number) {
        None => Ok(()),
        Some(step) => push_step(needs, alloc, summaries, params, step),
    }
}

/// What each of the steps with these numbers needs.
fn steps_needs(
    alloc: Global,
    summaries: &[Summary],
    params: u32,
    steps: &[BodyStep],
    numbers: &[usize],
) -> Result<Effects, Memory>
    ensures { IfOk result (λ needs. needs ≡ flat_map (numbered_needs summaries.now params steps.now) numbers.now) }
{
    let mut needs = Effects::new(alloc);
    for number in numbers {
        push_numbered(&mut needs, alloc, summaries, params, steps, *number)?;
    }
    Ok(needs)
}

/// What the body of the declaration reads and writes, and what the methods need that it calls, of which these are the summaries.
/// What equal calls need is there once.
pub(crate) fn body_needs(
    alloc: Global,
    p: &Prog,
    summaries: &[Summary],
    decl: &Decl,
) -> Result<Effects, Memory>
    ensures { IfOk result (λ needs. HaveSame needs (body_needs p.now summaries.now decl.now)) }
{
    let steps = steps_of_body(alloc, p.cells.as_slice(), &decl.body.block)?;
    let numbers = differing_steps(alloc, steps.as_slice())?;
    let numbers = numbers.as_slice();
    steps_needs(alloc, summaries, decl.params, steps.as_slice(), numbers)
}

/// Appends what an act needs, if it is a spawn.
pub(crate) fn push_spawn(
    needs: &mut Effects,
    alloc: Global,
    params: u32,
    act: &Act,
) -> Result<(), Memory>
    ensures { OnOk result (needs.new ≡ needs.old ++ said_spawn params act.now) }
{
    match &act.kind {
        ActKind::Make {
            spawned: true,
            effects,
            ..
        } => push_said(needs, alloc, params, effects.effects.as_slice()),
        ActKind::Make { spawned: false, .. } => Ok(()),
        ActKind::Touch { .. } => Ok(()),
        ActKind::Call { .. } => Ok(()),
        ActKind::Wait { .. } => Ok(()),
    }
}

/// What the spawns among these acts need.
fn spawns_needs(alloc: Global, params: u32, acts: &[Act]) -> Result<Effects, Memory>
    ensures { IfOk result (λ needs. needs ≡ flat_map (said_spawn params) acts.now) }
{
    let mut needs = Effects::new(alloc);
    for act in acts {
        push_spawn(&mut needs, alloc, params, act)?;
    }
    Ok(needs)
}

/// What the tasks declare that the body of the declaration spawns.
pub(crate) fn child_needs(alloc: Global, p: &Prog, decl: &Decl) -> Result<Effects, Memory>
    ensures { IfOk result (λ needs. needs ≡ child_needs p.now decl.now) }
{
    let acts = acts_of_body(alloc, p, &decl.body.block)?;
    spawns_needs(alloc, decl.params, acts.as_slice())
}
