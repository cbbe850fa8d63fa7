//! Where an effect comes from that a body needs.
ghost use Rattle.std.specs.Prelude.{◌≡◌, IfOk, map, slice_get};
ghost use Rattle.effect_infer.specs.needs.Needs.{effect_of};
ghost use Rattle.summary_comparing.specs.Needed.{called_needs, said_effect, said_needs, said_spawn};
ghost use Rattle.summary_comparing.specs.inner.Differing.{numbered_needs};
ghost use Rattle.summary_comparing.specs.inner.SameEffects.{same_effect};
ghost use Rattle.summary_comparing.specs.inner.Sources.{acts_before, effects_before, has_effect, steps_before};

use crate::needed::{push_spawn, touched};
use crate::said::said_effect;
use crate::said_match::{is_said_as, some_is_said_as};
use crate::same_effect::is_same_effect;
use effect_check::Act;
use effect_infer::needs::{BodyStep, Need};
use effect_sets::{Effect, Effects, Summary};
use region_paths::Elem;
use std::alloc::Global;
use twe_base::Memory;

/// Whether the effect is one of these.
fn has_effect(effects: &[Effect], effect: &Effect) -> bool
    ensures { result ≡ has_effect effects.now effect.now }
{
    effects.iter().any(|other| is_same_effect(other, effect))
}

/// Whether a read or a write is the effect, as a declaration says it that has so many parameters.
fn touch_needs_it(alloc: Global, params: u32, need: &Need, effect: &Effect) -> Result<bool, Memory>
    ensures { IfOk result (λ needs. needs ≡ same_effect (said_effect params (effect_of need.now)) effect.now) }
{
    let its = touched(alloc, need)?;
    let said = said_effect(alloc, &its, params)?;
    Ok(is_same_effect(&said, effect))
}

/// Whether a call of a method needs the effect, if the methods have these summaries.
fn call_needs_it(
    summaries: &[Summary],
    params: u32,
    method: u32,
    args: &[Elem],
    effect: &Effect,
) -> bool
    ensures { result ≡ has_effect (map (said_effect params) (called_needs (slice_get summaries.now method) args.now))
        effect.now }
{
    match summaries.get(method as usize) {
        None => false,
        Some(summary) => some_is_said_as(params, args, summary.effects.as_slice(), effect),
    }
}

/// Whether the step needs the effect, if the methods have these summaries.
fn step_needs_it(
    alloc: Global,
    summaries: &[Summary],
    params: u32,
    step: &BodyStep,
    effect: &Effect,
) -> Result<bool, Memory>
    ensures { IfOk result (λ needs. needs ≡ has_effect (said_needs summaries.now params step.now) effect.now) }
{
    match step {
        BodyStep::Touch(need) => touch_needs_it(alloc, params, need, effect),
        BodyStep::Call { method, args } => Ok(call_needs_it(
            summaries,
            params,
            *method,
            args.as_slice(),
            effect,
        )),
    }
}

/// Whether there is a step with this number, and it needs the effect.
fn numbered_needs_it(
    alloc: Global,
    summaries: &[Summary],
    params: u32,
    steps: &[BodyStep],
    number: usize,
    effect: &Effect,
) -> Result<bool, Memory>
    ensures { IfOk result (λ needs. needs
        ≡ has_effect (numbered_needs summaries.now params steps.now number) effect.now) }
{
    match steps.get(number) {
        None => Ok(false),
        Some(step) => step_needs_it(alloc, summaries, params, step, effect),
    }
}

/// How many of the numbers stand before the first whose step needs the effect.
pub(crate) fn steps_before(
    alloc: Global,
    summaries: &[Summary],
    params: u32,
    steps: &[BodyStep],
    numbers: &[usize],
    effect: &Effect,
) -> Result<usize, Memory>
    ensures { IfOk result (λ count. count ≡ steps_before summaries.now params steps.now numbers.now effect.now) }
{
    for (at, number) in numbers.iter().enumerate() {
        if numbered_needs_it(alloc, summaries, params, steps, *number, effect)? {
            return Ok(at);
        }
    }
    Ok(numbers.len())
}

/// How many effects of a called method stand before the first that is this one, as the caller says it.
pub(crate) fn effects_before(
    params: u32,
    args: &[Elem],
    effects: &[Effect],
    effect: &Effect,
) -> usize
    ensures { result ≡ effects_before params args.now effects.now effect.now }
{
    for (at, its) in effects.iter().enumerate() {
        if is_said_as(params, args, its, effect) {
            return at;
        }
    }
    effects.len()
}

/// Whether the act is a spawn that needs the effect.
fn act_needs_it(alloc: Global, params: u32, act: &Act, effect: &Effect) -> Result<bool, Memory>
    ensures { IfOk result (λ needs. needs ≡ has_effect (said_spawn params act.now) effect.now) }
{
    let mut needs = Effects::new(alloc);
    push_spawn(&mut needs, alloc, params, act)?;
    Ok(has_effect(needs.as_slice(), effect))
}

/// How many acts stand before the first that is a spawn which needs the effect.
pub(crate) fn acts_before(
    alloc: Global,
    params: u32,
    acts: &[Act],
    effect: &Effect,
) -> Result<usize, Memory>
    ensures { IfOk result (λ count. count ≡ acts_before params acts.now effect.now) }
{
    for (at, act) in acts.iter().enumerate() {
        if act_needs_it(alloc, params, act, effect)? {
            return Ok(at);
        }
    }
    Ok(acts.len())
}
