//! Chains of calls that lead from a declaration to what it needs.
ghost use Rattle.std.specs.Prelude.{◌≡◌, ◌∷◌, [], Some, Contains, IfNone, IfOk, IfSome, map, slice_get};
ghost use Rattle.effect_sets.specs.Filled.{fill_effect};
ghost use Rattle.effect_infer.specs.declared.needs.need.Need.{Need as Named};
ghost use Rattle.effect_infer.specs.declared.needs.need.BodyStep.TheVariants.{Call};
ghost use Rattle.effect_infer.specs.needs.Needs.{IsNeed, effect_of};
ghost use Rattle.summary_comparing.specs.Chains.{IsShortestChain};
ghost use Rattle.effect_sets.specs.declared.effects.Effect.{Effect as WideEffect};
ghost use Rattle.effect_check.specs.Acts.{acts_in_all};
ghost use Rattle.effect_infer.specs.needs.Steps.{steps_in_all};
ghost use Rattle.summary_comparing.specs.Placed.{all_bodies, step_places};
ghost use Rattle.summary_comparing.specs.Needed.{body_needs, called_needs, said_effect, said_needs};
ghost use Rattle.summary_comparing.specs.inner.Differing.{HasEach, numbered_needs};
ghost use Rattle.summary_comparing.specs.Chained.{AreEach, IsCallChain, IsNeedChain, IsStepChain, chain_to_access};

use crate::bodies::{BodySteps, Places, body_of};
use crate::differing::differing_steps;
use crate::search::find_chain;
use crate::sources::{effects_before, steps_before};
use effect_infer::needs::{BodyStep, Need};
use effect_sets::{Effect, Summary};
use region_paths::Elem;
use std::alloc::Global;
use twe_base::{List, Memory, Place};
use twe_program::{Decl, Prog};

/// The places of calls that lead from a declaration to what it needs.
#[derive(Debug, Drop)]
pub struct NeedChain {
    /// The places of the calls, and last that of the access.
    pub places: Places,
    /// Whether the last place is a call too, of a method that only declares it.
    pub declared: bool,
}

/// Chains in the order of what is needed.
pub(crate) type NeedChains = List<NeedChain>;

/// The effect as the need of a body, if it can be one.
fn need_of(alloc: Global, its: &Effect) -> Result<Option<Need>, Memory>
    ensures some { IfOk result (λ found. IfSome found (λ need. its.now ≡ effect_of need)) }
    ensures none { IfOk result (λ found. IfNone found ((need : Named) → ¬ (its.now ≡ effect_of need))) }
{
    if its.path.star() || !its.path.tail().is_empty() {
        return Ok(None);
    }
    let elems = its.path.elems().copy(alloc)?;
    Ok(Some(Need {
        write: its.write,
        elems,
    }))
}

/// A shortest chain of calls that leads from the method to an access that is this effect, if the method needs it.
fn method_chain(
    alloc: Global,
    p: &Prog,
    bodies: &[BodySteps],
    method: u32,
    its: &Effect,
) -> Result<Option<Places>, Memory>
    requires { bodies.now ≡ all_bodies p.now }
    ensures some { IfOk result (λ found. IfSome found (λ places. (need : Named) × (its.now ≡ effect_of need)
        × IsShortestChain p.now method need places)) }
    ensures none { IfOk result (λ found. IfNone found ((need : Named) → its.now ≡ effect_of need
        → ¬ IsNeed p.now method need)) }
{
    match need_of(alloc, its)? {
        None => Ok(None),
        Some(need) => find_chain(alloc, p, bodies, method, &need),
    }
}

/// A chain that has this place alone.
fn single_chain(alloc: Global, place: Place, declared: bool) -> Result<NeedChain, Memory>
    ensures { IfOk result (λ chain. chain ≡ record { places = place ∷ []; declared = declared }) }
{
    let mut places = Places::new(alloc);
    places.push(place)?;
    Ok(NeedChain { places, declared })
}

/// A chain that ends with an access, by this place and those after it.
fn access_chain(alloc: Global, place: Place, after: &[Place]) -> Result<NeedChain, Memory>
    ensures { IfOk result (λ chain. chain ≡ chain_to_access (place ∷ after.now)) }
{
    let mut places = Places::new(alloc);
    places.push(place)?;
    places.push_all(after)?;
    Ok(NeedChain {
        places,
        declared: false,
    })
}

/// A chain from a call at this place of the method to an effect of that method.
fn call_chain(
    alloc: Global,
    p: &Prog,
    bodies: &[BodySteps],
    method: u32,
    its: &Effect,
    place: Place,
) -> Result<NeedChain, Memory>
    requires { bodies.now ≡ all_bodies p.now }
    ensures { IfOk result (IsCallChain p.now method its.now place) }
{
    let found = method_chain(alloc, p, bodies, method, its)?;
    match found {
        None => single_chain(alloc, place, true),
        Some(places) => access_chain(alloc, place, places.as_slice()),
    }
}

/// A chain from a call of the method with this summary to an effect that the call needs.
fn summary_chain(
    alloc: Global,
    p: &Prog,
    bodies: &[BodySteps],
    summaries: &[Summary],
    params: u32,
    method: u32,
    args: &[Elem],
    summary: &Summary,
    effect: &Effect,
    place: Place,
) -> Result<NeedChain, Memory>
    requires all { bodies.now ≡ all_bodies p.now }
    requires its { slice_get summaries.now method ≡ Some summary.now }
    requires there { Contains (map (said_effect params) (map (fill_effect args.now) summary.now.effects)) effect.now }
    ensures { IfOk result (IsStepChain p.now summaries.now params effect.now place (Call method args.now)) }
{
    let _ = summaries;
    let effects = summary.effects.as_slice();
    let at = effects_before(params, args, effects, effect);
    match effects.get(at) {
        None => single_chain(alloc, place, true),
        Some(its) => call_chain(alloc, p, bodies, method, its, place),
    }
}

/// A chain from a call of a method to an effect that the call needs.
fn called_chain(
    alloc: Global,
    p: &Prog,
    bodies: &[BodySteps],
    summaries: &[Summary],
    params: u32,
    method: u32,
    args: &[Elem],
    effect: &Effect,
    place: Place,
) -> Result<NeedChain, Memory>
    requires all { bodies.now ≡ all_bodies p.now }
    requires there { Contains (map (said_effect params) (called_needs (slice_get summaries.now method) args.now))
        effect.now }
    ensures { IfOk result (IsStepChain p.now summaries.now params effect.now place (Call method args.now)) }
{
    match summaries.get(method as usize) {
        None => single_chain(alloc, place, true),
        Some(summary) => summary_chain(
            alloc, p, bodies, summaries, params, method, args, summary, effect, place,
        ),
    }
}

/// A chain from a step of a body to an effect that the step needs.
fn step_chain(
    alloc: Global,
    p: &Prog,
    bodies: &[BodySteps],
    summaries: &[Summary],
    params: u32,
    step: &BodyStep,
    effect: &Effect,
    place: Place,
) -> Result<NeedChain, Memory>
    requires all { bodies.now ≡ all_bodies p.now }
    requires there { Contains (said_needs summaries.now params step.now) effect.now }
    ensures { IfOk result (IsStepChain p.now summaries.now params effect.now place step.now) }
{
    match step {
        BodyStep::Touch(_) => single_chain(alloc, place, false),
        BodyStep::Call { method, args } => called_chain(
            alloc,
            p,
            bodies,
            summaries,
            params,
            *method,
            args.as_slice(),
            effect,
            place,
        ),
    }
}

/// A chain from a step of the body of the declaration, at the place with its number.
fn placed_chain(
    alloc: Global,
    p: &Prog,
    bodies: &[BodySteps],
    summaries: &[Summary],
    decl: &Decl,
    places: &[Place],
    at: usize,
    step: &BodyStep,
    effect: &Effect,
) -> Result<NeedChain, Memory>
    requires all { bodies.now ≡ all_bodies p.now }
    requires its { places.now ≡ step_places (acts_in_all p.now decl.now.body.block) }
    requires step { slice_get (steps_in_all p.now.cells decl.now.body.block) at ≡ Some step.now }
    requires there { Contains (said_needs summaries.now decl.now.params step.now) effect.now }
    ensures { IfOk result (IsNeedChain p.now summaries.now decl.now effect.now) }
{
    let params = decl.params;
    match places.get(at) {
        None => single_chain(alloc, decl.place, true),
        Some(place) => step_chain(alloc, p, bodies, summaries, params, step, effect, *place),
    }
}

/// The same, from the step with this number.
fn numbered_chain(
    alloc: Global,
    p: &Prog,
    bodies: &[BodySteps],
    summaries: &[Summary],
    decl: &Decl,
    steps: &[BodyStep],
    places: &[Place],
    number: usize,
    effect: &Effect,
) -> Result<NeedChain, Memory>
    requires all { bodies.now ≡ all_bodies p.now }
    requires steps { steps.now ≡ steps_in_all p.now.cells decl.now.body.block }
    requires its { places.now ≡ step_places (acts_in_all p.now decl.now.body.block) }
    requires there { Contains (numbered_needs summaries.now decl.now.params steps.now number) effect.now }
    ensures { IfOk result (IsNeedChain p.now summaries.now decl.now effect.now) }
{
    match steps.get(number) {
        None => single_chain(alloc, decl.place, true),
        Some(step) => placed_chain(
            alloc, p, bodies, summaries, decl, places, number, step, effect,
        ),
    }
}

/// A chain from the body of the declaration, which accesses and calls this, to an effect that it needs. Each step has one of
/// these numbers, or an equal one has.
fn need_chain(
    alloc: Global,
    p: &Prog,
    bodies: &[BodySteps],
    summaries: &[Summary],
    decl: &Decl,
    steps: &[BodyStep],
    numbers: &[usize],
    places: &[Place],
    effect: &Effect,
) -> Result<NeedChain, Memory>
    requires all { bodies.now ≡ all_bodies p.now }
    requires steps { steps.now ≡ steps_in_all p.now.cells decl.now.body.block }
    requires each { HasEach steps.now numbers.now }
    requires its { places.now ≡ step_places (acts_in_all p.now decl.now.body.block) }
    requires needed { Contains (body_needs p.now summaries.now decl.now) effect.now }
    ensures { IfOk result (IsNeedChain p.now summaries.now decl.now effect.now) }
{
    let at = steps_before(alloc, summaries, decl.params, steps, numbers, effect)?;
    match numbers.get(at) {
        None => single_chain(alloc, decl.place, true),
        Some(number) => numbered_chain(
            alloc, p, bodies, summaries, decl, steps, places, *number, effect,
        ),
    }
}

/// A chain from the body of the declaration to each of these effects, all of which it needs.
pub(crate) fn chains_of(
    alloc: Global,
    p: &Prog,
    bodies: &[BodySteps],
    summaries: &[Summary],
    decl: &Decl,
    effects: &[Effect],
) -> Result<NeedChains, Memory>
    requires all { bodies.now ≡ all_bodies p.now }
    requires needed { (effect : WideEffect) → Contains effects.now effect
        → Contains (body_needs p.now summaries.now decl.now) effect }
    ensures { IfOk result (AreEach (IsNeedChain p.now summaries.now decl.now) effects.now) }
{
    let body = body_of(alloc, p, decl)?;
    let steps = body.steps.as_slice();
    let places = body.places.as_slice();
    let numbers = differing_steps(alloc, steps)?;
    let numbers = numbers.as_slice();
    let mut chains = NeedChains::new(alloc);
    for effect in effects {
        let chain = need_chain(
            alloc, p, bodies, summaries, decl, steps, numbers, places, effect,
        )?;
        chains.push(chain)?;
    }
    Ok(chains)
}
