//! The search through methods and what their parameters stand for.
ghost use Rattle.std.specs.Prelude.{◌≡◌, ◌<◌, ◌∷◌, [], length, Some, slice_get, IfNone, IfOk, IfSome, IsTrue, OnOk};
ghost use Rattle.effect_infer.specs.needs.Needs.{IsNeed};
ghost use Rattle.summary_comparing.specs.declared.states.SearchState.{SearchState as Named};
ghost use Rattle.summary_comparing.specs.Placed.{all_bodies};
ghost use Rattle.summary_comparing.specs.Chains.{IsShortestChain};
ghost use Rattle.summary_comparing.specs.inner.Standing.{same_value, same_values};
ghost use Rattle.summary_comparing.specs.inner.Search.{AreLinked, CallsListed, ComeInOrder, HasNoMatch, IsDoneWith, IsFirstFound, IsFoundAt, IsListed, IsMatchAt, IsStarted, IsStateAt, SearchEnds, StatesGrow};
ghost use Rattle.effect_infer.specs.declared.needs.need.BodyStep.TheVariants.{Call};

use crate::bodies::{BodySteps, Places};
use crate::seen::StatesSeen;
use crate::standing::{Values, callee_values, is_match, own_values, same_value};
use crate::states::{SearchState, States};
use crate::walk::walk_up;
use effect_infer::needs::{BodyStep, Need};
use region_paths::Elem;
use std::alloc::Global;
use twe_base::Memory;
use twe_program::Prog;

/// Whether the values are equal, one by one. Each call is for values fewer, of which a method has at most 4.
fn same_values(first: &[Option<Elem>], second: &[Option<Elem>]) -> bool
    ensures { result ≡ same_values first.now second.now }
{
    match (first.split_first(), second.split_first()) {
        (None, None) => true,
        (Some((value, values)), Some((other, others))) => {
            same_value(*value, *other) && same_values(values, others)
        }
        _ => false,
    }
}

/// Whether the values are equal.
fn are_equal_values(first: &[Option<Elem>], second: &[Option<Elem>]) -> bool
    ensures { IsTrue result → first.now ≡ second.now }
{
    same_values(first, second)
}

/// Whether this is a state of this method with these values.
fn is_state_of(state: &SearchState, method: u32, values: &Values) -> bool
    ensures { IsTrue result → (state.now.method ≡ method) × (state.now.values ≡ values.now) }
{
    state.method == method && are_equal_values(state.values.as_slice(), values.as_slice())
}

/// Whether the state at this place is one of this method with these values.
fn is_state(states: &States, place: usize, method: u32, values: &Values) -> bool
    ensures { IsTrue result → (state : Named) × (slice_get states.now place ≡ Some state)
        × (state.method ≡ method) × (state.values ≡ values.now) }
{
    match states.get(place) {
        None => false,
        Some(state) => is_state_of(state, method, values),
    }
}

/// Adds the state in which a method is called so by a step of the state at this place, unless it is among the states.
fn push_callee(
    states: &mut States,
    seen: &mut StatesSeen,
    alloc: Global,
    bodies: &[BodySteps],
    target: &Need,
    at: usize,
    values: &[Option<Elem>],
    steps: &[BodyStep],
    step: usize,
    callee: u32,
    args: &[Elem],
) -> Result<(), Memory>
    requires here { IsStateAt bodies.now states.old at values.now steps.now }
    requires called { slice_get steps.now step ≡ Some (Call callee args.now) }
    requires order { ComeInOrder states.old at }
    ensures grows { OnOk result (StatesGrow bodies.now target.now states.old states.new) }
    ensures order { OnOk result (ComeInOrder states.new at) }
    ensures listed { OnOk result (IsListed bodies.now target.now states.new at values.now callee args.now) }
{
    let _ = steps;
    let Some(body) = bodies.get(callee as usize) else {
        return Ok(());
    };
    let given = callee_values(alloc, values, target.elems.as_slice(), args, body.params)?;
    let place = seen.first_place(alloc, callee, given.as_slice(), states.len())?;
    if is_state(states, place, callee, &given) {
        return Ok(());
    }
    states.push(SearchState {
        method: callee,
        values: given,
        from: at,
        step,
    })
}

/// Adds the states in which the steps of the state at this place call methods.
fn push_callees(
    states: &mut States,
    seen: &mut StatesSeen,
    alloc: Global,
    bodies: &[BodySteps],
    target: &Need,
    at: usize,
    values: &[Option<Elem>],
    steps: &[BodyStep],
) -> Result<(), Memory>
    requires here { IsStateAt bodies.now states.old at values.now steps.now }
    requires order { ComeInOrder states.old at }
    ensures grows { OnOk result (StatesGrow bodies.now target.now states.old states.new) }
    ensures order { OnOk result (ComeInOrder states.new at) }
    ensures listed { OnOk result (CallsListed bodies.now target.now states.new at values.now steps.now (length steps.now)) }
{
    for (step, each) in steps.iter().enumerate() {
        match each {
            BodyStep::Touch(_) => {}
            BodyStep::Call { method, args } => push_callee(
                states,
                seen,
                alloc,
                bodies,
                target,
                at,
                values,
                steps,
                step,
                *method,
                args.as_slice(),
            )?,
        }
    }
    Ok(())
}

/// The number of the first step that is an access which stands for what is looked for.
fn matching_step(values: &[Option<Elem>], target: &Need, steps: &[BodyStep]) -> Option<usize>
    ensures found { IfSome result (IsMatchAt target.now values.now steps.now) }
    ensures none { IfNone result (HasNoMatch target.now values.now steps.now) }
{
    for (number, step) in steps.iter().enumerate() {
        if let BodyStep::Touch(need) = step
            && is_match(values, need, target)
        {
            return Some(number);
        }
    }
    None
}

/// Looks at the accesses of the state at this place. If none stands for what is looked for, the states are added in which its
/// method calls others.
fn look_at(
    states: &mut States,
    seen: &mut StatesSeen,
    alloc: Global,
    bodies: &[BodySteps],
    target: &Need,
    at: usize,
) -> Result<Option<usize>, Memory>
    requires inside { at < length states.old }
    requires order { ComeInOrder states.old at }
    ensures grows { OnOk result (StatesGrow bodies.now target.now states.old states.new) }
    ensures order { OnOk result (ComeInOrder states.new at) }
    ensures found { IfOk result (λ found. IfSome found (IsFoundAt bodies.now target.now states.new at)) }
    ensures none { IfOk result (λ found. IfNone found ((state : Named) → slice_get states.old at ≡ Some state
        → IsDoneWith bodies.now target.now states.new at state)) }
{
    let state = &states.as_slice()[at];
    let method = state.method;
    let values = state.values.copy(alloc)?;
    let Some(body) = bodies.get(method as usize) else {
        return Ok(None);
    };
    let steps = body.steps.as_slice();
    match matching_step(values.as_slice(), target, steps) {
        Some(step) => Ok(Some(step)),
        None => {
            push_callees(
                states,
                seen,
                alloc,
                bodies,
                target,
                at,
                values.as_slice(),
                steps,
            )?;
            Ok(None)
        }
    }
}

/// Looks at one state after the other, until an access stands for what is looked for, or no state is left. So the access that is
/// found is one to which fewest calls lead.
fn search(
    states: &mut States,
    alloc: Global,
    bodies: &[BodySteps],
    target: &Need,
) -> Result<Option<(usize, usize)>, Memory>
    requires { ComeInOrder states.old 0 }
    ensures grows { OnOk result (StatesGrow bodies.now target.now states.old states.new) }
    ensures ends { IfOk result (SearchEnds bodies.now target.now states.new) }
    ensures first { IfOk result (λ found. IfSome found (λ it. IsFirstFound bodies.now target.now states.new it.0)) }
{
    let mut seen = StatesSeen::new(alloc)?;
    for at in 0..u32::MAX as usize {
        if at >= states.len() {
            return Ok(None);
        }
        let found = look_at(states, &mut seen, alloc, bodies, target, at)?;
        if let Some(step) = found {
            return Ok(Some((at, step)));
        }
    }
    Err(Memory::of_uncountable(states.as_slice()))
}

/// The state of the method itself, with which the search begins.
fn start(
    alloc: Global,
    bodies: &[BodySteps],
    method: u32,
    body: &BodySteps,
) -> Result<States, Memory>
    requires { slice_get bodies.now method ≡ Some body.now }
    ensures started { IfOk result (IsStarted bodies.now method) }
    ensures one { IfOk result (λ states. length states ≡ 1) }
    ensures order { IfOk result (λ states. ComeInOrder states 0) }
{
    let _ = bodies;
    let mut states = States::new(alloc);
    states.push(SearchState {
        method,
        values: own_values(alloc, body.params)?,
        from: 0,
        step: 0,
    })?;
    Ok(states)
}

/// A shortest chain of calls that leads from the method to an access that is this need, as the places of the calls and of the
/// access. If there is none, the method does not need it.
pub fn find_chain(
    alloc: Global,
    p: &Prog,
    bodies: &[BodySteps],
    method: u32,
    target: &Need,
) -> Result<Option<Places>, Memory>
    requires { bodies.now ≡ all_bodies p.now }
    ensures found { IfOk result (λ found. IfSome found (IsShortestChain p.now method target.now)) }
    ensures none { IfOk result (λ found. IfNone found (¬ IsNeed p.now method target.now)) }
{
    let Some(body) = bodies.get(method as usize) else {
        return Ok(None);
    };
    let mut states = start(alloc, bodies, method, body)?;
    let found = search(&mut states, alloc, bodies, target)?;
    match found {
        None => Ok(None),
        Some((at, step)) => {
            let places = walk_up(alloc, p, bodies, method, target, &states, at, step)?;
            Ok(Some(places))
        }
    }
}
