//! From an access that was found back to the method with which the search began.
ghost use Rattle.std.specs.Prelude.{◌≡◌, ◌+◌, ◌++◌, ℕ, IfOk, OnOk, length, option_to_list, slice_get};
ghost use Rattle.summary_comparing.specs.Placed.{all_bodies};
ghost use Rattle.summary_comparing.specs.Chains.{LeadsToNeed};
ghost use Rattle.summary_comparing.specs.inner.Search.{AreLinked, IsDeep, IsFoundAt, IsStarted};
ghost use Rattle.summary_comparing.specs.inner.Walking.{place_in_body, place_of_step};

use crate::bodies::{BodySteps, Places};
use crate::states::States;
use effect_infer::needs::Need;
use std::alloc::Global;
use twe_base::{Memory, Place, Stack};
use twe_program::Prog;

/// Puts the place of a step of the body before the places so far, if it is there.
fn push_place_in(back: &mut Stack<Place>, body: &BodySteps, step: usize) -> Result<(), Memory>
    ensures { OnOk result (back.new ≡ option_to_list (slice_get body.now.places step) ++ back.old) }
{
    match body.places.get(step) {
        None => Ok(()),
        Some(place) => back.push(*place),
    }
}

/// The same of a step of a method.
fn push_place_by(
    back: &mut Stack<Place>,
    bodies: &[BodySteps],
    method: u32,
    step: usize,
) -> Result<(), Memory>
    ensures { OnOk result (back.new ≡ option_to_list (place_in_body (slice_get bodies.now method) step) ++ back.old) }
{
    match bodies.get(method as usize) {
        None => Ok(()),
        Some(body) => push_place_in(back, body, step),
    }
}

/// The same of a step of the method of the state at this place.
fn push_place_of(
    back: &mut Stack<Place>,
    bodies: &[BodySteps],
    states: &States,
    at: usize,
    step: usize,
) -> Result<(), Memory>
    ensures { OnOk result (back.new
        ≡ option_to_list (place_of_step bodies.now (slice_get states.now at) step) ++ back.old) }
{
    match states.get(at) {
        None => Ok(()),
        Some(state) => push_place_by(back, bodies, state.method, step),
    }
}

/// The places of the calls from the method to an access that was found, and the place of the access. There is one for each call.
pub(crate) fn walk_up(
    alloc: Global,
    p: &Prog,
    bodies: &[BodySteps],
    method: u32,
    target: &Need,
    states: &States,
    at: usize,
    step: usize,
) -> Result<Places, Memory>
    requires all { bodies.now ≡ all_bodies p.now }
    requires started { IsStarted bodies.now method states.now }
    requires linked { AreLinked bodies.now target.now states.now }
    requires found { IsFoundAt bodies.now target.now states.now at step }
    ensures leads { IfOk result (LeadsToNeed p.now method target.now) }
    ensures many { IfOk result (λ places. (depth : ℕ) → IsDeep states.now at depth → length places ≡ depth + 1) }
{
    let _ = p;
    let _ = method;
    let _ = target;
    let mut back = Stack::new(alloc);
    push_place_of(&mut back, bodies, states, at, step)?;
    let mut now = at;
    while now > 0 {
        let state = &states.as_slice()[now];
        let from = state.from;
        let call = state.step;
        push_place_of(&mut back, bodies, states, from, call)?;
        now = from;
    }
    Ok(back.into_list())
}
