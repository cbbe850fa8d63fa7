//! The steps of a body, of equal calls the first.
ghost use Rattle.std.specs.Prelude.{◌≡◌, ◌<◌, ℕ, IfOk, IsTrue, Some, slice_get};
ghost use Rattle.effect_infer.specs.declared.needs.need.BodyStep.TheVariants.{Call};
ghost use Rattle.summary_comparing.specs.inner.Differing.{HasEach};

use crate::first_calls::FirstCalls;
use crate::same_effect::are_same_elems;
use effect_infer::needs::BodyStep;
use region_paths::Elem;
use std::alloc::Global;
use twe_base::{List, Memory};

/// Numbers of steps.
pub(crate) type StepNumbers = List<usize>;

/// Whether the step is this call.
fn is_call(step: &BodyStep, method: u32, args: &[Elem]) -> bool
    ensures { IsTrue result → step.now ≡ Call method args.now }
{
    match step {
        BodyStep::Touch(_) => false,
        BodyStep::Call {
            method: its,
            args: elems,
        } => *its == method && are_same_elems(elems.as_slice(), args),
    }
}

/// Whether this call is the step `first`, which stands before the step `number`.
fn stands_before(
    steps: &[BodyStep],
    first: usize,
    number: usize,
    method: u32,
    args: &[Elem],
) -> bool
    ensures { IsTrue result → (first < number) × (slice_get steps.now first ≡ Some (Call method args.now)) }
{
    match steps.get(first) {
        None => false,
        Some(step) => first < number && is_call(step, method, args),
    }
}

/// Whether the step with this number is known as a call that stands before it too.
fn is_again(
    alloc: Global,
    seen: &mut FirstCalls,
    steps: &[BodyStep],
    number: usize,
    step: &BodyStep,
) -> Result<bool, Memory>
    ensures { IfOk result (λ again. IsTrue again
        → (same : ℕ) × (same < number) × (slice_get steps.now same ≡ Some step.now)) }
{
    match step {
        BodyStep::Touch(_) => Ok(false),
        BodyStep::Call { method, args } => {
            let args = args.as_slice();
            let first = seen.first_number(alloc, *method, args, number)?;
            Ok(stands_before(steps, first, number, *method, args))
        }
    }
}

/// The numbers of the steps, of equal calls that of the first.
pub(crate) fn differing_steps(alloc: Global, steps: &[BodyStep]) -> Result<StepNumbers, Memory>
    ensures { IfOk result (HasEach steps.now) }
{
    let mut numbers = StepNumbers::new(alloc);
    let mut seen = FirstCalls::new(alloc)?;
    for (number, step) in steps.iter().enumerate() {
        if !is_again(alloc, &mut seen, steps, number, step)? {
            numbers.push(number)?;
        }
    }
    Ok(numbers)
}
