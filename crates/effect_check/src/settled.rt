//! Failures that can't become the first one, since another at an earlier place was reported.
ghost use Rattle.std.specs.Prelude.{◌≡◌, not};
ghost use Rattle.twe_base.specs.First.{failure_if};
ghost use Rattle.effect_check.specs.inner.Failures.{HasMarks, all_free, first_from, free, is_settled};

use crate::cover::{are_free, is_free};
use crate::futures::Futures;
use crate::rule::ERule;
use effect_sets::{Effect, Summary};
use twe_base::{Failure, Place, report_if};

/// Reports the rule at the place if a spawned task that may be out at the point interferes with the effect. It looks at
/// no spawned task if that would change nothing.
#[inline(always)]
pub fn report_effect(
    first: &mut Option<Failure<ERule>>,
    futures: &Futures,
    point: u32,
    effect: &Effect,
    rule: ERule,
    place: Place,
)
    requires { HasMarks futures.now }
    ensures { first.new ≡ first_from first.old (failure_if (not (free futures.now point effect.now)) rule place) }
{
    if !is_settled(*first, place) {
        let free = is_free(futures, point, effect);
        report_if(first, !free, rule, place);
    }
}

/// The same for several effects: it reports the rule if one of them is not free.
#[inline(always)]
pub fn report_effects(
    first: &mut Option<Failure<ERule>>,
    futures: &Futures,
    point: u32,
    effects: &Summary,
    rule: ERule,
    place: Place,
)
    requires { HasMarks futures.now }
    ensures { first.new ≡ first_from first.old (failure_if (not (all_free futures.now point effects.now)) rule place) }
{
    if !is_settled(*first, place) {
        let free = are_free(futures, point, effects);
        report_if(first, !free, rule, place);
    }
}

/// Whether the first failure so far is at an earlier place.
#[inline(always)]
fn is_settled(first: Option<Failure<ERule>>, place: Place) -> bool
    ensures { result ≡ is_settled first place }
{
    match first {
        None => false,
        Some(Failure { place: earlier, .. }) => {
            earlier.line < place.line || earlier.line == place.line && earlier.col < place.col
        }
    }
}
