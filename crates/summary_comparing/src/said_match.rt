//! Whether an effect of a called method comes to one that the caller says, without memory of its own.
ghost use Rattle.std.specs.Prelude.{◌≡◌, map};
ghost use Rattle.region_paths.specs.Filled.{fill_elem};
ghost use Rattle.effect_sets.specs.Filled.{fill_effect};
ghost use Rattle.effect_infer.specs.needs.Needs.{settled_elem};
ghost use Rattle.summary_comparing.specs.Needed.{said_effect};
ghost use Rattle.summary_comparing.specs.inner.SameEffects.{same_effect, same_elems};
ghost use Rattle.summary_comparing.specs.inner.Sources.{has_effect};

use crate::said::said_elem;
use crate::standing::{same_elem, same_truth};
use effect_sets::Effect;
use region_paths::{Elem, fill_one};

/// Whether the elements, with these arguments, are said as others. Each call is for elements fewer, of which a path has at most
/// 32.
fn are_said_as(params: u32, args: &[Elem], elems: &[Elem], others: &[Elem]) -> bool
    ensures { result ≡ same_elems (map (settled_elem params) (map (fill_elem args.now) elems.now)) others.now }
{
    match (elems.split_first(), others.split_first()) {
        (None, None) => true,
        (Some((elem, rest)), Some((other, more))) => {
            same_elem(said_elem(fill_one(*elem, args), params), *other)
                && are_said_as(params, args, rest, more)
        }
        _ => false,
    }
}

/// Whether an effect of a called method is this one, as the caller says it.
pub(crate) fn is_said_as(params: u32, args: &[Elem], its: &Effect, effect: &Effect) -> bool
    ensures { result ≡ same_effect (said_effect params (fill_effect args.now its.now)) effect.now }
{
    let elems = its.path.elems().as_slice();
    let tail = its.path.tail().as_slice();
    same_truth(its.write, effect.write)
        && are_said_as(params, args, elems, effect.path.elems().as_slice())
        && same_truth(its.path.star(), effect.path.star())
        && are_said_as(params, args, tail, effect.path.tail().as_slice())
}

/// Whether one of the effects of a called method is this one, as the caller says it.
pub(crate) fn some_is_said_as(
    params: u32,
    args: &[Elem],
    effects: &[Effect],
    effect: &Effect,
) -> bool
    ensures { result ≡ has_effect (map (said_effect params) (map (fill_effect args.now) effects.now)) effect.now }
{
    for its in effects {
        if is_said_as(params, args, its, effect) {
            return true;
        }
    }
    false
}
