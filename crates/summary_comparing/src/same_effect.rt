//! Equal effects.
ghost use Rattle.std.specs.Prelude.{◌≡◌};
ghost use Rattle.summary_comparing.specs.inner.SameEffects.{same_effect, same_elems, same_path};

use crate::standing::{same_elem, same_truth};
use effect_sets::Effect;
use region_paths::{Elem, Path};

/// Whether the elements are equal, one by one. Each call is for elements fewer, of which a path has at most 32.
pub(crate) fn are_same_elems(first: &[Elem], second: &[Elem]) -> bool
    ensures { result ≡ same_elems first.now second.now }
{
    match (first.split_first(), second.split_first()) {
        (None, None) => true,
        (Some((elem, elems)), Some((other, others))) => {
            same_elem(*elem, *other) && are_same_elems(elems, others)
        }
        _ => false,
    }
}

/// Whether the paths are equal.
fn is_same_path(first: &Path, second: &Path) -> bool
    ensures { result ≡ same_path first.now second.now }
{
    are_same_elems(first.elems().as_slice(), second.elems().as_slice())
        && same_truth(first.star(), second.star())
        && are_same_elems(first.tail().as_slice(), second.tail().as_slice())
}

/// Whether the effects are equal.
pub(crate) fn is_same_effect(first: &Effect, second: &Effect) -> bool
    ensures { result ≡ same_effect first.now second.now }
{
    same_truth(first.write, second.write) && is_same_path(&first.path, &second.path)
}
