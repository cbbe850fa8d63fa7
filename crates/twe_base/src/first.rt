//! The first of several failures.
ghost use Rattle.std.specs.Prelude.{◌≡◌};
ghost use Rattle.twe_base.specs.First.{earlier, failure_if, first_from, is_before};

use crate::Place;
use crate::failure::{Failure, Rule};

/// Whether the first failure comes before the second: at an earlier place, or at the same one with a lower number.
fn is_before<R: Rule>(a: Failure<R>, b: Failure<R>) -> bool
    ensures { result ≡ is_before R.number_of a b }
{
    let (one, other) = (a.place, b.place);
    one.line < other.line
        || one.line == other.line
            && (one.col < other.col || one.col == other.col && a.rule.number() < b.rule.number())
}

/// The one that comes first, of the first so far and another. Of two that are equal it is the first so far.
fn earlier<R: Rule>(first: Option<Failure<R>>, other: Failure<R>) -> Option<Failure<R>>
    ensures { result ≡ earlier R.number_of first other }
{
    match first {
        Some(first) if !is_before(other, first) => Some(first),
        _ => Some(other),
    }
}

/// Reports the failure of the rule at the place if `fails` holds: it becomes the first one if it comes before the first
/// so far.
pub fn report_if<R: Rule>(first: &mut Option<Failure<R>>, fails: bool, rule: R, place: Place)
    ensures { first.new ≡ first_from R.number_of first.old (failure_if fails rule place) }
{
    if fails {
        *first = earlier(*first, Failure { rule, place });
    }
}
