//! Adds a need to those that were found, unless it is met without.
ghost use Rattle.std.specs.Prelude.{◌≡◌, IsTrue, OnOk};
ghost use Rattle.effect_infer.specs.Covered.{SummaryGrows, IsCovered};

use crate::crowd::is_crowded;
use crate::found::{AllFound, FoundNeed};
use crate::index::Index;
use crate::widen::widens;
use std::alloc::Global;
use twe_base::Memory;

/// Whether the need that stands at this place is of the same method and covers the need.
fn is_covered_at(all: &AllFound, place: Option<usize>, found: &FoundNeed) -> bool
    ensures { IsTrue result → IsCovered all.now found.now }
{
    let Some(place) = place else {
        return false;
    };
    match all.get(place) {
        None => false,
        Some(other) => other.method == found.method && widens(&other.need, &found.need),
    }
}

/// Adds a need of a method, unless one that was found covers it, or whatever covers what was found with few effects does.
pub(crate) fn add(
    all: &mut AllFound,
    index: &mut Index,
    alloc: Global,
    found: FoundNeed,
) -> Result<(), Memory>
    ensures { OnOk result (SummaryGrows all.old all.new (λ need. need ≡ found)) }
{
    let numbers = index.numbers(alloc, &found)?;
    let place = index.covering(&found, numbers);
    if is_covered_at(all, place, &found) {
        return Ok(());
    }
    let crowded = is_crowded(all, alloc, index.crowd(&found, numbers), &found)?;
    if crowded {
        return Ok(());
    }
    index.note(alloc, &found, numbers, all.len())?;
    all.push(found)
}
