//! Whether so many needs were found that whatever covers them with few effects covers one need more.
ghost use Rattle.std.specs.Prelude.{◌≡◌, IfOk, IfSome, IsTrue, zip};
ghost use Rattle.std.specs.List.{list_all, list_any};
ghost use Rattle.effect_infer.specs.Crowded.{AreWitnesses, IsCrowded, IsWitness, is_constant, is_constant_need};
ghost use Rattle.effect_infer.specs.Spread.{are_different, are_spread_out, elems_lead, elems_never_meet, is_no_name, leads_to, need_leads, never_meet};

use crate::found::{AllFound, FoundNeed};
use crate::index::MOST_NOTED;
use crate::keep::{Widest, rank};
use crate::needs::Need;
use crate::widen::copy;
use region_paths::{Elem, is_within};
use std::alloc::Global;
use twe_base::Memory;

/// Whether the element is an index of any kind.
fn is_no_name(elem: Elem) -> bool
    ensures { result ≡ is_no_name elem }
{
    match elem {
        Elem::Name(_) => false,
        Elem::Index(_) => true,
        Elem::Var(_) => true,
        Elem::AnyIndex => true,
    }
}

/// Whether no element is wide enough for both.
fn never_meets(first: Elem, second: Elem) -> bool
    ensures { result ≡ never_meet first second }
{
    !(is_no_name(first) && is_no_name(second)) && !is_within(first, second)
}

/// Whether the elements are different literals.
fn are_different(first: Elem, second: Elem) -> bool
    ensures { result ≡ are_different first second }
{
    match (first, second) {
        (Elem::Index(i), Elem::Index(j)) => i != j,
        _ => false,
    }
}

/// Whether an element that is wide enough for the first two is wide enough for the third.
fn leads(first: Elem, second: Elem, third: Elem) -> bool
    ensures { result ≡ leads_to first second third }
{
    is_within(third, first)
        || is_within(third, second)
        || (are_different(first, second) && is_within(third, Elem::AnyIndex))
}

/// Whether some position of both has elements such that none is wide enough for both.
fn some_never_meet(first: &[Elem], second: &[Elem]) -> bool
    ensures { result ≡ list_any (λ pair. never_meet pair.0 pair.1) (zip first.now second.now) }
{
    first.iter().zip(second).any(|(x, y)| never_meets(*x, *y))
}

/// Whether at each position an element that is wide enough for the first two is wide enough for the third.
fn all_lead(first: &[Elem], second: &[Elem], third: &[Elem]) -> bool
    ensures { result ≡ list_all (λ three. leads_to three.0.0 three.0.1 three.1) (zip (zip first.now second.now) third.now) }
{
    first
        .iter()
        .zip(second)
        .zip(third)
        .all(|((x, y), z)| leads(*x, *y, *z))
}

/// Whether no path without a star includes both.
fn paths_never_meet(first: &[Elem], second: &[Elem]) -> bool
    ensures { result ≡ elems_never_meet first.now second.now }
{
    first.len() != second.len() || some_never_meet(first, second)
}

/// Whether a path without a star that includes the first two includes the third.
fn paths_lead(first: &[Elem], second: &[Elem], third: &[Elem]) -> bool
    ensures { result ≡ elems_lead first.now second.now third.now }
{
    first.len() == third.len() && second.len() == third.len() && all_lead(first, second, third)
}

/// Whether a need that covers the first two covers the third.
fn needs_lead(first: &Need, second: &Need, third: &Need) -> bool
    ensures { result ≡ need_leads first.now second.now third.now }
{
    let left = first.elems.as_slice();
    let right = second.elems.as_slice();
    paths_never_meet(left, right)
        || (paths_lead(left, right, third.elems.as_slice())
            && (!third.write || first.write || second.write))
}

/// Whether each of these needs is such that what covers it and the first covers this one.
fn all_lead_with(first: &Need, others: &[Need], need: &Need) -> bool
    ensures { result ≡ list_all (λ other. need_leads first.now other need.now) others.now }
{
    others.iter().all(|other| needs_lead(first, other, need))
}

/// Whether each two of the needs are such that what covers both covers this one.
fn is_spread_out(needs: &[Need], need: &Need) -> bool
    ensures { result ≡ are_spread_out needs.now need.now }
{
    match needs.split_first() {
        Some((first, others)) => all_lead_with(first, others, need) && is_spread_out(others, need),
        None => true,
    }
}

/// Whether the element is no parameter.
fn is_constant(elem: Elem) -> bool
    ensures { result ≡ is_constant elem }
{
    match elem {
        Elem::Name(_) => true,
        Elem::Index(_) => true,
        Elem::Var(_) => false,
        Elem::AnyIndex => true,
    }
}

/// Whether each caller of the method needs the same: no element is a parameter.
fn is_same_for_callers(need: &Need) -> bool
    ensures { result ≡ is_constant_need need.now }
{
    need.elems.as_slice().iter().all(|elem| is_constant(*elem))
}

/// The need at this place, if it is of the method, the same for each caller, and of no lower rank.
fn witness(all: &AllFound, place: usize, method: u32, least: u64) -> Option<&Need>
    ensures { IfSome result (λ need. IsWitness all.now method least need.now) }
{
    match all.get(place) {
        None => None,
        Some(other) => {
            if other.method == method
                && is_same_for_callers(&other.need)
                && least <= rank(&other.need)
            {
                Some(&other.need)
            } else {
                None
            }
        }
    }
}

/// The needs at these places, if they are of the method, the same for each caller, and of no lower rank.
fn witnesses(
    all: &AllFound,
    alloc: Global,
    places: &[usize],
    method: u32,
    least: u64,
) -> Result<Widest, Memory>
    ensures { IfOk result (AreWitnesses all.now method least) }
{
    let mut needs = Widest::new(alloc);
    for place in places {
        if let Some(need) = witness(all, *place, method, least) {
            needs.push(copy(alloc, need)?)?;
        }
    }
    Ok(needs)
}

/// Whether the needs at these places leave no room for this one.
pub(crate) fn is_crowded(
    all: &AllFound,
    alloc: Global,
    places: &[usize],
    found: &FoundNeed,
) -> Result<bool, Memory>
    ensures { IfOk result (λ crowded. IsTrue crowded → IsCrowded all.now found.now) }
{
    if places.len() < MOST_NOTED || !is_same_for_callers(&found.need) {
        return Ok(false);
    }
    let needs = witnesses(all, alloc, places, found.method, rank(&found.need))?;
    Ok(needs.len() >= MOST_NOTED && is_spread_out(needs.as_slice(), &found.need))
}
