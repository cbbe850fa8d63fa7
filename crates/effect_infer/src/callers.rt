//! The calls of each method, by their places in the list of all calls. Of equal calls one is enough.
ghost use Rattle.std.specs.Prelude.{◌≡◌, ◌<◌, IfOk, IsTrue, Some, slice_get};
ghost use Rattle.effect_infer.specs.Rows.{ListsCalls, same_call};

use crate::calls_seen::CallsSeen;
use crate::found::CallSite;
use crate::rows::{no_rows, push_to};
use region_paths::elements_are_within;
use std::alloc::Global;
use twe_base::{List, Memory};

/// Places in a list.
pub(crate) type ListPlaces = List<usize>;

/// For each method the places of its calls.
pub(crate) type Callers = List<ListPlaces>;

/// Whether the calls are of the same method, in the same method, and with the same arguments.
fn are_alike(first: &CallSite, second: &CallSite) -> bool
    ensures { result ≡ same_call first.now second.now }
{
    first.callee == second.callee
        && first.caller == second.caller
        && first.params == second.params
        && elements_are_within(first.args.as_slice(), second.args.as_slice())
        && elements_are_within(second.args.as_slice(), first.args.as_slice())
}

/// Whether the calls are equal.
fn are_equal(first: &CallSite, second: &CallSite) -> bool
    ensures { IsTrue result → first.now ≡ second.now }
{
    are_alike(first, second)
}

/// Whether an equal call stands at this place, before the other one.
fn stands_before(calls: &[CallSite], first: usize, place: usize, call: &CallSite) -> bool
    ensures { IsTrue result → (first < place) × (slice_get calls.now first ≡ Some call.now) }
{
    match calls.get(first) {
        None => false,
        Some(other) => first < place && are_equal(other, call),
    }
}

/// The places of the calls of each method, of equal calls the first. Calls of methods that are not there are left out.
pub(crate) fn callers_of(
    alloc: Global,
    calls: &[CallSite],
    methods: usize,
) -> Result<Callers, Memory>
    ensures { IfOk result (ListsCalls methods calls.now) }
{
    let mut callers = no_rows(alloc, methods)?;
    let mut seen = CallsSeen::new(alloc)?;
    for (place, call) in calls.iter().enumerate() {
        let callee = call.callee as usize;
        let first = seen.first_place(alloc, call, place)?;
        if !stands_before(calls, first, place, call) && callee < callers.len() {
            push_to(&mut callers, callee, place)?;
        }
    }
    Ok(callers)
}
