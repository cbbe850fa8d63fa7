//! Hands each need on to the callers of its method, until nothing is new.
ghost use Rattle.std.specs.Prelude.{◌≤◌, ◌∷◌, [], ◌++◌, length, IfOk, OnOk};
ghost use Rattle.effect_infer.specs.Rows.{ListsCalls, row};
ghost use Rattle.effect_infer.specs.Covered.{ComesFrom, HandsOnAll, HandsOnBefore, HasSpread, IsHanded, IsHandedBy, IsMet, Spreads, SummaryGrows};

use crate::add::add;
use crate::callers::{Callers, callers_of};
use crate::found::{AllFound, CallSite, CallSites, FoundNeed};
use crate::index::Index;
use crate::keep::rank;
use crate::needs::Need;
use crate::widen::{copy, fill, settle};
use std::alloc::Global;
use twe_base::Memory;

/// Hands a need of a method on by this call, if it is a call of the method.
fn hand_on(
    all: &mut AllFound,
    index: &mut Index,
    alloc: Global,
    call: &CallSite,
    method: u32,
    need: &Need,
) -> Result<(), Memory>
    ensures { OnOk result (SummaryGrows all.old all.new (IsHanded call.now method need.now)) }
{
    if call.callee != method {
        return Ok(());
    }
    let filled = fill(alloc, need, call.args.as_slice())?;
    let need = settle(alloc, &filled, call.params)?;
    let method = call.caller;
    add(all, index, alloc, FoundNeed { method, need })
}

/// Hands a need of a method on by the calls that stand at these places.
fn hand_to_all(
    all: &mut AllFound,
    index: &mut Index,
    alloc: Global,
    calls: &CallSites,
    places: &[usize],
    method: u32,
    need: &Need,
) -> Result<(), Memory>
    ensures { OnOk result (SummaryGrows all.old all.new (IsHandedBy calls.now places.now method need.now)) }
{
    for place in places {
        if let Some(call) = calls.get(*place) {
            hand_on(all, index, alloc, call, method, need)?;
        }
    }
    Ok(())
}

/// Hands a need of a method on by all calls of the method.
fn hand_to_callers(
    all: &mut AllFound,
    index: &mut Index,
    alloc: Global,
    calls: &CallSites,
    callers: &Callers,
    method: u32,
    need: &Need,
) -> Result<(), Memory>
    ensures { OnOk result (SummaryGrows all.old all.new (IsHandedBy calls.now (row callers.now method) method need.now)) }
{
    match callers.get(method as usize) {
        None => Ok(()),
        Some(places) => hand_to_all(all, index, alloc, calls, places.as_slice(), method, need),
    }
}

/// Hands each need from this place on to the callers of its method, until nothing is new.
fn hand_on_from(
    all: &mut AllFound,
    index: &mut Index,
    alloc: Global,
    calls: &CallSites,
    callers: &Callers,
    from: usize,
) -> Result<(), Memory>
    requires before { HandsOnBefore (length callers.now) calls.now from all.old }
    requires inside { from ≤ length all.old }
    requires listed { ListsCalls (length callers.now) calls.now callers.now }
    ensures { OnOk result (Spreads (length callers.now) calls.now all.old all.old all.new) }
{
    for at in from..u32::MAX as usize {
        let Some(found) = all.get(at) else {
            return Ok(());
        };
        let method = found.method;
        let need = copy(alloc, &found.need)?;
        hand_to_callers(all, index, alloc, calls, callers, method, &need)?;
    }
    Err(Memory::of_uncountable(all.as_slice()))
}

/// Adds a need, and hands it on.
fn start(
    all: &mut AllFound,
    index: &mut Index,
    alloc: Global,
    calls: &CallSites,
    callers: &Callers,
    found: &FoundNeed,
) -> Result<(), Memory>
    requires before { HandsOnAll (length callers.now) calls.now all.old }
    requires listed { ListsCalls (length callers.now) calls.now callers.now }
    ensures spreads { OnOk result (Spreads (length callers.now) calls.now (all.old ++ found.now ∷ []) all.old all.new) }
    ensures met { OnOk result (IsMet all.new found.now) }
{
    let from = all.len();
    let need = copy(alloc, &found.need)?;
    let method = found.method;
    add(all, index, alloc, FoundNeed { method, need })?;
    hand_on_from(all, index, alloc, calls, callers, from)
}

/// Adds and hands on those of the needs that have at least this rank.
fn start_from(
    all: &mut AllFound,
    index: &mut Index,
    alloc: Global,
    calls: &CallSites,
    callers: &Callers,
    starts: &[FoundNeed],
    least: u64,
) -> Result<(), Memory>
    requires reached { ComesFrom starts.now calls.now all.old }
    requires before { HandsOnAll (length callers.now) calls.now all.old }
    requires listed { ListsCalls (length callers.now) calls.now callers.now }
    ensures { OnOk result (HasSpread (length callers.now) calls.now starts.now least all.new) }
{
    for found in starts {
        if least <= rank(&found.need) {
            start(all, index, alloc, calls, callers, found)?;
        }
    }
    Ok(())
}

/// These needs, and all that calls hand on of them, until nothing is new. Wide needs come first, so that what they cover is not
/// handed on.
pub(crate) fn spread(
    alloc: Global,
    starts: &[FoundNeed],
    calls: &CallSites,
    methods: usize,
) -> Result<AllFound, Memory>
    ensures { IfOk result (HasSpread methods calls.now starts.now 0) }
{
    let callers = callers_of(alloc, calls.as_slice(), methods)?;
    let mut index = Index::new(alloc)?;
    let mut all = AllFound::new(alloc);
    start_from(&mut all, &mut index, alloc, calls, &callers, starts, 2)?;
    start_from(&mut all, &mut index, alloc, calls, &callers, starts, 1)?;
    start_from(&mut all, &mut index, alloc, calls, &callers, starts, 0)?;
    Ok(all)
}
