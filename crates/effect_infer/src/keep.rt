//! Keeps of the needs that were found those that no other covers, at most 9 for each method.
ghost use Rattle.std.specs.Prelude.{◌≡◌, ◌<◌, ◌≤◌, ◌^◌, length, Contains, IfOk, OnOk};
ghost use Rattle.effect_infer.specs.declared.found.FoundNeed.{FoundNeed as Named};
ghost use Rattle.effect_infer.specs.Rows.{row};
ghost use Rattle.effect_infer.specs.Kept.{KeepsNeeds, any_indexes, is_any, is_wanted, method_rank, some_cover};

use crate::found::FoundNeed;
use crate::needs::Need;
use crate::rows::{no_rows, push_to};
use crate::widen::{copy, widens};
use region_paths::Elem;
use std::alloc::Global;
use twe_base::{List, Memory};

/// Needs of one method.
pub(crate) type Widest = List<Need>;

/// For each method its widest needs.
pub(crate) type Table = List<Widest>;

/// How many needs of a method are kept at most: one more than a summary may have.
const MOST_KEPT: usize = 9;

/// Whether the element is any index.
fn is_any(elem: Elem) -> bool
    ensures { result ≡ is_any elem }
{
    match elem {
        Elem::Name(_) => false,
        Elem::Index(_) => false,
        Elem::Var(_) => false,
        Elem::AnyIndex => true,
    }
}

/// How many elements are any index.
fn any_indexes(elems: &[Elem]) -> u64
    ensures count { result ≡ any_indexes elems.now }
    ensures small { result < 2 ^ 63 }
{
    let mut count = 0;
    for elem in elems {
        if is_any(*elem) {
            count += 1;
        }
    }
    count
}

/// The rank of a need. A need that covers another has a higher rank, unless the two are equal.
pub(crate) fn rank(need: &Need) -> u64
    ensures rank { result ≡ method_rank need.now }
    ensures small { result ≤ 2 ^ 63 }
{
    let write = if need.write { 1 } else { 0 };
    any_indexes(need.elems.as_slice()) + write
}

/// The higher of two ranks.
fn higher(first: u64, second: u64) -> u64
    ensures first { first ≤ result }
    ensures second { second ≤ result }
    ensures small { first ≤ 2 ^ 63 → second ≤ 2 ^ 63 → result ≤ 2 ^ 63 }
{
    if first < second { second } else { first }
}

/// The highest rank of the needs that were found.
fn top_rank(all: &[FoundNeed]) -> u64
    ensures top { (need : Named) → Contains all.now need → method_rank need.need ≤ result }
    ensures small { result ≤ 2 ^ 63 }
{
    let mut top = 0;
    for found in all {
        top = higher(top, rank(&found.need));
    }
    top
}

/// Whether one of the needs covers the need.
fn some_cover(needs: &Widest, need: &Need) -> bool
    ensures { result ≡ some_cover needs.now need.now }
{
    needs.as_slice().iter().any(|wide| widens(wide, need))
}

/// Whether a need of this method has to be kept: there is room, and none that was kept covers it.
fn is_wanted(table: &Table, method: usize, need: &Need) -> bool
    requires { method < length table.now }
    ensures { result ≡ is_wanted (row table.now method) need.now }
{
    match table.get(method) {
        None => false,
        Some(needs) => needs.len() < MOST_KEPT && !some_cover(needs, need),
    }
}

/// Keeps the needs of this rank, after those of higher ranks.
fn keep_rank(table: &mut Table, alloc: Global, all: &[FoundNeed], this: u64) -> Result<(), Memory>
    requires { KeepsNeeds (length table.old) all.now table.old (λ need. this < method_rank need.need) }
    ensures { OnOk result (KeepsNeeds (length table.old) all.now table.new (λ need. this ≤ method_rank need.need)) }
{
    for found in all {
        let method = found.method as usize;
        if method < table.len()
            && rank(&found.need) == this
            && is_wanted(table, method, &found.need)
        {
            let need = copy(alloc, &found.need)?;
            push_to(table, method, need)?;
        }
    }
    Ok(())
}

/// For each method the needs that no other covers. If there are more than 9, there are 9 of them.
pub(crate) fn keep_widest(alloc: Global, all: &[FoundNeed], methods: usize) -> Result<Table, Memory>
    ensures { IfOk result (λ table. KeepsNeeds methods all.now table (λ need. Unit {0})) }
{
    let top = top_rank(all);
    let mut table = no_rows(alloc, methods)?;
    for below in 0..top + 1 {
        keep_rank(&mut table, alloc, all, top - below)?;
    }
    Ok(table)
}
