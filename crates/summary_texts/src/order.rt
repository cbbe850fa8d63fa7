//! The order in which paths are written.
ghost use Rattle.std.specs.Prelude.{◌≡◌, ◌≤◌, length, IfOk};
ghost use Rattle.summary_texts.specs.Order.{comes_before, element_before, is_same, order_kind_of, summary_paths_of, place_in};

use effect_sets::Summary;
use region_paths::{Elem, Elems};
use std::alloc::Global;
use twe_base::Memory;

/// The place of an element's kind in the order: names, literals, parameters, any index.
fn kind(elem: Elem) -> u8
    ensures { result ≡ order_kind_of elem }
{
    match elem {
        Elem::Name(_) => 0,
        Elem::Index(_) => 1,
        Elem::Var(_) => 2,
        Elem::AnyIndex => 3,
    }
}

/// Whether an element comes before another.
fn is_before(first: Elem, second: Elem) -> bool
    ensures { result ≡ element_before first second }
{
    match (first, second) {
        (Elem::Name(n), Elem::Name(m)) => n < m,
        (Elem::Index(i), Elem::Index(j)) => i < j,
        (Elem::Var(k), Elem::Var(l)) => k < l,
        _ => kind(first) < kind(second),
    }
}

/// Whether a path comes before another.
fn comes_before(first: &[Elem], second: &[Elem]) -> bool
    ensures { result ≡ comes_before first.now second.now }
{
    for at in 0..first.len() {
        let Some(other) = second.get(at) else {
            return false;
        };
        let other = *other;
        if is_before(first[at], other) {
            return true;
        }
        if is_before(other, first[at]) {
            return false;
        }
    }
    first.len() < second.len()
}

/// How many paths stand before the first that comes after this one.
fn place_in(paths: &[Elems], path: &[Elem]) -> usize
    ensures place { result ≡ place_in paths.now path.now }
    ensures within { result ≤ length paths.now }
{
    for (at, other) in paths.iter().enumerate() {
        if comes_before(path, other.as_slice()) {
            return at;
        }
    }
    paths.len()
}

/// Whether both are true, or both are false.
fn is_same(first: bool, second: bool) -> bool
    ensures { result ≡ is_same first second }
{
    if first { second } else { !second }
}

/// The paths of the effects that write, or of those that only read, in their order.
pub fn paths_of(alloc: Global, summary: &Summary, write: bool) -> Result<Vec<Elems>, Memory>
    ensures { IfOk result (λ paths. paths.items ≡ summary_paths_of write summary.now.effects) }
{
    let mut paths = Vec::new(alloc);
    for effect in summary.effects.as_slice() {
        if is_same(effect.write, write) {
            let path = effect.path.elems().copy(alloc)?;
            let place = place_in(paths.as_slice(), path.as_slice());
            paths.insert(place, path)?;
        }
    }
    Ok(paths)
}
