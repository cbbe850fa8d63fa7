//! What elements stand for, if the parameters of a method stand for these.
ghost use Rattle.std.specs.Prelude.{◌≡◌, IfOk};
ghost use Rattle.std.specs.List.{list_any};
ghost use Rattle.region_paths.specs.declared.elements.Elem.TheVariants.{Var};
ghost use Rattle.region_paths.specs.Filled.{fill_elem};
ghost use Rattle.summary_comparing.specs.inner.Standing.{callee_values, is_match, is_value, kept_value, own_values, same_elem, same_truth, same_value, stand_for, value_of};

use effect_infer::needs::Need;
use region_paths::Elem;
use std::alloc::Global;
use twe_base::{List, Memory};

/// What the parameters of a method stand for, if that is looked for.
pub(crate) type Values = List<Option<Elem>>;

/// Whether the elements are equal.
pub(crate) fn same_elem(first: Elem, second: Elem) -> bool
    ensures { result ≡ same_elem first second }
{
    match (first, second) {
        (Elem::Name(n), Elem::Name(m)) => n == m,
        (Elem::Index(i), Elem::Index(j)) => i == j,
        (Elem::Var(k), Elem::Var(l)) => k == l,
        (Elem::AnyIndex, Elem::AnyIndex) => true,
        _ => false,
    }
}

/// What an element stands for.
fn value_of(values: &[Option<Elem>], elem: Elem) -> Option<Elem>
    ensures { result ≡ value_of values.now elem }
{
    match elem {
        Elem::Var(k) => values
            .get(k as usize)
            .copied()
            .unwrap_or(Some(Elem::AnyIndex)),
        Elem::Name(_) => Some(elem),
        Elem::Index(_) => Some(elem),
        Elem::AnyIndex => Some(elem),
    }
}

/// Whether the value is this element.
fn is_value(value: Option<Elem>, target: Elem) -> bool
    ensures { result ≡ is_value value target }
{
    match value {
        None => false,
        Some(elem) => same_elem(elem, target),
    }
}

/// Whether the elements stand for these. Each call is for elements fewer, of which a path has at most 32.
fn stand_for(values: &[Option<Elem>], elems: &[Elem], targets: &[Elem]) -> bool
    ensures { result ≡ stand_for values.now elems.now targets.now }
{
    match (elems.split_first(), targets.split_first()) {
        (None, None) => true,
        (Some((elem, others)), Some((target, rest))) => {
            is_value(value_of(values, *elem), *target) && stand_for(values, others, rest)
        }
        _ => false,
    }
}

/// Whether both are true, or both are false.
pub(crate) fn same_truth(first: bool, second: bool) -> bool
    ensures { result ≡ same_truth first second }
{
    if first { second } else { !second }
}

/// Whether the need stands for the one that is looked for.
pub(crate) fn is_match(values: &[Option<Elem>], need: &Need, target: &Need) -> bool
    ensures { result ≡ is_match values.now need.now target.now }
{
    same_truth(need.write, target.write)
        && stand_for(values, need.elems.as_slice(), target.elems.as_slice())
}

/// Whether the element is one of these.
fn is_among(targets: &[Elem], elem: Elem) -> bool
    ensures { result ≡ list_any (same_elem elem) targets.now }
{
    targets.iter().any(|target| same_elem(elem, *target))
}

/// The value, if it is one of these elements.
fn kept_value(targets: &[Elem], value: Option<Elem>) -> Option<Elem>
    ensures { result ≡ kept_value targets.now value }
{
    match value {
        None => None,
        Some(elem) => { if is_among(targets, elem) { value } else { None } }
    }
}

/// The argument for a parameter, or the parameter if there is none.
fn argument(args: &[Elem], param: u32) -> Elem
    ensures { result ≡ fill_elem args.now (Var param) }
{
    args.get(param as usize)
        .copied()
        .unwrap_or(Elem::Var(param))
}

/// What the parameters of a called method stand for, of which there are so many.
pub(crate) fn callee_values(
    alloc: Global,
    values: &[Option<Elem>],
    targets: &[Elem],
    args: &[Elem],
    params: u32,
) -> Result<Values, Memory>
    ensures { IfOk result (λ found. found ≡ callee_values values.now targets.now args.now params) }
{
    let mut found = Values::new(alloc);
    for k in 0..params {
        let value = value_of(values, argument(args, k));
        found.push(kept_value(targets, value))?;
    }
    Ok(found)
}

/// What the parameters of the first method stand for, of which there are so many.
pub(crate) fn own_values(alloc: Global, params: u32) -> Result<Values, Memory>
    ensures { IfOk result (λ found. found ≡ own_values params) }
{
    let mut found = Values::new(alloc);
    for k in 0..params {
        found.push(Some(Elem::Var(k)))?;
    }
    Ok(found)
}

/// Whether the values are equal.
pub(crate) fn same_value(first: Option<Elem>, second: Option<Elem>) -> bool
    ensures { result ≡ same_value first second }
{
    match (first, second) {
        (None, None) => true,
        (Some(elem), Some(other)) => same_elem(elem, other),
        _ => false,
    }
}
