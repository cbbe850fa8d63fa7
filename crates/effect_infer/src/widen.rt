//! Whether one need covers another, and needs as other methods say them.
ghost use Rattle.std.specs.Prelude.{◌≡◌, IfOk, map};
ghost use Rattle.region_paths.specs.Filled.{fill_elem};
ghost use Rattle.effect_sets.specs.Covers.{effect_covers};
ghost use Rattle.effect_infer.specs.needs.Needs.{effect_of, filled_need, settled, settled_elem};

use crate::needs::Need;
use region_paths::{Elem, Elems, elements_are_within};
use std::alloc::Global;
use twe_base::Memory;

/// Whether a need covers another: its path includes the other's, and it writes if the other does.
pub(crate) fn widens(wide: &Need, need: &Need) -> bool
    ensures { result ≡ effect_covers (effect_of wide.now) (effect_of need.now) }
{
    elements_are_within(need.elems.as_slice(), wide.elems.as_slice()) && (!need.write || wide.write)
}

/// An element as a method says it: a variable that is none of its parameters becomes any index.
fn settled_one(elem: Elem, params: u32) -> Elem
    ensures { result ≡ settled_elem params elem }
{
    match elem {
        Elem::Name(_) => elem,
        Elem::Index(_) => elem,
        Elem::Var(k) => { if k < params { elem } else { Elem::AnyIndex } }
        Elem::AnyIndex => elem,
    }
}

/// An element with an argument in the place of a parameter.
fn filled_one(elem: Elem, args: &[Elem]) -> Elem
    ensures { result ≡ fill_elem args.now elem }
{
    match elem {
        Elem::Name(_) => elem,
        Elem::Index(_) => elem,
        Elem::Var(k) => args.get(k as usize).copied().unwrap_or(elem),
        Elem::AnyIndex => elem,
    }
}

/// Elements as a method says them that has so many parameters.
fn settled_elems(alloc: Global, elems: &[Elem], params: u32) -> Result<Elems, Memory>
    ensures { IfOk result (λ found. found ≡ map (settled_elem params) elems.now) }
{
    let mut settled = Elems::new(alloc);
    for elem in elems {
        settled.push(settled_one(*elem, params))?;
    }
    Ok(settled)
}

/// Elements with the arguments in the place of the parameters.
fn filled_elems(alloc: Global, elems: &[Elem], args: &[Elem]) -> Result<Elems, Memory>
    ensures { IfOk result (λ found. found ≡ map (fill_elem args.now) elems.now) }
{
    let mut filled = Elems::new(alloc);
    for elem in elems {
        filled.push(filled_one(*elem, args))?;
    }
    Ok(filled)
}

/// A need as a method says it that has so many parameters.
pub(crate) fn settle(alloc: Global, need: &Need, params: u32) -> Result<Need, Memory>
    ensures { IfOk result (λ found. found ≡ settled params need.now) }
{
    let elems = settled_elems(alloc, need.elems.as_slice(), params)?;
    Ok(Need {
        write: need.write,
        elems,
    })
}

/// The need of a called method, with the arguments in the place of its parameters.
pub(crate) fn fill(alloc: Global, need: &Need, args: &[Elem]) -> Result<Need, Memory>
    ensures { IfOk result (λ found. found ≡ filled_need args.now need.now) }
{
    let elems = filled_elems(alloc, need.elems.as_slice(), args)?;
    Ok(Need {
        write: need.write,
        elems,
    })
}

/// An equal need in its own memory.
pub(crate) fn copy(alloc: Global, need: &Need) -> Result<Need, Memory>
    ensures { IfOk result (λ found. found ≡ need.now) }
{
    let elems = need.elems.copy(alloc)?;
    Ok(Need {
        write: need.write,
        elems,
    })
}
