//! The order in which needed effects are written.
ghost use Rattle.std.specs.Prelude.{◌≡◌, ◌≤◌, length, IfOk};
ghost use Rattle.summary_comparing.specs.EffectOrder.{effect_precedes, elem_precedes, elem_rank, elems_precede, in_effect_order, path_precedes, place_among};

use effect_sets::Effect;
use region_paths::{Elem, Path};
use std::alloc::Global;
use twe_base::Memory;

/// Whether an element comes before another.
fn elem_precedes(first: Elem, second: Elem) -> bool
    ensures { result ≡ elem_precedes first second }
{
    match (first, second) {
        (Elem::Name(n), Elem::Name(m)) => n < m,
        (Elem::Index(i), Elem::Index(j)) => i < j,
        (Elem::Var(k), Elem::Var(l)) => k < l,
        _ => elem_rank(first) < elem_rank(second),
    }
}

/// Whether elements come before others. Each call is for elements fewer, of which a path has at most 32.
fn elems_precede(first: &[Elem], second: &[Elem]) -> bool
    ensures { result ≡ elems_precede first.now second.now }
{
    let Some((other, others)) = second.split_first() else {
        return false;
    };
    let Some((elem, elems)) = first.split_first() else {
        return true;
    };
    elem_precedes(*elem, *other) || (!elem_precedes(*other, *elem) && elems_precede(elems, others))
}

/// Whether a path comes before another.
fn path_precedes(first: &Path, second: &Path) -> bool
    ensures { result ≡ path_precedes first.now second.now }
{
    let elems = first.elems().as_slice();
    let others = second.elems().as_slice();
    elems_precede(elems, others)
        || (!elems_precede(others, elems)
            && ((second.star() && !first.star())
                || (!(first.star() && !second.star())
                    && elems_precede(first.tail().as_slice(), second.tail().as_slice()))))
}

/// Whether an effect comes before another.
fn effect_precedes(first: &Effect, second: &Effect) -> bool
    ensures { result ≡ effect_precedes first.now second.now }
{
    (second.write && !first.write)
        || (!(first.write && !second.write) && path_precedes(&first.path, &second.path))
}

/// How many effects stand before the first that the effect precedes.
fn place_among(effects: &[Effect], effect: &Effect) -> usize
    ensures place { result ≡ place_among effects.now effect.now }
    ensures within { result ≤ length effects.now }
{
    for (at, other) in effects.iter().enumerate() {
        if effect_precedes(effect, other) {
            return at;
        }
    }
    effects.len()
}

/// The effects in their order. There are few of them: each is compared with all before it.
pub(crate) fn in_effect_order(alloc: Global, effects: &[Effect]) -> Result<Vec<Effect>, Memory>
    ensures { IfOk result (λ placed. placed.items ≡ in_effect_order effects.now) }
{
    let mut placed = Vec::new(alloc);
    for effect in effects {
        let place = place_among(placed.as_slice(), effect);
        placed.insert(place, effect.copy(alloc)?)?;
    }
    Ok(placed)
}

/// The place of an element's kind in the order.
fn elem_rank(elem: Elem) -> u8
    ensures { result ≡ elem_rank elem }
{
    match elem {
        Elem::Name(_) => 0,
        Elem::Index(_) => 1,
        Elem::Var(_) => 2,
        Elem::AnyIndex => 3,
    }
}
