//! The equalities under which two paths have a cell in common.
ghost use Rattle.std.specs.Prelude.{◌≡◌, ◌∷◌, [], ◌++◌, IfOk, map, reverse, zip};
ghost use Rattle.effect_meeting.specs.PathEqualities.{always, effect_equalities, elem_equality, end_equalities, front_equalities, never, path_equalities, wanted};

use crate::equality::{Equalities, Equality, Term};
use effect_sets::Effect;
use region_paths::{Elem, Path};
use std::alloc::{AllocError, Global};
use twe_base::Memory;

/// An equality that always holds.
fn always() -> Equality
    ensures { result ≡ always }
{
    Equality {
        left: Term::Literal(0),
        right: Term::Literal(0),
    }
}

/// An equality that never holds.
fn never() -> Equality
    ensures { result ≡ never }
{
    Equality {
        left: Term::Literal(0),
        right: Term::Literal(1),
    }
}

/// When the elements stand for a common one. The second declaration has the variables of the second element.
pub fn elem_equality(first: Elem, second: Elem) -> Equality
    ensures { result ≡ elem_equality first second }
{
    match (first, second) {
        (Elem::Name(n), Elem::Name(m)) => { if n == m { always() } else { never() } }
        (Elem::Name(_), _) => never(),
        (_, Elem::Name(_)) => never(),
        (Elem::Index(i), Elem::Index(j)) => Equality {
            left: Term::Literal(i),
            right: Term::Literal(j),
        },
        (Elem::Index(i), Elem::Var(l)) => Equality {
            left: Term::Literal(i),
            right: Term::Second(l),
        },
        (Elem::Var(k), Elem::Index(j)) => Equality {
            left: Term::First(k),
            right: Term::Literal(j),
        },
        (Elem::Var(k), Elem::Var(l)) => Equality {
            left: Term::First(k),
            right: Term::Second(l),
        },
        _ => always(),
    }
}

/// When the elements at each position, counted from the front, stand for common ones.
fn front_equalities(
    alloc: Global,
    first: &[Elem],
    second: &[Elem],
) -> Result<Vec<Equality>, AllocError>
    ensures { IfOk result (λ list. list.items ≡ front_equalities first.now second.now) }
{
    first
        .iter()
        .zip(second)
        .map(|(x, y)| elem_equality(*x, *y))
        .collect(alloc)
}

/// The same, counted from the end.
fn end_equalities(
    alloc: Global,
    first: &[Elem],
    second: &[Elem],
) -> Result<Vec<Equality>, AllocError>
    ensures { IfOk result (λ list. list.items ≡ end_equalities first.now second.now) }
{
    first
        .iter()
        .rev()
        .zip(second.iter().rev())
        .map(|(x, y)| elem_equality(*x, *y))
        .collect(alloc)
}

/// Something that has to be so, whatever the values.
fn wanted(alloc: Global, holds: bool) -> Result<Equalities, Memory>
    ensures { IfOk result (λ list. list ≡ wanted holds) }
{
    let mut list = Equalities::new(alloc);
    if !holds {
        list.push(never())?;
    }
    Ok(list)
}

/// When the paths have a concrete path in common.
fn path_equalities(alloc: Global, p: &Path, q: &Path) -> Result<Equalities, Memory>
    ensures { IfOk result (λ list. list ≡ path_equalities p.now q.now) }
{
    let first = p.elems().as_slice();
    let second = q.elems().as_slice();
    let front = front_equalities(alloc, first, second)?;
    match (p.star(), q.star()) {
        (false, false) => {
            let mut list = wanted(alloc, first.len() == second.len())?;
            list.push_all(front.as_slice())?;
            Ok(list)
        }
        (false, true) => {
            let tail = q.tail().as_slice();
            let mut list = wanted(alloc, first.len() >= second.len() + tail.len())?;
            list.push_all(front.as_slice())?;
            list.push_all(end_equalities(alloc, first, tail)?.as_slice())?;
            Ok(list)
        }
        (true, false) => {
            let tail = p.tail().as_slice();
            let mut list = wanted(alloc, second.len() >= first.len() + tail.len())?;
            list.push_all(front.as_slice())?;
            list.push_all(end_equalities(alloc, tail, second)?.as_slice())?;
            Ok(list)
        }
        (true, true) => {
            let mut list = Equalities::from(front);
            let end = end_equalities(alloc, p.tail().as_slice(), q.tail().as_slice())?;
            list.push_all(end.as_slice())?;
            Ok(list)
        }
    }
}

/// When the effects interfere.
pub(crate) fn effect_equalities(alloc: Global, a: &Effect, b: &Effect) -> Result<Equalities, Memory>
    ensures { IfOk result (λ list. list ≡ effect_equalities a.now b.now) }
{
    let mut list = wanted(alloc, a.write || b.write)?;
    list.push_all(path_equalities(alloc, &a.path, &b.path)?.as_slice())?;
    Ok(list)
}
