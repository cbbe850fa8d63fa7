//! Whether two effects interfere whatever the arguments of a call are, and which local that depends on.
ghost use Rattle.std.specs.Prelude.{◌≡◌, ◌↔◌, IfOk, IsTrue};
ghost use Rattle.std.specs.List.{list_all};
ghost use Rattle.effect_meeting.specs.Always.{AlwaysInterfere, deciding_local, local_among, is_always_equal, if_local, in_one_call, local_in, local_of};

use crate::equality::{Equality, Term, is_same_term};
use crate::path_meeting::effect_equalities;
use effect_sets::Effect;
use std::alloc::Global;
use twe_base::Memory;

/// The term, where a parameter has one value in both effects. The first variables, as many as are shared, are parameters.
fn in_one_call(shared: u32, term: Term) -> Term
    ensures { result ≡ in_one_call shared term }
{
    match term {
        Term::Literal(i) => Term::Literal(i),
        Term::First(k) => Term::First(k),
        Term::Second(k) => {
            if k < shared {
                Term::First(k)
            } else {
                Term::Second(k)
            }
        }
    }
}

/// Whether the equality holds for all values.
fn is_always_equal(shared: u32, equality: Equality) -> bool
    ensures { result ≡ is_always_equal shared equality }
{
    let left = in_one_call(shared, equality.left);
    is_same_term(left, in_one_call(shared, equality.right))
}

/// Whether the equalities hold for all values.
fn are_always_equal(shared: u32, equalities: &[Equality]) -> bool
    ensures { result ≡ list_all (is_always_equal shared) equalities.now }
{
    equalities
        .iter()
        .all(|equality| is_always_equal(shared, *equality))
}

/// Whether the effects interfere for all values of their variables. The first of these, as many as are shared, are the parameters of
/// one call, and each has one value in both effects.
pub fn always_interfere(
    alloc: Global,
    shared: u32,
    first: &Effect,
    second: &Effect,
) -> Result<bool, Memory>
    ensures { IfOk result (λ always. IsTrue always ↔ AlwaysInterfere shared first.now second.now) }
{
    let equalities = effect_equalities(alloc, first, second)?;
    Ok(are_always_equal(shared, equalities.as_slice()))
}

/// The number of the variable, if it is a local: one that is no parameter.
fn if_local(shared: u32, number: u32) -> Option<u32>
    ensures { result ≡ if_local shared number }
{
    if shared <= number { Some(number) } else { None }
}

/// The local that the term is, if it is one.
fn local_of(shared: u32, term: Term) -> Option<u32>
    ensures { result ≡ local_of shared term }
{
    match term {
        Term::Literal(_) => None,
        Term::First(number) => if_local(shared, number),
        Term::Second(number) => if_local(shared, number),
    }
}

/// The first local that stands in the equality.
fn local_in(shared: u32, equality: Equality) -> Option<u32>
    ensures { result ≡ local_in shared equality }
{
    match local_of(shared, equality.left) {
        Some(number) => Some(number),
        None => local_of(shared, equality.right),
    }
}

/// The first local that stands in the equalities.
fn local_among(shared: u32, equalities: &[Equality]) -> Option<u32>
    ensures { result ≡ local_among shared equalities.now }
{
    for equality in equalities {
        if let Some(number) = local_in(shared, *equality) {
            return Some(number);
        }
    }
    None
}

/// The first local whose value says whether the effects interfere: it stands against an index that is not any index. The first
/// variables, as many as are shared, are parameters, and the others are locals.
pub fn deciding_local(
    alloc: Global,
    shared: u32,
    first: &Effect,
    second: &Effect,
) -> Result<Option<u32>, Memory>
    ensures { IfOk result (λ local. local ≡ deciding_local shared first.now second.now) }
{
    let equalities = effect_equalities(alloc, first, second)?;
    Ok(local_among(shared, equalities.as_slice()))
}
