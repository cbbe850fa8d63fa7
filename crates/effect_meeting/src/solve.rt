//! Whether equalities can hold together, by one term in the place of another.
ghost use Rattle.std.specs.Prelude.{◌≡◌, [], IfNone, IfOk, IfSome};
ghost use Rattle.std.specs.List.{list_any};
ghost use Rattle.effect_meeting.specs.Solving.{after_steps, can_hold, is_literal, replaced, same_equality, says_nothing_new, steps_after, telling};
ghost use Rattle.effect_meeting.specs.Solutions.{AreSolvedBy, NeverHold, solved_value};

use crate::equality::{Equalities, Equality, Term, is_same_term};
use std::alloc::Global;
use twe_base::Memory;

/// The right side of the step, if the term is its left side.
fn replaced(step: Equality, term: Term) -> Term
    ensures { result ≡ replaced step term }
{
    if is_same_term(term, step.left) {
        step.right
    } else {
        term
    }
}

/// The term after all of the steps, one after the other.
fn after_steps(steps: &[Equality], term: Term) -> Term
    ensures { result ≡ after_steps steps.now term }
{
    let mut now = term;
    for step in steps {
        now = replaced(*step, now);
    }
    now
}

/// Whether the term is a literal.
fn is_literal(term: Term) -> bool
    ensures { result ≡ is_literal term }
{
    match term {
        Term::Literal(_) => true,
        Term::First(_) => false,
        Term::Second(_) => false,
    }
}

/// The steps that solve the equalities, if these can hold together. There are at most as many as there are equalities.
fn steps_for(alloc: Global, equalities: &[Equality]) -> Result<Option<Equalities>, Memory>
    ensures { IfOk result (λ found. found ≡ steps_after [] equalities.now) }
{
    let mut steps = Equalities::new(alloc);
    for equality in equalities {
        let left = after_steps(steps.as_slice(), equality.left);
        let right = after_steps(steps.as_slice(), equality.right);
        if is_same_term(left, right) {
            continue;
        }
        if !is_literal(left) {
            steps.push(Equality { left, right })?;
        } else if is_literal(right) {
            return Ok(None);
        } else {
            steps.push(Equality {
                left: right,
                right: left,
            })?;
        }
    }
    Ok(Some(steps))
}

/// Whether all of the equalities can hold together.
pub(crate) fn can_hold(alloc: Global, equalities: &[Equality]) -> Result<bool, Memory>
    ensures { IfOk result (λ answer. answer ≡ can_hold equalities.now) }
{
    let steps = steps_for(alloc, equalities)?;
    Ok(steps.is_some())
}

/// Steps that solve the equalities: for the values that they give all of these hold. If the equalities hold for no values,
/// there are none.
pub fn solution(alloc: Global, equalities: &[Equality]) -> Result<Option<Equalities>, Memory>
    ensures found { IfOk result (λ found. IfSome found (AreSolvedBy equalities.now)) }
    ensures none { IfOk result (λ found. IfNone found (NeverHold equalities.now)) }
{
    steps_for(alloc, equalities)
}

/// The value that the steps give a term: a parameter that they leave open is 0.
pub fn solved_value(steps: &[Equality], term: Term) -> i32
    ensures { result ≡ solved_value steps.now term }
{
    match after_steps(steps, term) {
        Term::Literal(value) => value,
        Term::First(_) => 0,
        Term::Second(_) => 0,
    }
}

/// Whether the equalities have the same terms, in one order.
fn is_same_equality(equality: Equality, other: Equality) -> bool
    ensures { result ≡ same_equality equality other }
{
    is_same_term(equality.left, other.left) && is_same_term(equality.right, other.right)
}

/// Whether the equality is one of these.
fn is_among(said: &[Equality], equality: Equality) -> bool
    ensures { result ≡ list_any (same_equality equality) said.now }
{
    said.iter().any(|other| is_same_equality(equality, *other))
}

/// Whether the equality says nothing new after these: it always holds, or it is one of them.
fn says_nothing_new(said: &[Equality], equality: Equality) -> bool
    ensures { result ≡ says_nothing_new said.now equality }
{
    is_same_term(equality.left, equality.right) || is_among(said, equality)
}

/// The equalities but for those that always hold, each once, where it comes first. There are few of them: a path has at most 32
/// elements.
pub(crate) fn telling(alloc: Global, equalities: &[Equality]) -> Result<Equalities, Memory>
    ensures { IfOk result (λ kept. kept ≡ telling equalities.now) }
{
    let mut kept = Equalities::new(alloc);
    for equality in equalities {
        if !says_nothing_new(kept.as_slice(), *equality) {
            kept.push(*equality)?;
        }
    }
    Ok(kept)
}
