//! Compares declared summaries with what is needed.
ghost use Rattle.std.specs.Prelude.{◌≡◌, IfOk};
ghost use Rattle.summary_comparing.specs.Comparisons.{AreComparisons, IsComparison, comparison_of, idle_effects, is_needed, is_wider, is_within_needs};

use crate::comparison::Comparison;
use crate::covering::{copy_effects, covers_some, is_under};
use crate::needed::{body_needs, child_needs};
use crate::widest::few_widest;
use effect_sets::{Effect, Effects, Summary};
use std::alloc::Global;
use twe_base::{List, Memory};
use twe_program::{Decl, Prog};

/// Comparisons of declarations, in their order.
pub(crate) type Comparisons = List<Comparison>;

/// Whether something is needed that the effect covers.
fn is_needed(body: &[Effect], children: &[Effect], effect: &Effect) -> bool
    ensures { result ≡ is_needed body.now children.now effect.now }
{
    covers_some(body, effect) || covers_some(children, effect)
}

/// Whether something is needed that covers the effect.
fn is_within_needs(body: &[Effect], children: &[Effect], effect: &Effect) -> bool
    ensures { result ≡ is_within_needs body.now children.now effect.now }
{
    is_under(body, effect) || is_under(children, effect)
}

/// The declared effects that nothing needs.
fn idle_effects(
    alloc: Global,
    body: &[Effect],
    children: &[Effect],
    declared: &[Effect],
) -> Result<Effects, Memory>
    ensures { IfOk result (λ idle. idle ≡ idle_effects body.now children.now declared.now) }
{
    let mut idle = Effects::new(alloc);
    for effect in declared {
        if !is_needed(body, children, effect) {
            idle.push(effect.copy(alloc)?)?;
        }
    }
    Ok(idle)
}

/// Whether the declared effects are wider than what is needed.
fn is_wider(body: &[Effect], children: &[Effect], declared: &[Effect]) -> bool
    ensures { result ≡ is_wider body.now children.now declared.now }
{
    declared.iter().any(|effect| !(is_needed(body, children, effect)
        && is_within_needs(body, children, effect)))
}

/// How declared effects compare with what a body needs and its spawned children declare, of which these are the widest.
pub(crate) fn comparison_of(
    alloc: Global,
    body: &[Effect],
    children: &[Effect],
    declared: &[Effect],
    needed: Effects,
    spawned: Effects,
) -> Result<Comparison, Memory>
    ensures { IfOk result (λ comparison. comparison
        ≡ comparison_of body.now children.now declared.now needed spawned) }
{
    if !is_wider(body, children, declared) {
        return Ok(Comparison::Exact);
    }
    let idle = idle_effects(alloc, body, children, declared)?;
    let declares = copy_effects(alloc, declared)?;
    Ok(Comparison::Wider {
        declares,
        needed,
        children: spawned,
        idle,
    })
}

/// How the declaration compares with what it needs, if the methods count with these summaries for those that call them.
fn compare(
    alloc: Global,
    p: &Prog,
    summaries: &[Summary],
    decl: &Decl,
) -> Result<Comparison, Memory>
    ensures { IfOk result (IsComparison p.now summaries.now decl.now) }
{
    let body = body_needs(alloc, p, summaries, decl)?;
    let children = child_needs(alloc, p, decl)?;
    let needed = few_widest(alloc, body.as_slice())?;
    let spawned = few_widest(alloc, children.as_slice())?;
    let Some(needed) = needed else {
        return Ok(Comparison::TooMany);
    };
    let Some(spawned) = spawned else {
        return Ok(Comparison::TooMany);
    };
    comparison_of(
        alloc,
        body.as_slice(),
        children.as_slice(),
        decl.summary.effects.as_slice(),
        needed,
        spawned,
    )
}

/// The same for each of these declarations.
pub(crate) fn compare_all(
    alloc: Global,
    p: &Prog,
    summaries: &[Summary],
    decls: &[Decl],
) -> Result<Comparisons, Memory>
    ensures { IfOk result (AreComparisons p.now summaries.now decls.now) }
{
    let mut comparisons = Comparisons::new(alloc);
    for decl in decls {
        comparisons.push(compare(alloc, p, summaries, decl)?)?;
    }
    Ok(comparisons)
}
