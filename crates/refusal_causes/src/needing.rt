//! Effects that a declaration needs at a place, and why it does not have one of them there.
ghost use Rattle.std.specs.Prelude.{◌≡◌, ◌<◌, true, IfNone, IfOk, IfSome, IsTrue, Contains};
ghost use Rattle.std.specs.List.{All};
ghost use Rattle.effect_sets.specs.Covers.{covers};
ghost use Rattle.twe_program.specs.WellFormed.{DeclFits};
ghost use Rattle.effect_check.specs.Acts.{acts_in_all};
ghost use Rattle.effect_check.specs.Covered.{CoveredAt, Does};
ghost use Rattle.refusal_causes.specs.Barring.{IsLack};
ghost use Rattle.refusal_causes.specs.Causes.{IsCauseIn};
ghost use Rattle.refusal_causes.specs.Seeking.{is_at, is_of_needs, needs_at, needs_of};
ghost use Rattle.refusal_causes.specs.inner.Keeping.{IsDeclared, IsKept};

use crate::barring::{SpawnBar, bar_among};
use crate::cause::RuleCause;
use effect_check::{Act, ActKind, ERule};
use effect_sets::{Effect, Effects, Summary, covers};
use std::alloc::Global;
use twe_base::{Memory, Place};
use twe_program::{Decl, Prog};

/// Whether this is the other place.
pub fn is_at(place: Place, other: Place) -> bool
    ensures { result ≡ is_at place other }
{
    place.line == other.line && place.col == other.col
}

/// Whether this is done at the place, and needs effects.
fn needs_at(place: Place, kind: &ActKind) -> bool
    ensures { result ≡ needs_at place kind.now }
{
    match kind {
        ActKind::Touch { place: at, .. } | ActKind::Call { place: at, .. } => is_at(*at, place),
        ActKind::Make {
            spawned,
            place: at,
            ..
        } => *spawned && is_at(*at, place),
        ActKind::Wait { .. } => false,
    }
}

/// The effects that this needs.
pub fn needs_of(alloc: Global, kind: &ActKind) -> Result<Effects, Memory>
    ensures { IfOk result (λ effects. effects ≡ needs_of kind.now) }
{
    match kind {
        ActKind::Touch { effect, .. } => {
            let mut effects = Effects::new(alloc);
            effects.push(effect.copy(alloc)?)?;
            Ok(effects)
        }
        ActKind::Call { effects, .. } | ActKind::Make { effects, .. } => {
            let Summary { effects } = effects.copy(alloc)?;
            Ok(effects)
        }
        ActKind::Wait { .. } => Ok(Effects::new(alloc)),
    }
}

/// The first of the needed effects that no declared one includes, if there is one.
pub fn first_undeclared(
    alloc: Global,
    summary: &Summary,
    needs: &[Effect],
) -> Result<Option<Effect>, Memory>
    ensures found { IfOk result (λ found. IfSome found (λ need.
        Contains needs.now need × ¬ IsTrue (covers summary.now need))) }
    ensures none { IfOk result (λ found. IfNone found (All (IsDeclared summary.now) needs.now)) }
{
    for need in needs {
        if !covers(summary, need) {
            return Ok(Some(need.copy(alloc)?));
        }
    }
    Ok(None)
}

/// Why the declaration does not have one of these effects, which it needs at the point, at this place, if that is so.
fn cause_of_needs(
    alloc: Global,
    p: &Prog,
    decl: &Decl,
    point: u32,
    needs: &[Effect],
    acts: &[Act],
) -> Result<Option<RuleCause>, Memory>
    requires fits { DeclFits p.now decl.now }
    requires here { point < decl.now.body.points }
    requires all { acts.now ≡ acts_in_all p.now decl.now.body.block }
    ensures found { IfOk result (λ found. IfSome found (IsLack p.now true decl.now point needs.now)) }
    ensures none { IfOk result (λ found. IfNone found (All (CoveredAt p.now decl.now point) needs.now)) }
{
    let decl_place = decl.place;
    let undeclared = first_undeclared(alloc, &decl.summary, needs)?;
    if let Some(need) = undeclared {
        let declared = decl.summary.copy(alloc)?;
        return Ok(Some(RuleCause::Undeclared {
            need,
            declared,
            decl_place,
        }));
    }
    let barred = bar_among(alloc, p, decl, point, needs, acts)?;
    match barred {
        None => Ok(None),
        Some(
            SpawnBar {
                need,
                other,
                future_place,
                way,
            },
        ) => Ok(Some(RuleCause::Out {
            need,
            other,
            future_place,
            way,
            decl_place,
        })),
    }
}

/// Why the declaration does not have one of the effects that it needs for this act, if it is done at the place.
pub fn cause_of_lack(
    alloc: Global,
    p: &Prog,
    decl: &Decl,
    rule: ERule,
    place: Place,
    act: &Act,
    acts: &[Act],
) -> Result<Option<RuleCause>, Memory>
    requires of_needs { IsTrue (is_of_needs rule) }
    requires done { Does p.now decl.now act.now.point act.now.kind }
    requires fits { DeclFits p.now decl.now }
    requires all { acts.now ≡ acts_in_all p.now decl.now.body.block }
    ensures found { IfOk result (λ found. IfSome found (IsCauseIn p.now true rule place decl.now)) }
    ensures none { IfOk result (λ found. IfNone found (IsKept p.now rule place decl.now act.now)) }
{
    let _ = rule;
    if !needs_at(place, &act.kind) {
        return Ok(None);
    }
    let needs = needs_of(alloc, &act.kind)?;
    cause_of_needs(alloc, p, decl, act.point, needs.as_slice(), acts)
}
