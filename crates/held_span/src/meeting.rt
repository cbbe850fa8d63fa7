//! The pair of declared effects that a hold counts for.
ghost use Rattle.std.specs.Prelude.{◌≡◌, position};
ghost use Rattle.held_span.specs.Pairs.{first_meeting, interferes_with_one, pair_of, pair_of_rows};
ghost use Rattle.effect_sets.specs.Interference.{statically_interferes};

use crate::Hold;
use crate::pair::{DeclaredEffect, EffectPair};
use effect_sets::{Effect, interferes};
use machine_state::TaskRow;

/// Whether the effect interferes with one of the others.
fn interferes_with_one(effect: &Effect, others: &[Effect]) -> bool
    ensures { result ≡ interferes_with_one others.now effect.now }
{
    others.iter().any(|other| interferes(effect, other))
}

/// The number of the first effect that interferes with one of the others.
fn first_with_one(effects: &[Effect], others: &[Effect]) -> Option<usize>
    ensures { result ≡ position (interferes_with_one others.now) effects.now }
{
    effects
        .iter()
        .position(|effect| interferes_with_one(effect, others))
}

/// The number of the first of the others that interferes with the effect.
fn first_of_others(effect: &Effect, others: &[Effect]) -> Option<usize>
    ensures { result ≡ position (statically_interferes effect.now) others.now }
{
    others.iter().position(|other| interferes(effect, other))
}

/// The number of the first effect that interferes with one of the others, and the number of the first of those.
fn first_meeting(effects: &[Effect], others: &[Effect]) -> Option<(usize, usize)>
    ensures { result ≡ first_meeting effects.now others.now }
{
    let at = first_with_one(effects, others)?;
    let effect = effects.get(at)?;
    let other = first_of_others(effect, others)?;
    Some((at, other))
}

/// The pair of effects for which a task with the first row holds one with the second.
fn pair_of_rows(holder: &TaskRow, held: &TaskRow) -> Option<EffectPair>
    ensures { result ≡ pair_of_rows holder.now held.now }
{
    let (effect, other) = first_meeting(
        holder.effects.effects.as_slice(),
        held.effects.effects.as_slice(),
    )?;
    Some(EffectPair {
        holder: DeclaredEffect {
            decl: holder.decl,
            effect,
        },
        held: DeclaredEffect {
            decl: held.decl,
            effect: other,
        },
    })
}

/// The pair that a hold counts for, if the tasks have these rows.
pub(crate) fn pair_of(rows: &[TaskRow], hold: &Hold) -> Option<EffectPair>
    ensures { result ≡ pair_of rows.now hold.now }
{
    let holder = rows.get(hold.holder as usize)?;
    let held = rows.get(hold.task as usize)?;
    pair_of_rows(holder, held)
}
