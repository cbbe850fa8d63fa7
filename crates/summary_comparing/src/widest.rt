//! The widest of some effects. Each pass over what is left finds one of them, and at most 9 are looked for.
ghost use Rattle.std.specs.Prelude.{◌≡◌, ◌<◌, ◌+◌, length, IfNone, IfOk, IfSome, OnOk};
ghost use Rattle.summary_comparing.specs.Widest.{AreFewWidest, HasManyWidest};
ghost use Rattle.summary_comparing.specs.inner.Keeping.{IsTopAt, KeepsWidest};

use crate::covering::{copy_effects, covers_effect, not_under};
use effect_sets::{Effect, Effects};
use std::alloc::Global;
use twe_base::Memory;

/// How many widest effects are looked for: one more than a summary may have.
const MOST_SOUGHT: usize = 9;

/// The place of a widest one of the effects.
fn top_place(effects: &[Effect]) -> usize
    requires { 0 < length effects.now }
    ensures inside { result < length effects.now }
    ensures top { IsTopAt effects.now result }
{
    let mut top = 0;
    for (at, effect) in effects.iter().enumerate() {
        if covers_effect(effect, &effects[top]) {
            top = at;
        }
    }
    top
}

/// Keeps a widest one of those that are left, and gives those that it does not cover.
fn keep_one(
    alloc: Global,
    effects: &[Effect],
    kept: &mut Effects,
    left: &[Effect],
) -> Result<Effects, Memory>
    requires some { 0 < length left.now }
    requires keeps { KeepsWidest effects.now kept.old left.now }
    ensures more { OnOk result (length kept.new ≡ length kept.old + 1) }
    ensures keeps { IfOk result (KeepsWidest effects.now kept.new) }
{
    let _ = effects;
    let place = top_place(left);
    let top = left[place].copy(alloc)?;
    let others = not_under(alloc, left, &top)?;
    kept.push(top)?;
    Ok(others)
}

/// Those of the effects that no other covers, or `None` if there are more than 8 of them.
pub(crate) fn few_widest(alloc: Global, effects: &[Effect]) -> Result<Option<Effects>, Memory>
    ensures few { IfOk result (λ found. IfSome found (AreFewWidest effects.now)) }
    ensures many { IfOk result (λ found. IfNone found (HasManyWidest effects.now)) }
{
    let mut kept = Effects::new(alloc);
    let mut left = copy_effects(alloc, effects)?;
    for count in 0..MOST_SOUGHT {
        let _ = count;
        if left.is_empty() {
            return Ok(Some(kept));
        }
        left = keep_one(alloc, effects, &mut kept, left.as_slice())?;
    }
    Ok(None)
}
