//! Whether effects cover one another.
ghost use Rattle.std.specs.Prelude.{◌≡◌, IfOk};
ghost use Rattle.effect_sets.specs.Covers.{effect_covers};
ghost use Rattle.summary_comparing.specs.Widest.{covers_some, is_under, not_under};

use effect_sets::{Effect, Effects};
use region_paths::includes;
use std::alloc::Global;
use twe_base::Memory;

/// Whether the first effect covers the second: it includes its path, and writes if the second does.
pub(crate) fn covers_effect(wide: &Effect, effect: &Effect) -> bool
    ensures { result ≡ effect_covers wide.now effect.now }
{
    includes(&wide.path, &effect.path) && (!effect.write || wide.write)
}

/// Whether one of the effects covers this one.
pub(crate) fn is_under(effects: &[Effect], effect: &Effect) -> bool
    ensures { result ≡ is_under effects.now effect.now }
{
    effects.iter().any(|wide| covers_effect(wide, effect))
}

/// Whether this effect covers one of the effects.
pub(crate) fn covers_some(effects: &[Effect], effect: &Effect) -> bool
    ensures { result ≡ covers_some effects.now effect.now }
{
    effects.iter().any(|narrow| covers_effect(effect, narrow))
}

/// Those of the effects that this one does not cover.
pub(crate) fn not_under(alloc: Global, effects: &[Effect], wide: &Effect) -> Result<Effects, Memory>
    ensures { IfOk result (λ left. left ≡ not_under effects.now wide.now) }
{
    let mut left = Effects::new(alloc);
    for effect in effects {
        if !covers_effect(wide, effect) {
            left.push(effect.copy(alloc)?)?;
        }
    }
    Ok(left)
}

/// Equal effects in their own memory.
pub(crate) fn copy_effects(alloc: Global, effects: &[Effect]) -> Result<Effects, Memory>
    ensures { IfOk result (λ copy. copy ≡ effects.now) }
{
    let mut copy = Effects::new(alloc);
    for effect in effects {
        copy.push(effect.copy(alloc)?)?;
    }
    Ok(copy)
}
