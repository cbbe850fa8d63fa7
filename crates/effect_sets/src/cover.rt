//! Whether a summary covers an effect.
ghost use Rattle.std.specs.Prelude.{◌≡◌, ◌↔◌, Any, IsTrue};
ghost use Rattle.region_paths.specs.Filled.{filled};
ghost use Rattle.effect_sets.specs.Covers.{EffectWithin, covers, effect_covers};
ghost use Rattle.effect_sets.specs.Filled.{all_filled};

use crate::effects::{Effect, Summary};
use region_paths::includes;

/// Whether the declared effect covers the other: it includes its path, and writes if the other does.
fn covers_one(declared: &Effect, effect: &Effect) -> bool
    ensures { result ≡ effect_covers declared.now effect.now }
{
    includes(&declared.path, &effect.path) && (!effect.write || declared.write)
}

/// Whether some effect of the summary covers the effect.
fn some_covers(s: &Summary, e: &Effect) -> bool
    ensures { result ≡ covers s.now e.now }
{
    s.effects
        .as_slice()
        .iter()
        .any(|declared| covers_one(declared, e))
}

/// Whether some effect of the summary covers the effect: it includes its path, and writes if the effect does. For
/// effects without variables the test is exact: it returns `true` if and only if each concrete path of the effect is
/// one of a single effect of the summary, which writes if the effect does.
pub fn covers(s: &Summary, e: &Effect) -> bool
    ensures exact { result ≡ covers s.now e.now }
    ensures sets { IsTrue (all_filled s.now.effects) → IsTrue (filled e.now.path)
        → IsTrue result ↔ Any (λ declared. EffectWithin declared e.now) s.now.effects }
{
    some_covers(s, e)
}
