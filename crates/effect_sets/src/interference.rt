//! Whether effects and summaries interfere.
ghost use Rattle.std.specs.Prelude.{◌≡◌, ◌↔◌, IsTrue};
ghost use Rattle.std.specs.List.{list_any};
ghost use Rattle.region_paths.specs.Filled.{filled};
ghost use Rattle.effect_sets.specs.Interference.{Interferes, SomeInterfere, statically_interferes, statically_interfere};
ghost use Rattle.effect_sets.specs.Filled.{all_filled};

use crate::effects::{Effect, Summary};
use region_paths::disjoint;

/// Whether one of the effects writes, and their paths are not apart.
fn may_interfere(a: &Effect, b: &Effect) -> bool
    ensures { result ≡ statically_interferes a.now b.now }
{
    (a.write || b.write) && !disjoint(&a.path, &b.path)
}

/// Whether one of the effects writes, and their paths are not apart. For effects without variables the test is exact:
/// it returns `true` if and only if one writes and they have a concrete path in common.
pub fn interferes(a: &Effect, b: &Effect) -> bool
    ensures exact { result ≡ statically_interferes a.now b.now }
    ensures sets { IsTrue (filled a.now.path) → IsTrue (filled b.now.path)
        → IsTrue result ↔ Interferes a.now b.now }
{
    may_interfere(a, b)
}

/// Whether the effect interferes with some effect of the summary.
fn interferes_with_some(a: &Effect, t: &Summary) -> bool
    ensures { result ≡ list_any (λ b. statically_interferes a.now b) t.now.effects }
{
    t.effects.as_slice().iter().any(|b| may_interfere(a, b))
}

/// Whether some effect of one summary interferes with some effect of the other.
fn some_interfere(a: &Summary, b: &Summary) -> bool
    ensures { result ≡ statically_interfere a.now b.now }
{
    a.effects
        .as_slice()
        .iter()
        .any(|effect| interferes_with_some(effect, b))
}

/// Whether some effect of one summary interferes with some effect of the other. For summaries without variables the
/// test is exact: it returns `true` if and only if two such effects have a concrete path in common, and one of them
/// writes.
pub fn summaries_interfere(a: &Summary, b: &Summary) -> bool
    ensures exact { result ≡ statically_interfere a.now b.now }
    ensures sets { IsTrue (all_filled a.now.effects) → IsTrue (all_filled b.now.effects)
        → IsTrue result ↔ SomeInterfere a.now.effects b.now.effects }
{
    some_interfere(a, b)
}
