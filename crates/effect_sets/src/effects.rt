//! Effects, and the summary of a declaration.
ghost use Rattle.std.specs.Prelude.{◌≡◌, IfOk, IsTrue};
ghost use Rattle.region_paths.specs.Filled.{filled, has_args, no_var};
ghost use Rattle.effect_sets.specs.Filled.{all_filled, all_have_args, fill_effect, fill_summary};

use region_paths::{Elem, Path};
use std::alloc::Global;
use twe_base::{List, Memory};

/// A read or a write of the regions of a path. A write covers reads too.
#[derive(Debug, Drop)]
pub struct Effect {
    /// Whether the regions are written.
    pub write: bool,
    /// The regions.
    pub path: Path,
}

/// Effects in order.
pub type Effects = List<Effect>;

/// The effects that a task or a method declares, in the order of its text. A pure one has none.
#[derive(Debug, Drop)]
pub struct Summary {
    /// The effects.
    pub effects: Effects,
}

impl Effect {
    /// The effect with each variable replaced by the argument of its number. An effect without variables stays.
    pub fn fill(&self, alloc: Global, args: &[Elem]) -> Result<Effect, Memory>
        ensures exact { IfOk result (λ effect. effect ≡ fill_effect args.now self.now) }
        ensures complete { IsTrue (has_args args.now self.now.path) → IsTrue (no_var args.now)
            → IfOk result (λ effect. IsTrue (filled effect.path)) }
        ensures kept { IsTrue (filled self.now.path) → IfOk result (λ effect. effect ≡ self.now) }
    {
        let path = self.path.fill(alloc, args)?;
        Ok(Effect {
            write: self.write,
            path,
        })
    }

    /// An equal effect in its own memory.
    pub fn copy(&self, alloc: Global) -> Result<Effect, Memory>
        ensures { IfOk result (λ effect. effect ≡ self.now) }
    {
        let path = self.path.copy(alloc)?;
        Ok(Effect {
            write: self.write,
            path,
        })
    }
}

impl Summary {
    /// The summary with each variable replaced by the argument of its number. A summary without variables stays.
    pub fn fill(&self, alloc: Global, args: &[Elem]) -> Result<Summary, Memory>
        ensures exact { IfOk result (λ summary. summary ≡ fill_summary args.now self.now) }
        ensures complete { IsTrue (all_have_args args.now self.now.effects) → IsTrue (no_var args.now)
            → IfOk result (λ summary. IsTrue (all_filled summary.effects)) }
        ensures kept { IsTrue (all_filled self.now.effects) → IfOk result (λ summary. summary ≡ self.now) }
    {
        let mut effects = Effects::with_capacity(alloc, self.effects.len())?;
        for effect in self.effects.as_slice() {
            effects.push(effect.fill(alloc, args)?)?;
        }
        Ok(Summary { effects })
    }

    /// An equal summary in its own memory.
    pub fn copy(&self, alloc: Global) -> Result<Summary, Memory>
        ensures { IfOk result (λ summary. summary ≡ self.now) }
    {
        let mut effects = Effects::with_capacity(alloc, self.effects.len())?;
        for effect in self.effects.as_slice() {
            effects.push(effect.copy(alloc)?)?;
        }
        Ok(Summary { effects })
    }
}
