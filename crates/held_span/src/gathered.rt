//! Lists of effects, one after another.
ghost use Rattle.std.specs.Prelude.{◌≡◌, ◌∷◌, ◌++◌, [], ℕ, List as AnyList, IfOk, IsTrue, OnOk};
ghost use Rattle.effect_sets.specs.declared.effects.Effect.{Effect as AnyEffect};
ghost use Rattle.effect_sets.specs.Filled.{all_filled};
ghost use Rattle.held_span.specs.Gathering.{AreGathered, ArePlaced, IsGathering};
ghost use Rattle.held_span.specs.Marks.{AreMarksOf};
ghost use Rattle.held_span.specs.Rivals.{AreNumbersOf, EffectList, IsNumberOf};

use crate::marks::EffectMarks;
use crate::placed::Placed;
use effect_sets::Effect;
use std::alloc::Global;
use twe_base::{List, Memory};
use twe_program::Prog;

/// Lists of effects, whose distinct effects are kept at their places. The lists are numbered from 0 in the order in which they
/// were added.
#[derive(Debug, Drop)]
pub struct Gathered {
    /// The distinct effects.
    pub placed: Placed,
    /// For each list the numbers of its effects.
    pub lists: List<List<u32>>,
}

/// The numbers of these effects, those of which are added that are not found.
fn numbers_of(placed: &mut Placed, alloc: Global, effects: &[Effect]) -> Result<List<u32>, Memory>
    requires placed { ArePlaced placed.old }
    requires filled { IsTrue (all_filled effects.now) }
    ensures placed { OnOk result (ArePlaced placed.new) }
    ensures numbers { IfOk result (λ numbers. AreNumbersOf placed.new.effects numbers effects.now) }
    ensures kept { OnOk result ((n : ℕ) (other : AnyEffect) → IsNumberOf placed.old.effects n other
        → IsNumberOf placed.new.effects n other) }
{
    let mut numbers = List::new(alloc);
    for effect in effects {
        numbers.push(placed.number_of(alloc, effect)?)?;
    }
    Ok(numbers)
}

impl Gathered {
    /// No lists, for effects in a program.
    pub fn new(alloc: Global, p: &Prog) -> Result<Self, Memory>
        ensures { IfOk result (AreGathered []) }
    {
        Ok(Gathered {
            placed: Placed::new(alloc, p)?,
            lists: List::new(alloc),
        })
    }

    /// Adds a list, whose effects have no variables. After `Memory` nothing is known of the lists, which can only be dropped.
    pub fn add(&mut self, alloc: Global, effects: &[Effect]) -> Result<(), Memory>
        requires gathering { IsGathering self.old }
        requires filled { IsTrue (all_filled effects.now) }
        ensures { (lists : AnyList EffectList) → AreGathered lists self.old
            → OnOk result (AreGathered (lists ++ effects.now ∷ []) self.new) }
    {
        let numbers = numbers_of(&mut self.placed, alloc, effects)?;
        self.lists.push(numbers)?;
        Ok(())
    }

    /// The marks for the lists. Each distinct effect is compared with those at its place and above it.
    pub fn into_marks(self, alloc: Global) -> Result<EffectMarks, Memory>
        requires { IsGathering self }
        ensures { (lists : AnyList EffectList) → AreGathered lists self → IfOk result (AreMarksOf lists) }
    {
        let Gathered { placed, lists } = self;
        let rivals = placed.all_rivals(alloc)?;
        Ok(EffectMarks { lists, rivals })
    }
}
