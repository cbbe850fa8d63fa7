//! Distinct effects, each at its place in the effect tree of a program.
ghost use Rattle.std.specs.Prelude.{◌≡◌, ◌<◌, ◌-◌, ◌^◌, ◌⊎◌, ◌++◌, [], ℕ, length, IfOk, IfSome, IsTrue, OnOk};
ghost use Rattle.std.specs.List.{filter};
ghost use Rattle.effect_sets.specs.declared.effects.Effect.{Effect as AnyEffect};
ghost use Rattle.prefix_tree.specs.Nodes.{path_of};
ghost use Rattle.region_paths.specs.Filled.{filled};
ghost use Rattle.effect_tree.specs.Place.{IsPlace};
ghost use Rattle.held_span.specs.Gathering.{ArePlaced, AreRivalsFrom};
ghost use Rattle.held_span.specs.Rivals.{AreRivals, IsNumberOf, is_rival};
ghost use Rattle.held_span.specs.Tables.{IsListed};

use crate::lists::{empty_lists, put, row_of};
use crate::same::same_effects;
use effect_sets::{Effect, interferes};
use effect_tree::Shape;
use std::alloc::Global;
use twe_base::{List, Memory};
use twe_program::Prog;

/// Distinct effects, each at its place in the effect tree of a program. They are numbered from 0.
#[derive(Debug, Drop)]
pub struct Placed {
    /// The tree.
    pub shape: Shape,
    /// For each node the numbers of the effects that are placed there.
    pub at_nodes: List<List<u32>>,
    /// The effects.
    pub effects: List<Effect>,
    /// The place of each effect.
    pub places: List<u32>,
}

/// Which of the effects with these numbers is found to be written as this one.
fn found_among(effects: &[Effect], numbers: &[u32], effect: &Effect) -> Option<u32>
    ensures { IfSome result (λ number. IsNumberOf effects.now number effect.now) }
{
    for number in numbers {
        if is_number_of(effects, *number, effect) {
            return Some(*number);
        }
    }
    None
}

/// Whether this is found to be the number of an effect.
fn is_number_of(effects: &[Effect], number: u32, effect: &Effect) -> bool
    ensures { IsTrue result → IsNumberOf effects.now number effect.now }
{
    match effects.get(number as usize) {
        None => false,
        Some(other) => same_effects(other, effect),
    }
}

/// Whether the effect of this number interferes with this one.
fn is_rival(effects: &[Effect], effect: &Effect, number: u32) -> bool
    ensures { result ≡ is_rival effects.now effect.now number }
{
    match effects.get(number as usize) {
        None => false,
        Some(other) => interferes(effect, other),
    }
}

/// Adds those of these numbers whose effects interfere with this one.
fn push_rivals(
    rivals: &mut List<u32>,
    effects: &[Effect],
    numbers: &[u32],
    effect: &Effect,
) -> Result<(), Memory>
    ensures { OnOk result (rivals.new ≡ rivals.old ++ filter (is_rival effects.now effect.now) numbers.now) }
{
    for number in numbers {
        if is_rival(effects, effect, *number) {
            rivals.push(*number)?;
        }
    }
    Ok(())
}

impl Placed {
    /// No effects.
    pub(crate) fn new(alloc: Global, p: &Prog) -> Result<Self, Memory>
        ensures placed { IfOk result ArePlaced }
        ensures none { IfOk result (λ placed. placed.effects ≡ []) }
    {
        let shape = Shape::build(alloc, p)?;
        let at_nodes = empty_lists(alloc, shape.nodes())?;
        Ok(Placed {
            shape,
            at_nodes,
            effects: List::new(alloc),
            places: List::new(alloc),
        })
    }

    /// The number of an effect, which is added if it is not found. After `Memory` nothing is known of the effects, which can only
    /// be dropped. It fails, too, if 32 bits cannot number the effects.
    pub(crate) fn number_of(&mut self, alloc: Global, effect: &Effect) -> Result<u32, Memory>
        requires placed { ArePlaced self.old }
        requires filled { IsTrue (filled effect.now.path) }
        ensures placed { OnOk result (ArePlaced self.new) }
        ensures number { IfOk result (λ number. IsNumberOf self.new.effects number effect.now) }
        ensures kept { OnOk result ((n : ℕ) (other : AnyEffect) → IsNumberOf self.old.effects n other
            → IsNumberOf self.new.effects n other) }
    {
        let place = self.shape.place(&effect.path);
        if let Some(number) = self.found_at(place, effect) {
            return Ok(number);
        }
        if self.effects.len() >= u32::MAX as usize {
            return Err(Memory::of_uncountable(self.effects.as_slice()));
        }
        self.add(alloc, place, effect)
    }

    /// The number of an effect among those that are placed at a node, if it is found.
    fn found_at(&self, place: u32, effect: &Effect) -> Option<u32>
        ensures { IfSome result (λ number. IsNumberOf self.now.effects number effect.now) }
    {
        match self.at_nodes.get(place as usize) {
            None => None,
            Some(numbers) => found_among(self.effects.as_slice(), numbers.as_slice(), effect),
        }
    }

    /// Adds an effect with this place, and returns its number.
    fn add(&mut self, alloc: Global, place: u32, effect: &Effect) -> Result<u32, Memory>
        requires placed { ArePlaced self.old }
        requires filled { IsTrue (filled effect.now.path) }
        requires there { place < length self.old.shape }
        requires place { IsPlace self.old.shape effect.now.path (path_of self.old.shape place) }
        requires room { length self.old.effects < 2 ^ 32 - 1 }
        ensures placed { OnOk result (ArePlaced self.new) }
        ensures number { IfOk result (λ number. IsNumberOf self.new.effects number effect.now) }
        ensures kept { OnOk result ((n : ℕ) (other : AnyEffect) → IsNumberOf self.old.effects n other
            → IsNumberOf self.new.effects n other) }
    {
        let number = self.effects.len() as u32;
        self.effects.push(effect.copy(alloc)?)?;
        self.places.push(place)?;
        put(&mut self.at_nodes, place, number)?;
        Ok(number)
    }

    /// The effects that interfere with this one, among those that are placed at this node or above it.
    fn rivals_from(&self, alloc: Global, effect: &Effect, node: u32) -> Result<List<u32>, Memory>
        requires placed { ArePlaced self.now }
        requires there { node < length self.now.shape }
        ensures { IfOk result (AreRivalsFrom self.now effect.now node) }
    {
        let effects = self.effects.as_slice();
        let mut rivals = List::new(alloc);
        let mut at = Some(node);
        'climbing: while let Some(n) = at {
            push_rivals(&mut rivals, effects, row_of(&self.at_nodes, n), effect)?;
            at = self.shape.parent(n);
        }
        Ok(rivals)
    }

    /// For each effect those that interfere with it, among the ones that are placed where it is or above.
    pub(crate) fn all_rivals(&self, alloc: Global) -> Result<List<List<u32>>, Memory>
        requires { ArePlaced self.now }
        ensures as_many { IfOk result (λ rivals. length rivals ≡ length self.now.effects) }
        ensures sound { IfOk result (λ rivals. (a b : ℕ) → IsListed rivals a b → AreRivals self.now.effects a b) }
        ensures complete { IfOk result (λ rivals. (a b : ℕ) → AreRivals self.now.effects a b
            → IsListed rivals a b ⊎ IsListed rivals b a) }
    {
        let mut lists = List::new(alloc);
        for effect in self.effects.as_slice() {
            let place = self.places.as_slice()[lists.len()];
            lists.push(self.rivals_from(alloc, effect, place)?)?;
        }
        Ok(lists)
    }
}
