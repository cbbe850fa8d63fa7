//! The enabled tasks, by the marks that their effects leave.
ghost use Rattle.std.specs.Prelude.{◌≡◌, ◌<◌, ◌↔◌, ◌⊎◌, ℕ, length, IfOk, OnOk};
ghost use Rattle.std.specs.List.{All, Contains};
ghost use Rattle.held_span.specs.declared.marks.EffectMark.{EffectMark as AnyMark};
ghost use Rattle.held_span.specs.inner.Holding.{HasRoomFor, Holds, HoldsOne, IsEntry, IsForMark, IsInSet, IsLowestOf, KeepsRoom, lower};

use crate::EffectMark;
use std::alloc::Global;
use std::collections::BTreeSet;
use twe_base::{List, Memory};

/// For each number a set of tasks.
type TaskSets = List<BTreeSet<u32>>;

/// The enabled tasks, by the marks that their effects leave.
#[derive(Debug, Drop)]
pub(crate) struct Holders {
    /// For each effect the tasks that leave its own mark.
    own: TaskSets,
    /// For each effect the tasks that leave its rival mark.
    rival: TaskSets,
}

/// So many empty sets.
fn empty_sets(alloc: Global, count: usize) -> Result<TaskSets, Memory>
    ensures count { IfOk result (λ sets. length sets ≡ count) }
    ensures none { IfOk result (λ sets. (i t : ℕ) → ¬ IsInSet sets i t) }
{
    let mut sets = List::new(alloc);
    for at in 0..count {
        let _ = at;
        sets.push(BTreeSet::new(alloc))?;
    }
    Ok(sets)
}

/// Adds a task to one of the sets.
fn add(sets: &mut TaskSets, at: u32, task: u32) -> Result<(), Memory>
    requires { at < length sets.old }
    ensures count { OnOk result (length sets.new ≡ length sets.old) }
    ensures added { OnOk result ((i t : ℕ) → (IsInSet sets.new i t ↔ (IsInSet sets.old i t ⊎ IsEntry at task i t))) }
{
    let set = sets.item_mut(at as usize);
    set.insert(task)?;
    Ok(())
}

/// Takes a task out of one of the sets.
fn take_out(sets: &mut TaskSets, at: u32, task: u32)
    requires { at < length sets.old }
    ensures count { length sets.new ≡ length sets.old }
    ensures taken { (i t : ℕ) → (IsInSet sets.new i t ↔ (IsInSet sets.old i t × ¬ IsEntry at task i t)) }
{
    let set = sets.item_mut(at as usize);
    set.remove(&task);
}

/// The lowest task of one of the sets.
fn lowest_in(sets: &TaskSets, at: u32) -> Option<u32>
    ensures { IsLowestOf (IsInSet sets.now at) result }
{
    match sets.get(at as usize) {
        None => None,
        Some(set) => set.first().copied(),
    }
}

/// The lower of two tasks, as far as they are there.
fn lower(a: Option<u32>, b: Option<u32>) -> Option<u32>
    ensures { result ≡ lower a b }
{
    match (a, b) {
        (None, _) => b,
        (Some(_), None) => a,
        (Some(first), Some(second)) => Some(first.min(second)),
    }
}

impl Holders {
    /// No tasks, for marks of so many effects.
    pub(crate) fn new(alloc: Global, effects: usize) -> Result<Self, Memory>
        ensures room { IfOk result (λ holders. HasRoomFor holders effects) }
        ensures none { IfOk result (λ holders. (mark : AnyMark) (t : ℕ) → ¬ Holds holders mark t) }
    {
        Ok(Holders {
            own: empty_sets(alloc, effects)?,
            rival: empty_sets(alloc, effects)?,
        })
    }

    /// Adds a task to those that leave this mark.
    fn add(&mut self, task: u32, mark: EffectMark) -> Result<(), Memory>
        requires { IsForMark self.old mark }
        ensures room { OnOk result (KeepsRoom self.old self.new) }
        ensures added { OnOk result ((m : AnyMark) (t : ℕ)
            → (Holds self.new m t ↔ (Holds self.old m t ⊎ ((t ≡ task) × (m ≡ mark))))) }
    {
        match mark {
            EffectMark::Own(effect) => add(&mut self.own, effect, task),
            EffectMark::Rival(effect) => add(&mut self.rival, effect, task),
        }
    }

    /// Takes a task out of those that leave this mark.
    fn take_out(&mut self, task: u32, mark: EffectMark)
        requires { IsForMark self.old mark }
        ensures room { KeepsRoom self.old self.new }
        ensures taken { (m : AnyMark) (t : ℕ) → (Holds self.new m t ↔ (Holds self.old m t × ¬ ((t ≡ task) × (m ≡ mark)))) }
    {
        match mark {
            EffectMark::Own(effect) => take_out(&mut self.own, effect, task),
            EffectMark::Rival(effect) => take_out(&mut self.rival, effect, task),
        }
    }

    /// Adds a task that is enabled now and leaves these marks.
    pub(crate) fn enter(&mut self, task: u32, marks: &[EffectMark]) -> Result<(), Memory>
        requires { All (IsForMark self.old) marks.now }
        ensures room { OnOk result (KeepsRoom self.old self.new) }
        ensures entered { OnOk result ((m : AnyMark) (t : ℕ)
            → (Holds self.new m t ↔ (Holds self.old m t ⊎ ((t ≡ task) × Contains marks.now m)))) }
    {
        for mark in marks {
            self.add(task, *mark)?;
        }
        Ok(())
    }

    /// Takes a task out that has ended and leaves these marks.
    pub(crate) fn leave(&mut self, task: u32, marks: &[EffectMark])
        requires { All (IsForMark self.old) marks.now }
        ensures room { KeepsRoom self.old self.new }
        ensures left { (m : AnyMark) (t : ℕ)
            → (Holds self.new m t ↔ (Holds self.old m t × ¬ ((t ≡ task) × Contains marks.now m))) }
    {
        for mark in marks {
            self.take_out(task, *mark);
        }
    }

    /// The lowest task that leaves this mark.
    fn lowest_of(&self, mark: EffectMark) -> Option<u32>
        ensures { IsLowestOf (Holds self.now mark) result }
    {
        match mark {
            EffectMark::Own(effect) => lowest_in(&self.own, effect),
            EffectMark::Rival(effect) => lowest_in(&self.rival, effect),
        }
    }

    /// The lowest task that leaves one of these marks.
    pub(crate) fn lowest(&self, marks: &[EffectMark]) -> Option<u32>
        ensures { IsLowestOf (HoldsOne self.now marks.now) result }
    {
        let mut lowest = None;
        for mark in marks {
            lowest = lower(lowest, self.lowest_of(*mark));
        }
        lowest
    }
}
