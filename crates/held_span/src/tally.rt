//! How often and how long each pair has held tasks so far.
ghost use Rattle.std.specs.Prelude.{◌≡◌, ◌<◌, ◌+◌, ◌-◌, ◌++◌, ◌∷◌, ◌^◌, [], ℕ, List as AnyList, Some, IfOk, OnOk};
ghost use Rattle.std.specs.BTreeMap as tree;
ghost use Rattle.held_span.specs.declared.hold.Hold.{Hold as AnyHold};
ghost use Rattle.machine_state.specs.declared.state.TaskRow.{TaskRow as AnyRow};
ghost use Rattle.held_span.specs.inner.Tallies.{CanCount, HasMore, IsSmall, IsTally, counted_at};

use crate::Hold;
use crate::meeting::pair_of;
use crate::pair::{EffectPair, HeldPair};
use machine_state::TaskRow;
use std::alloc::Global;
use std::collections::BTreeMap;
use twe_base::Memory;

/// How often and how long each pair has held tasks so far.
#[derive(Debug, Drop)]
pub(crate) struct HoldTally {
    /// The pairs that have held tasks, in order.
    pairs: BTreeMap<EffectPair, HeldPair>,
}

impl HoldTally {
    /// No pair has held a task.
    fn new(alloc: Global) -> Self
        ensures tally { (rows : AnyList AnyRow) → IsTally rows [] result }
        ensures small { IsSmall 0 result }
    {
        HoldTally {
            pairs: BTreeMap::new(alloc),
        }
    }

    /// How often and how long the pair has held tasks.
    fn counted_at(&self, pair: EffectPair) -> HeldPair
        ensures { result ≡ counted_at self.now pair }
    {
        match self.pairs.get(&pair) {
            Some(counted) => *counted,
            None => HeldPair {
                pair,
                admissions: 0,
                time: 0,
            },
        }
    }

    /// Counts a hold of this time for the pair.
    fn add(&mut self, pair: EffectPair, time: u64) -> Result<(), Memory>
        requires { CanCount self.old }
        ensures more { OnOk result (HasMore self.old self.new pair time) }
        ensures small { (n : ℕ) → IsSmall n self.old → OnOk result (IsSmall (n + 1) self.new) }
    {
        let before = self.counted_at(pair);
        let counted = HeldPair {
            pair: before.pair,
            admissions: before.admissions + 1,
            time: before.time + u128::from(time),
        };
        self.pairs.insert(pair, counted)?;
        Ok(())
    }

    /// Counts a hold for its pair, if it has one.
    fn note(&mut self, rows: &[TaskRow], hold: &Hold) -> Result<(), Memory>
        requires { CanCount self.old }
        ensures tally { (before : AnyList AnyHold) → IsTally rows.now before self.old
            → OnOk result (IsTally rows.now (before ++ hold.now ∷ []) self.new) }
        ensures small { (n : ℕ) → IsSmall n self.old → OnOk result (IsSmall (n + 1) self.new) }
    {
        match pair_of(rows, hold) {
            None => Ok(()),
            Some(pair) => self.add(pair, hold.time),
        }
    }

    /// The pairs for which these holds count, if the tasks have these rows.
    pub(crate) fn of_holds(alloc: Global, rows: &[TaskRow], holds: &[Hold]) -> Result<Self, Memory>
        ensures { IfOk result (IsTally rows.now holds.now) }
    {
        let mut tally = HoldTally::new(alloc);
        for hold in holds {
            tally.note(rows, hold)?;
        }
        Ok(tally)
    }

    /// The pairs that have held tasks, in order.
    pub(crate) fn into_pairs(self, alloc: Global) -> Result<Vec<HeldPair>, Memory>
        ensures { IfOk result (λ pairs. pairs.items ≡ tree.values self.pairs) }
    {
        let pairs: Vec<HeldPair> = self.pairs.into_values().collect(alloc)?;
        Ok(pairs)
    }
}
