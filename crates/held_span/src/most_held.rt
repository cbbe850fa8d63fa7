//! The pairs that held most.
ghost use Rattle.std.specs.Prelude.{◌≡◌, IfOk, OnOk, take};
ghost use Rattle.held_span.specs.MostHeld.{HeldMost};
ghost use Rattle.held_span.specs.inner.Ranks.{place_of, ranked, with_pair};

use crate::Hold;
use crate::pair::HeldPair;
use crate::tally::HoldTally;
use machine_state::TaskRow;
use std::alloc::Global;
use twe_base::{List, Memory};

/// How many of the first pairs held no shorter than so long.
fn place_of(pairs: &[HeldPair], time: u128) -> usize
    ensures { result ≡ place_of pairs.now time }
{
    for (at, pair) in pairs.iter().enumerate() {
        if pair.time < time {
            return at;
        }
    }
    pairs.len()
}

/// Adds a pair after those that held no shorter, and keeps the first three.
fn offer(most: &mut Vec<HeldPair>, pair: HeldPair) -> Result<(), Memory>
    ensures { OnOk result (most.new.items ≡ take 3 (with_pair most.old.items pair)) }
{
    let at = place_of(most.as_slice(), pair.time);
    most.insert(at, pair)?;
    most.truncate(3);
    Ok(())
}

/// Of the pairs the three that held most, those that held as long in the order in which they come.
fn first_three(alloc: Global, pairs: &[HeldPair]) -> Result<List<HeldPair>, Memory>
    ensures { IfOk result (λ most. most ≡ take 3 (ranked pairs.now)) }
{
    let mut most = Vec::new(alloc);
    for pair in pairs {
        offer(&mut most, *pair)?;
    }
    Ok(List::from(most))
}

/// The pairs of declared effects that held most in these holds of tasks that have these rows: at most three, the one that held
/// for longest first. Of those that held as long the one with the lower numbers comes first.
///
/// A hold counts for one pair: for the first effect of the holder that interferes with one of the held task, and the first of
/// those.
pub fn held_pairs(
    alloc: Global,
    tasks: &[TaskRow],
    holds: &[Hold],
) -> Result<List<HeldPair>, Memory>
    ensures { IfOk result (HeldMost tasks.now holds.now) }
{
    let tally = HoldTally::of_holds(alloc, tasks, holds)?;
    let pairs = tally.into_pairs(alloc)?;
    first_three(alloc, pairs.as_slice())
}
