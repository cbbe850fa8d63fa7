//! Making the decks of all workers.
ghost use Rattle.std.specs.Prelude.{◌≡◌, ◌+◌, length, map, All, IfOk, OnOk};
ghost use Rattle.steal_pool.specs.DeckEnds.{AreNew};
ghost use Rattle.steal_pool.specs.inner.Making.{met, end_on};

use crate::deck::Deck;
use crate::other::Other;
use crate::own::Own;
use std::alloc::Global;
use twe_base::{List, Memory};

/// The decks of all workers, in the order of the workers' numbers. Each is moved to the thread of its worker.
pub type Decks = List<Deck>;

/// Empty decks for `workers` workers. Only numbers below `bound` can be pushed.
pub fn make_decks(alloc: Global, workers: u32, bound: u32) -> Result<Decks, Memory>
    ensures new { IfOk result (AreNew workers bound) }
    ensures each { IfOk result (All (λ ends. (ends.bound ≡ bound) × (length ends.hands ≡ workers))) }
{
    let mut decks = Vec::new(alloc);
    for number in 0..workers {
        let mut own = Own::open(alloc, bound)?;
        let others = meet_all(alloc, decks.as_mut_slice(), &mut own)?;
        decks.push(Deck::new(number, own, others))?;
    }
    Ok(Decks::from(decks))
}

// Gives each worker an end of the new deck, and returns an end of each deck for the new worker.
fn meet_all(alloc: Global, decks: &mut [Deck], own: &mut Own) -> Result<Vec<Other>, Memory>
    requires { All (λ ends. ends.bound ≡ own.old.hand.bound) decks.old }
    ensures own { own.new.deck ≡ own.old.deck }
    ensures shared { OnOk result (own.new.hand ≡ record own.old.hand { takers = own.old.hand.takers + length decks.old }) }
    ensures met { OnOk result (decks.new ≡ map (met own.old.deck own.old.hand.bound) decks.old) }
    ensures ends { IfOk result (λ others. others.items ≡ map (end_on own.old.hand.bound) decks.old) }
{
    let mut others = Vec::new(alloc);
    for deck in decks.iter_mut() {
        let other = deck.meet(own)?;
        others.push(other)?;
    }
    Ok(others)
}
