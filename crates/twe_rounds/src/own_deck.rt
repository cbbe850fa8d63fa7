//! A worker's access to the decks, which takes from its own deck first and then from the others in turn.
ghost use Rattle.std.specs.Prelude.{◌≡◌};

use std::sync::Wait;
use steal_pool::Deck;

/// The largest number of workers.
const MAX_WORKERS: u32 = 64;

/// A worker's access to the decks, and the bound of all their numbers.
#[derive(Drop)]
pub struct OwnDeck {
    deck: Deck,
    bound: u32,
    ghost bounded: { deck.bound ≡ bound },
}

impl OwnDeck {
    /// The access to decks with this bound.
    pub fn new(deck: Deck, bound: u32) -> Self
        requires { deck.bound ≡ bound }
    {
        OwnDeck { deck, bound }
    }

    /// Pushes a number to the worker's own deck, and returns whether it did. It does not if the number is not below the
    /// bound, or if there is no memory for it.
    pub fn push(&mut self, number: u32) -> bool {
        number < self.bound && self.deck.push(number).is_ok()
    }

    /// Takes a number: from the worker's own deck, or else from the first of the others that has one.
    pub fn take<R: Wait>(&mut self, rt: &R) -> Option<u32> {
        match self.deck.pop() {
            Some(number) => Some(number),
            None => steal_in_turn(rt, &mut self.deck),
        }
    }
}

/// Steals from the first of the others' decks that has a number. It begins with the deck after the worker's own.
fn steal_in_turn<R: Wait>(rt: &R, deck: &mut Deck) -> Option<u32>
    ensures { deck.new.bound ≡ deck.old.bound }
{
    for step in 1..MAX_WORKERS {
        let from = deck_after(deck.number(), step, deck.count())?;
        if let Some(number) = steal_from(rt, deck, from) {
            return Some(number);
        }
    }
    None
}

/// The deck that comes so many steps after this one, or `None` if there are not so many others.
fn deck_after(number: u32, step: u32, count: usize) -> Option<u32> {
    let count = u32::try_from(count).ok()?;
    if step >= count {
        return None;
    }
    Some(((u64::from(number) + u64::from(step)) % u64::from(count)) as u32)
}

/// Steals from a deck, if there is such a deck and it is not empty.
fn steal_from<R: Wait>(rt: &R, deck: &mut Deck, from: u32) -> Option<u32>
    ensures { deck.new.bound ≡ deck.old.bound }
{
    if from as usize >= deck.count() {
        return None;
    }
    deck.steal(rt, from)
}
