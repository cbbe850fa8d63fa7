//! A worker's access to the decks: to its own as the owner, and to the others' as a thief.
ghost use Rattle.std.specs.Prelude.{◌≢◌, ◌≡◌, ◌<◌, ◌≤◌, length, IfSome, IfNone, IfOk, OnOk, OnErr};
ghost use Rattle.steal_pool.specs.DeckEnds.{hand_at, Pushed, Taken, FoundEmpty};
ghost use Rattle.steal_pool.specs.inner.Single.{ends_of, AgreeOnBound, IsAt};
ghost use Rattle.steal_pool.specs.inner.Making.{met, end_on};
ghost use Rattle.steal_pool.specs.Hand.{sharing};

use crate::other::Other;
use crate::own::{FIRST_ROOM, Own};
use std::marker::Model;
use std::sync::Wait;
use twe_base::Memory;

/// One worker's access to all decks: it owns one of them and can steal from the others.
///
/// A deck is first in, first out. Only its owner pushes to it; every worker can take from it, and each number is taken
/// at most once. [`make_decks`](crate::make_decks) makes these values, and each belongs to one thread at a time.
#[derive(Drop)]
pub struct Deck {
    number: u32,
    own: Own,
    // In the order of the decks' numbers, without this worker's own.
    others: Vec<Other>,
}

impl Model for Deck {
    ghost use Rattle.steal_pool.specs.DeckEnds.{DeckEnds};
    ghost use Rattle.steal_pool.specs.inner.Single.{ends_of, AgreeOnBound};

    ghost Value = { DeckEnds };

    ghost view = { λ deck. ends_of deck.number deck.own deck.others.items };

    ghost invariant = { λ deck. AgreeOnBound deck.number deck.own deck.others.items };
}

impl Deck {
    // The access of the worker with this number: its own deck, and its ends of the others' in order.
    pub(crate) fn new(number: u32, own: Own, others: Vec<Other>) -> Self
        requires { AgreeOnBound number own others.items }
        ensures { result ≡ ends_of number own others.items }
    {
        Deck {
            number,
            own,
            others,
        }
    }

    // Adds an end of a new deck after all others, and returns an end of this worker's own deck for the new worker.
    pub(crate) fn meet(&mut self, own: &mut Own) -> Result<Other, Memory>
        requires { own.old.hand.bound ≡ self.old.bound }
        ensures own { own.new.deck ≡ own.old.deck }
        ensures shared { OnOk result (own.new.hand ≡ sharing own.old.hand) }
        ensures met { OnOk result (self.new ≡ met own.old.deck self.old.bound self.old) }
        ensures end { IfOk result (λ other. other ≡ end_on self.old.bound self.old) }
    {
        let theirs = own.share()?;
        let mine = self.own.share()?;
        self.others.push(theirs)?;
        Ok(mine)
    }

    /// The worker's number, which is also the number of its own deck.
    pub fn number(&self) -> u32
        ensures { result ≡ self.now.number }
    {
        self.number
    }

    /// The number of decks, including this worker's own.
    pub fn count(&self) -> usize
        ensures { result ≡ length self.now.hands }
    {
        self.others.len() + 1
    }

    /// Pushes a number below the bound at the back of the worker's own deck.
    ///
    /// The room of a number that was taken is used again. The deck takes memory for more room only if none is free: it
    /// is full, or a thief has yet to leave the place of a number that it took. If there is no memory then, or if the
    /// deck has come to the limits of the deque under it, to which no run comes, it returns `Memory`, and nothing has
    /// changed. The first `FIRST_ROOM` pushes succeed.
    pub fn push(&mut self, number: u32) -> Result<(), Memory>
        requires below { number < self.old.bound }
        ensures ok { OnOk result (Pushed self.old self.new number) }
        ensures err { OnErr result (self.new ≡ self.old) }
        ensures room { OnErr result (FIRST_ROOM ≤ length (hand_at self.old self.old.number).pushed) }
    {
        self.own.push(number)
    }

    /// Takes the number at the front of the worker's own deck. It takes no memory.
    ///
    /// It returns `None` if it finds the deck empty. What is proved of `None` is weaker: this worker knows nothing that
    /// rules out an empty deck (`FoundEmpty`).
    pub fn pop(&mut self) -> Option<u32>
        ensures some { IfSome result (Taken self.old self.new self.old.number) }
        ensures none { IfNone result (FoundEmpty self.old self.new self.old.number) }
    {
        self.own.pop()
    }

    /// Takes the number at the front of the deck with the number `from`. It tries again for as long as other workers
    /// are faster, and takes no memory.
    ///
    /// It returns `None` if it finds that deck empty. What is proved of `None` is weaker: this worker knows nothing
    /// that rules out that the deck is empty (`FoundEmpty`).
    pub fn steal(&mut self, rt: &impl Wait, from: u32) -> Option<u32>
        requires { from < length self.old.hands }
        ensures some { IfSome result (Taken self.old self.new from) }
        ensures none { IfNone result (FoundEmpty self.old self.new from) }
    {
        if from == self.number {
            return self.own.pop();
        }
        let place = place_of(self.number, from);
        self.others[place].steal(rt)
    }
}

// The index of a deck's end among those of a worker that does not own it.
fn place_of(number: u32, deck: u32) -> usize
    requires { deck ≢ number }
    ensures { IsAt number deck result }
{
    if deck < number {
        deck as usize
    } else {
        deck as usize - 1
    }
}
