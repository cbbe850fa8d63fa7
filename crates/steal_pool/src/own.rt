//! The owner's end of a deck: it pushes numbers at the back and takes them at the front.
ghost use Rattle.std.specs.Prelude.{◌≡◌, ◌^◌, ◌<◌, ◌≤◌, [], ◌∷◌, length, IfOk, IfSome, IfNone, OnOk, OnErr};
ghost use Rattle.crossbeam_deque.specs.Handles.{worker_view, worker_port, worker_index, SameWorker};
ghost use Rattle.steal_pool.specs.Hand.{owner_of, guest_of, sharing};
ghost use Rattle.steal_pool.specs.Stands.{Joins, Leaves, WasEmpty};

use crate::law::{Bound, Bounding, Hand, Joined, Law, Left, Sharing};
use crate::other::Other;
use crossbeam_deque::Worker;
use std::alloc::{AllocError, Global};
use std::marker::{Brand, Model};
use twe_base::Memory;

type Owner = Worker<u32, Global, Hand, Law>;

/// How many numbers can be pushed to a deck before it may have to grow.
pub const FIRST_ROOM: usize = 256;

/// The owner's end of a deck.
#[derive(Drop)]
pub struct Own {
    worker: Owner,
}

impl Model for Own {
    ghost use Rattle.std.specs.Prelude.{◌≡◌, ◌≤◌, true, length};
    ghost use Rattle.crossbeam_deque.specs.Handles.{worker_deque, worker_view, worker_port, worker_flavor, worker_index, worker_capacity};
    ghost use Rattle.steal_pool.specs.declared.own.TheConstants.{FIRST_ROOM};
    ghost use Rattle.steal_pool.specs.inner.Single.{DeckEnd};

    ghost Value = { DeckEnd };

    ghost view = { λ own. record { deck = (worker_deque own.worker).0; hand = worker_view own.worker } };

    ghost invariant = { λ own.
        (worker_flavor own.worker ≡ 0) × (worker_port own.worker ≡ 0) × ((worker_view own.worker).takes ≡ true)
        × (FIRST_ROOM ≤ worker_capacity own.worker)
        × (worker_index own.worker ≤ length (worker_view own.worker).pushed) };
}

impl Own {
    /// An empty deck for numbers below `bound`.
    #[tactic(auto, using(crate::proofs::CallLemmas::begins))]
    pub fn open(alloc: Global, bound: u32) -> Result<Self, Memory>
        ensures { IfOk result (λ own. own.hand ≡ owner_of bound 1) }
    {
        let mut worker = Owner::fifo_as(alloc, FIRST_ROOM)?;
        set_bound::<Brand>(&mut worker, bound);
        Ok(Own { worker })
    }

    /// Pushes a number at the back. If there is no room for it and the deck cannot grow, the deck is unchanged.
    pub fn push(&mut self, number: u32) -> Result<(), Memory>
        requires below { number < self.old.hand.bound }
        ensures deck { self.new.deck ≡ self.old.deck }
        ensures ok { OnOk result (Joins self.old.hand (number ∷ []) self.new.hand) }
        ensures err { OnErr result (self.new.hand ≡ self.old.hand) }
        ensures room { OnErr result (FIRST_ROOM ≤ length self.old.hand.pushed) }
    {
        match self.worker.push_as::<Joined>(number) {
            Ok(()) => Ok(()),
            Err(_refused) => Err(Memory::from(AllocError)),
        }
    }

    /// Takes the number at the front. It returns `None` if it finds the deck empty; what is proved of `None` is that
    /// the pass knows nothing that rules out an empty deck.
    pub fn pop(&mut self) -> Option<u32>
        ensures deck { self.new.deck ≡ self.old.deck }
        ensures some { IfSome result (λ number. Leaves self.old.hand (number ∷ []) self.new.hand) }
        ensures none { IfNone result ((self.new.hand ≡ self.old.hand) × WasEmpty self.old.hand) }
    {
        self.worker.pop_as::<Left>()
    }

    /// A thief's end of this deck, for another worker. If memory runs out, the deck is unchanged.
    pub fn share(&mut self) -> Result<Other, Memory>
        ensures other { IfOk result (λ other. (other.deck ≡ self.old.deck) × (other.hand ≡ guest_of self.old.hand.bound)) }
        ensures deck { self.new.deck ≡ self.old.deck }
        ensures ok { OnOk result (self.new.hand ≡ sharing self.old.hand) }
        ensures err { OnErr result (self.new.hand ≡ self.old.hand) }
    {
        let stealer = self.worker.stealer()?;
        let pass = self.worker.another::<Sharing>();
        Ok(Other::new(stealer, pass))
    }
}

// Sets the bound of a new deck.
fn set_bound<B: Bound>(worker: &mut Owner, bound: u32)
    requires bound { bound ≡ B.bound }
    requires fresh { (worker_port worker.old ≡ 0) × (worker_view worker.old ≡ owner_of (2 ^ 32) 1) }
    ensures same { SameWorker worker.old worker.new × (worker_index worker.new ≡ worker_index worker.old) }
    ensures bound { worker_view worker.new ≡ owner_of bound 1 }
{
    let _ = bound;
    drop(worker.another::<Bounding<B>>());
}
