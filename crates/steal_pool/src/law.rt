//! The invariant of a deck, and what a pass knows after each kind of step.
//!
//! A pass is the right of one worker to use one deck. It records what its worker did there.
ghost use Rattle.std.specs.Prelude.{ℕ};

use crossbeam_deque::protocol::{Outcome, Protocol, Split};
use std::collections::LinkedList;
use std::marker::{Brand, PhantomData};

/// What one pass of a deck knows. Only contracts speak of it; no value of this type exists when the program runs.
pub struct Hand {
    /// All numbers in the deck are below this bound.
    pub bound: u64,
    /// In the owner's pass, how many passes may take numbers out. In any other pass, 0.
    pub takers: u64,
    /// Whether this pass may take numbers out.
    pub takes: bool,
    /// The numbers that this pass pushed, in order.
    pub pushed: LinkedList<u32>,
    /// The numbers that this pass took out, in order.
    pub took: LinkedList<u32>,
}

/// The invariant of a deck: `Stands`.
pub struct Law;

impl Protocol<u32, Hand> for Law {
    ghost use Rattle.std.specs.Prelude.{◌^◌};
    ghost use Rattle.steal_pool.specs.Hand.{owner_of, spent};
    ghost use Rattle.steal_pool.specs.Stands.{Stands};

    ghost holds = { Stands };

    ghost first = { owner_of (2 ^ 32) 1 };

    ghost guest = { spent (2 ^ 32) };
}

/// A push: the number joined the deck at the back.
pub struct Joined;

impl Outcome<u32, Hand> for Joined {
    ghost use Rattle.steal_pool.specs.Stands.{Joins};

    ghost then = { Joins };
}

/// A take: the number was the first of the deck and left it, or the deck was found empty.
pub struct Left;

impl Outcome<u32, Hand> for Left {
    ghost use Rattle.steal_pool.specs.Stands.{Leaves, WasEmpty};

    ghost then = { Leaves };

    ghost empty = { WasEmpty };
}

/// A bound that a deck is given when it is made.
pub trait Bound {
    ghost bound: { ℕ };
}

impl Bound for Brand {
    ghost bound = { 0 };
}

/// Sets the bound of a new deck, to which nothing was pushed. It leaves a second pass, which may not take.
pub struct Bounding<B: Bound>(PhantomData<B>);

impl<B: Bound> Split<Hand> for Bounding<B> {
    ghost use Rattle.steal_pool.specs.Hand.{owner_of, spent};

    ghost left = { λ _. owner_of B.bound 1 };

    ghost right = { λ _. spent B.bound };
}

/// Makes a pass for another worker.
pub struct Sharing;

impl Split<Hand> for Sharing {
    ghost use Rattle.steal_pool.specs.Hand.{sharing, guest_of};

    ghost left = { sharing };

    ghost right = { λ known. guest_of known.bound };
}
