//! A thief's end of a deck: it steals numbers at the front.
ghost use Rattle.std.specs.Prelude.{◌≡◌, true, min, [], ◌∷◌, IfSome, IfNone};
ghost use Rattle.crossbeam_deque.specs.Handles.{view, IsPassOf, stealer_deque, stealer_flavor};
ghost use Rattle.crossbeam_deque.specs.Tasks.{Takes, FindsFew};
ghost use Rattle.steal_pool.specs.Stands.{Stands, Leaves, WasEmpty};

use crate::law::{Hand, Law, Left};
use crossbeam_deque::protocol::Outcome;
use crossbeam_deque::{Pass, Steal, Stealer};
use crossbeam_utils::Backoff;
use std::alloc::Global;
use std::marker::Model;
use std::sync::Wait;

pub type Thief = Stealer<u32, Global, Hand, Law>;

/// A thief's end of a deck.
#[derive(Drop)]
pub struct Other {
    stealer: Thief,
    pass: Pass<u32, Hand>,
}

impl Model for Other {
    ghost use Rattle.std.specs.Prelude.{◌≡◌, true};
    ghost use Rattle.crossbeam_deque.specs.Handles.{stealer_deque, stealer_flavor, view as known_of, IsPassOf};
    ghost use Rattle.steal_pool.specs.inner.Single.{DeckEnd};

    ghost Value = { DeckEnd };

    ghost view = { λ other. record { deck = (stealer_deque other.stealer).0; hand = known_of other.pass } };

    ghost invariant = { λ other. (stealer_flavor other.stealer ≡ 0) × ((known_of other.pass).takes ≡ true)
        × IsPassOf (stealer_deque other.stealer) other.pass };
}

impl Other {
    /// The end that consists of a stealer and a pass of its deck.
    pub fn new(stealer: Thief, pass: Pass<u32, Hand>) -> Self
        requires fifo { stealer_flavor stealer ≡ 0 }
        requires pass { IsPassOf (stealer_deque stealer) pass × ((view pass).takes ≡ true) }
        ensures { (result.deck ≡ (stealer_deque stealer).0) × (result.hand ≡ view pass) }
    {
        Other { stealer, pass }
    }

    /// Steals the number at the front. It returns `None` if it finds the deck empty; what is proved of `None` is that
    /// the pass knows nothing that rules out an empty deck.
    pub fn steal(&mut self, rt: &impl Wait) -> Option<u32>
        ensures deck { self.new.deck ≡ self.old.deck }
        ensures some { IfSome result (λ number. Leaves self.old.hand (number ∷ []) self.new.hand) }
        ensures none { IfNone result ((self.new.hand ≡ self.old.hand) × WasEmpty self.old.hand) }
    {
        take_first::<Left, _>(rt, &self.stealer, &mut self.pass)
    }
}

// Takes the number at the front, and tries again for as long as other workers are faster. It is generic in what the
// caller learns. So the body can return `None` only after the stealer itself found the deck empty.
fn take_first<M: Outcome<u32, Hand>, R: Wait>(
    rt: &R,
    stealer: &Thief,
    pass: &mut Pass<u32, Hand>,
) -> Option<u32>
    requires pass { IsPassOf (stealer_deque stealer.now) pass.old }
    requires takes { Takes Stands pass.old.id (view pass.old) 1 (M.then (view pass.old)) }
    requires empty { FindsFew Stands (min (stealer_flavor stealer.now) 1) pass.old.id (view pass.old) (M.empty (view pass.old)) }
    ensures pass { IsPassOf (stealer_deque stealer.now) pass.new }
    ensures some { IfSome result (λ number. M.then (view pass.old) (number ∷ []) (view pass.new)) }
    ensures none { IfNone result ((view pass.new ≡ view pass.old) × M.empty (view pass.old)) }
{
    let backoff = Backoff::new();
    for _ in rt.forever() {
        match stealer.steal_as::<M>(pass) {
            Steal::Success(number) => return Some(number),
            Steal::Empty => return None,
            Steal::Retry => backoff.spin(),
        }
    }
    unreachable!()
}
