//! What no clause says of a deck that was found empty: a thief looks there again the next time.
ghost use Rattle.std.specs.Prelude.{◌≡◌, All};

use std::sync::Wait;
use std::test::Fail;
use steal_pool::{Deck, Decks, make_decks};
use twe_base::Memory;

/// A worker with its deck.
#[derive(Drop)]
struct Holder {
    deck: Deck,
    ghost bounded: { deck.bound ≡ 9 },
}

/// A worker with the last deck of the list.
fn next_holder(decks: &mut Decks) -> Option<Holder>
    requires { All (λ ends. ends.bound ≡ 9) decks.old }
    ensures { All (λ ends. ends.bound ≡ 9) decks.new }
{
    let deck = decks.pop()?;
    Some(Holder { deck })
}

impl Holder {
    /// Pushes 7 to its own deck.
    fn push_seven(&mut self) -> Result<(), Memory> {
        self.deck.push(7)
    }

    /// Steals from the first deck.
    fn steal_first<R: Wait>(&mut self, rt: &R) -> Option<u32> {
        steal_first(rt, &mut self.deck)
    }
}

/// Steals from the first deck, if there is one.
fn steal_first<R: Wait>(rt: &R, deck: &mut Deck) -> Option<u32>
    ensures { deck.new.bound ≡ deck.old.bound }
{
    if deck.count() > 0 {
        deck.steal(rt, 0)
    } else {
        None
    }
}

#[test]
fn a_thief_looks_again(rt: HostRuntime) -> Result<(), Fail> {
    let mut decks = make_decks(rt.alloc(), 2, 9)?;
    let Some(mut thief) = next_holder(&mut decks) else {
        return Err("two decks")?;
    };
    let Some(mut owner) = next_holder(&mut decks) else {
        return Err("two decks")?;
    };
    assert_eq!(rt; thief.steal_first(&rt), None);
    owner.push_seven()?;
    assert_eq!(rt; thief.steal_first(&rt), Some(7));
    assert_eq!(rt; thief.steal_first(&rt), None);
    Ok(())
}
