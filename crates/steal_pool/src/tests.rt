//! What no clause says: numbers move between threads, each once, and `make_decks` and `push` succeed if there is memory.
ghost use Rattle.std.specs.Prelude.{◌≡◌, ◌<◌, All};

use crate::{Deck, Decks, make_decks};
use std::alloc::Global;
use std::sync::Wait;
use std::test::Fail;
use std::thread;
use twe_base::Memory;

// How many numbers each worker pushes.
const EACH: u32 = 1000;

#[test]
fn one_worker_takes_in_order(rt: HostRuntime) -> Result<(), Fail> {
    let mut decks = make_decks(rt.alloc(), 1, 9)?;
    let Some(mut deck) = decks.pop() else {
        return Err("one deck")?;
    };
    assert_eq!(rt; (deck.number(), deck.count()), (0, 1));
    assert_eq!(rt; (deck.pop(), steal_any(&rt, &mut deck)), (None, None));
    push(&mut deck, 7)?;
    push(&mut deck, 2)?;
    push(&mut deck, 5)?;
    assert_eq!(rt; (deck.pop(), deck.pop()), (Some(7), Some(2)));
    assert_eq!(rt; (steal_any(&rt, &mut deck), deck.pop()), (Some(5), None));
    Ok(())
}

// 1,000 numbers lie in a deck that begins with room for 256.
#[test]
fn a_deck_grows(rt: HostRuntime) -> Result<(), Fail> {
    let mut decks = make_decks(rt.alloc(), 1, 4 * EACH)?;
    let Some(mut mover) = next_mover(rt.alloc(), &mut decks) else {
        return Err("one deck")?;
    };
    mover.run(&rt);
    assert_eq!(rt; mover.taken.len(), EACH as usize);
    for (place, number) in mover.taken.iter().enumerate() {
        assert_eq!(rt; *number as usize, place);
    }
    Ok(())
}

#[test]
fn two_threads_empty_four_decks(rt: HostRuntime) -> Result<(), Fail> {
    let mut decks = make_decks(rt.alloc(), 4, 4 * EACH)?;
    let mut movers = Vec::new(rt.alloc());
    for _ in 0..4 {
        if let Some(mover) = next_mover(rt.alloc(), &mut decks) {
            movers.push(mover)?;
        }
    }
    thread::for_each_mut(&rt, movers.as_mut_slice(), 2, &|_, mover| mover.run(&rt));
    let mut seen = vec![in rt.alloc(); 0u8; 4 * EACH as usize]?;
    for mover in movers.iter() {
        for number in mover.taken.iter() {
            if let Some(count) = seen.get_mut(*number as usize) {
                *count = count.saturating_add(1);
            }
        }
    }
    assert!(rt; seen.iter().all(|count| *count == 1));
    Ok(())
}

// A worker with its deck and the numbers that it took.
#[derive(Drop)]
struct Mover {
    deck: Deck,
    taken: Vec<u32>,
    ghost bounded: { deck.bound ≡ 4000 },
}

// A worker with the last deck of the list.
fn next_mover(alloc: Global, decks: &mut Decks) -> Option<Mover>
    requires { All (λ ends. ends.bound ≡ 4000) decks.old }
    ensures { All (λ ends. ends.bound ≡ 4000) decks.new }
{
    let deck = decks.pop()?;
    Some(Mover {
        deck,
        taken: Vec::new(alloc),
    })
}

impl Mover {
    // Pushes a thousand numbers of its own, and then takes numbers until it finds every deck empty.
    fn run<R: Wait>(&mut self, rt: &R) {
        let first = self.deck.number().min(3) * EACH;
        for number in first..first + EACH {
            if push(&mut self.deck, number).is_err() {
                return;
            }
        }
        for _ in rt.forever() {
            let Some(number) = steal_any(rt, &mut self.deck) else {
                break;
            };
            if self.taken.push(number).is_err() {
                break;
            }
        }
    }
}

// Pushes a number below the bound, which stays as it was.
fn push(deck: &mut Deck, number: u32) -> Result<(), Memory>
    requires { number < deck.old.bound }
    ensures { deck.new.bound ≡ deck.old.bound }
{
    deck.push(number)
}

// Steals from the first deck that is not empty, its own included.
fn steal_any<R: Wait>(rt: &R, deck: &mut Deck) -> Option<u32>
    ensures { deck.new.bound ≡ deck.old.bound }
{
    for from in 0..4 {
        if from as usize >= deck.count() {
            break;
        }
        if let Some(number) = deck.steal(rt, from) {
            return Some(number);
        }
    }
    None
}
