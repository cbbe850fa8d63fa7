//! The workers of a round, with the numbers that are dealt to them.
ghost use Rattle.std.specs.Prelude.{◌≡◌, All};

use crate::own_deck::OwnDeck;
use crate::worker::Worker;
use machine_state::{State, TaskStatus};
use std::alloc::Global;
use steal_pool::{Deck, Decks, make_decks};
use twe_base::Memory;

/// The workers of a round, and how many numbers they have to deal with.
#[derive(Drop)]
pub struct Team {
    pub workers: Vec<Worker>,
    pub pending: u64,
}

/// Workers for a round that begins in this state and with this many entries. The tasks that are not done are dealt to their
/// decks in turn, in the order of their numbers, which are below the bound. The task `first`, if there is one, is handed to the
/// first worker, and lies on no deck. Nor does a task for which there is no memory.
pub fn deal(
    alloc: Global,
    state: &State,
    entries: usize,
    bound: u32,
    workers: u32,
    first: Option<u32>,
) -> Result<Team, Memory> {
    let decks = make_decks(alloc, workers, bound)?;
    let mut team = Team {
        workers: workers_of(alloc, decks, bound, entries)?,
        pending: 0,
    };
    if let Some(task) = first
        && let Some(worker) = team.workers.first_mut()
    {
        worker.hand(task);
        team.pending = 1;
    }
    for task in 0..state.links.task_count() {
        if is_undone(state, task) && first != Some(task) {
            deal_to(&mut team, task);
        }
    }
    Ok(team)
}

/// Deals a number to the worker whose turn it is, if there is room.
fn deal_to(team: &mut Team, task: u32) {
    let count = team.workers.len() as u64;
    if count == 0 {
        return;
    }
    let turn = (team.pending % count) as usize;
    if let Some(worker) = team.workers.get_mut(turn)
        && worker.push(task)
    {
        team.pending = team.pending.saturating_add(1);
    }
}

/// Whether there is such a task, and it is not done.
fn is_undone(state: &State, task: u32) -> bool {
    match state.tasks.get(task as usize) {
        Some(row) => !matches!(row.status, TaskStatus::Done),
        None => false,
    }
}

/// A worker for each deck, in the order of the decks.
fn workers_of(
    alloc: Global,
    decks: Decks,
    bound: u32,
    entries: usize,
) -> Result<Vec<Worker>, Memory>
    requires { All (λ ends. ends.bound ≡ bound) decks }
{
    let mut workers = Vec::new(alloc);
    for deck in decks.into_vec() {
        workers.push(worker_of(alloc, deck, bound, entries))?;
    }
    Ok(workers)
}

/// The worker with this deck.
fn worker_of(alloc: Global, deck: Deck, bound: u32, entries: usize) -> Worker
    requires { deck.bound ≡ bound }
{
    Worker::new(alloc, OwnDeck::new(deck, bound), entries)
}
