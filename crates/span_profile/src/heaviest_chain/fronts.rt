//! For each key the highest of the nodes that gave it.
ghost use Rattle.std.specs.Prelude.{◌≡◌, ◌<◌, ◌==◌, ℕ, Some, None, IfOk, OnOk, length, fold, if◌then◌else◌};
ghost use Rattle.std.specs.List.{list_any};
ghost use Rattle.span_profile.specs.declared.heaviest_chain.key.Key.{Key as AnyKey};
ghost use Rattle.span_profile.specs.heaviest_chain.BestChains.{key_eq};
ghost use Rattle.span_profile.specs.heaviest_chain.inner.Tops.{higher};
ghost use Rattle.span_profile.specs.heaviest_chain.inner.Fronts.{front_after, front_at, no_fronts, top_in};

use crate::heaviest_chain::key::Key;
use crate::heaviest_chain::top::{Top, higher};
use std::alloc::Global;
use twe_base::{List, Memory};

/// For each number the highest node, if there is one.
type Tops = List<Option<Top>>;

/// For each key the highest of the nodes that gave it.
#[derive(Debug, Drop)]
pub(crate) struct Fronts {
    tasks: Tops,
    values: Tops,
    writes: Tops,
    accesses: Tops,
}

/// The highest node of a number.
fn top_in(tops: &Tops, at: u32) -> Option<Top>
    ensures { result ≡ top_in tops.now at }
{
    match tops.get(at as usize) {
        None => None,
        Some(top) => *top,
    }
}

/// Makes room for a number.
fn reach(tops: &mut Tops, at: u32) -> Result<(), Memory>
    ensures there { OnOk result (at < length tops.new) }
    ensures kept { OnOk result ((n : ℕ) → top_in tops.new n ≡ top_in tops.old n) }
{
    'reaching: while tops.len() <= at as usize {
        tops.push(None)?;
    }
    Ok(())
}

/// Counts a node among those of a number.
fn give_at(tops: &mut Tops, at: u32, top: Top) -> Result<(), Memory>
    ensures { OnOk result ((n : ℕ) → top_in tops.new n ≡ front_after (n == at) (top_in tops.old n) top) }
{
    reach(tops, at)?;
    let higher = higher(top_in(tops, at), Some(top));
    tops.set(at as usize, higher);
    Ok(())
}

impl Fronts {
    /// No node has given a key.
    pub(crate) fn new(alloc: Global) -> Self
        ensures { result ≡ no_fronts }
    {
        Fronts {
            tasks: List::new(alloc),
            values: List::new(alloc),
            writes: List::new(alloc),
            accesses: List::new(alloc),
        }
    }

    /// The highest of the nodes that gave a key.
    pub(crate) fn front(&self, key: Key) -> Option<Top>
        ensures { result ≡ front_at self.now key }
    {
        match key {
            Key::Task(task) => top_in(&self.tasks, task),
            Key::Value(task) => top_in(&self.values, task),
            Key::Write(place) => top_in(&self.writes, place),
            Key::Access(place) => top_in(&self.accesses, place),
        }
    }

    /// The highest of the nodes that gave one of the keys.
    pub(crate) fn highest(&self, keys: &[Key]) -> Option<Top>
        ensures { result ≡ fold (λ top key. higher top (front_at self.now key)) None keys.now }
    {
        let mut top = None;
        for key in keys {
            top = higher(top, self.front(*key));
        }
        top
    }

    /// Counts a node among those that gave a key.
    fn give(&mut self, key: Key, top: Top) -> Result<(), Memory>
        ensures { OnOk result ((k : AnyKey) → front_at self.new k ≡ front_after (key_eq k key) (front_at self.old k) top) }
    {
        match key {
            Key::Task(task) => give_at(&mut self.tasks, task, top),
            Key::Value(task) => give_at(&mut self.values, task, top),
            Key::Write(place) => give_at(&mut self.writes, place, top),
            Key::Access(place) => give_at(&mut self.accesses, place, top),
        }
    }

    /// Counts a node among those that gave each of the keys.
    pub(crate) fn give_all(&mut self, keys: &[Key], top: Top) -> Result<(), Memory>
        ensures { OnOk result ((k : AnyKey) → front_at self.new k
            ≡ front_after (list_any (key_eq k) keys.now) (front_at self.old k) top) }
    {
        for key in keys {
            self.give(*key, top)?;
        }
        Ok(())
    }
}
