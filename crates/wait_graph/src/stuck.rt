//! The cycle in which tasks are stuck, and its edges.
ghost use Rattle.std.specs.Prelude.{◌≡◌, ◌↔◌, [], length, IsTrue, slice_get};

use std::marker::Model;

/// One reason why a task can't go on: it waits for another task, or another task holds it.
#[derive(Clone, Copy, Debug, PartialEq, Eq)]
pub struct Edge {
    /// The task that can't go on.
    pub from: u32,
    /// Whether it is held. If not, it waits.
    pub held: bool,
    /// The task that it waits for, or that holds it.
    pub to: u32,
}

/// The edges of a cycle, from one task to the next and back to the first. Contracts see it as the list of them.
#[derive(Debug, Drop)]
pub struct Cycle {
    edges: Vec<Edge>,
}

impl Model for Cycle {
    ghost use Rattle.std.specs.Prelude.{List};
    ghost use Rattle.wait_graph.specs.declared.stuck.Edge.{Edge};

    ghost Value = { List Edge };

    ghost view = { λ cycle. cycle.edges.items };
}

impl Cycle {
    /// How many edges there are.
    pub fn len(&self) -> usize
        ensures { result ≡ length self.now }
    {
        self.edges.len()
    }

    pub fn is_empty(&self) -> bool
        ensures { IsTrue result ↔ (self.now ≡ []) }
    {
        self.edges.is_empty()
    }

    /// The edge at a place, counted from 0, if there is one.
    pub fn get(&self, at: usize) -> Option<Edge>
        ensures { result ≡ slice_get self.now at }
    {
        self.edges.get(at).copied()
    }

    pub fn as_slice(&self) -> &[Edge]
        ensures { result.now ≡ self.now }
    {
        self.edges.as_slice()
    }

    /// The edges as the vector that holds them. It takes no memory.
    pub fn into_vec(self) -> Vec<Edge>
        ensures { result.items ≡ self }
    {
        let Cycle { edges } = self;
        edges
    }
}

impl From<Vec<Edge>> for Cycle {
    ghost from_gives = { λ edges cycle. cycle ≡ edges.items };

    /// The vector's edges. It takes no memory.
    fn from(edges: Vec<Edge>) -> Self {
        Cycle { edges }
    }
}
