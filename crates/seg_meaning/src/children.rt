//! The unjoined children of a task, with room that is reserved for the next one.
ghost use Rattle.std.specs.Prelude.{◌≡◌, ◌<◌, ◌≤◌, ◌==◌, vec_len, vec_capacity, option_copied, slice_get, OnOk, OnErr};
ghost use Rattle.std.specs.List.{position};
ghost use Rattle.seg_meaning.specs.Children.{no_children, with_child};
ghost use Rattle.seg_meaning.specs.Giving.{without};

use std::alloc::Global;
use std::marker::Model;
use twe_base::Memory;

/// The children of a task that are not yet joined, in the order in which they were spawned. Contracts see their numbers,
/// and how many more can be added without taking memory.
#[derive(Debug, Drop)]
pub struct Children {
    items: Vec<u32>,
    /// How many more children are sure to fit into the memory of `items`.
    room: usize,
}

impl Model for Children {
    ghost use Rattle.std.specs.Prelude.{◌+◌, ◌≤◌, vec_len, vec_capacity};
    ghost use Rattle.seg_meaning.specs.Children.{Children};

    ghost Value = { Children };

    ghost view = { λ children. record { items = children.items.items; room = children.room } };

    ghost invariant = { λ children. vec_len children.items + children.room ≤ vec_capacity children.items };
}

/// The place of a child among the children, if it is there.
fn place_of(children: &[u32], child: u32) -> Option<usize>
    ensures { result ≡ position (λ x. x == child) children.now }
{
    children.iter().position(|x| *x == child)
}

/// Removes a child from a vector of children, if it is there. The vector keeps its memory.
fn remove_child(items: &mut Vec<u32>, child: u32)
    ensures items { items.new.items ≡ without child items.old.items }
    ensures len { vec_len items.new ≤ vec_len items.old }
    ensures capacity { vec_capacity items.new ≡ vec_capacity items.old }
{
    let Some(at) = place_of(items.as_slice(), child) else {
        return;
    };
    let _ = items.remove(at);
}

impl Children {
    /// No children, and no room for one. It takes no memory.
    pub fn new(alloc: Global) -> Self
        ensures { result ≡ no_children }
    {
        Children {
            items: Vec::new(alloc),
            room: 0,
        }
    }

    /// The numbers of the children, as a slice.
    pub fn as_slice(&self) -> &[u32]
        ensures { result.now ≡ self.now.items }
    {
        self.items.as_slice()
    }

    /// The child at index `at`, counted from 0, or `None` if there is no such child.
    pub fn get(&self, at: usize) -> Option<&u32>
        ensures { option_copied result ≡ slice_get self.now.items at }
    {
        self.items.get(at)
    }

    /// Reserves room for one more child. If memory runs out, nothing changes.
    pub fn reserve_one(&mut self) -> Result<(), Memory>
        ensures ok { OnOk result (self.new ≡ record self.old { room = 1 }) }
        ensures err { OnErr result (self.new ≡ self.old) }
    {
        self.items.reserve(1)?;
        self.room = 1;
        Ok(())
    }

    /// Adds a child after the others, in the room that was reserved for it. It takes no memory.
    pub fn push_within(&mut self, child: u32)
        requires { 0 < self.old.room }
        ensures { self.new ≡ with_child child self.old }
    {
        self.items.push_reserved(child);
        self.room -= 1;
    }

    /// Removes a child, if it is there. The room for more children stays. It takes no memory.
    pub fn remove(&mut self, child: u32)
        ensures { self.new ≡ record self.old { items = without child self.old.items } }
    {
        remove_child(&mut self.items, child);
    }
}
