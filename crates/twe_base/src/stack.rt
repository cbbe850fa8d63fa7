//! Stacks. Contracts see a stack as a list whose first item is the top.
ghost use Rattle.std.specs.Prelude.{◌≡◌, [], ◌∷◌, ◌++◌, OnOk, MatchOption};
ghost use Rattle.twe_base.specs.Stacks.{top, below};

use crate::{List, Memory};
use std::alloc::Global;
use std::marker::Model;

/// A stack: the item pushed last is popped first.
#[derive(Debug, Drop)]
pub struct Stack<T> {
    items: Vec<T>,
}

impl<T> Model for Stack<T> {
    ghost use Rattle.std.specs.Prelude.{List, reverse};

    ghost Value = { List T };

    ghost view = { λ stack. reverse stack.items.items };
}

impl<T: Drop> Stack<T> {
    /// The empty stack. It takes no memory.
    pub fn new(alloc: Global) -> Self
        ensures { result ≡ [] }
    {
        Stack {
            items: Vec::new(alloc),
        }
    }

    /// Pushes an item on top.
    pub fn push(&mut self, item: T) -> Result<(), Memory>
        ensures ok { OnOk result (self.new ≡ item ∷ self.old) }
    {
        self.items.push(item)?;
        Ok(())
    }

    /// Pushes all items, so that the first of them is on top.
    pub fn push_all(&mut self, mut items: List<T>) -> Result<(), Memory>
        ensures ok { OnOk result (self.new ≡ items ++ self.old) }
    {
        while let Some(item) = items.pop() {
            self.push(item)?;
        }
        Ok(())
    }

    /// Removes and returns the top item, if there is one.
    pub fn pop(&mut self) -> Option<T>
        ensures { MatchOption result ((self.old ≡ []) × (self.new ≡ [])) (λ item. self.old ≡ item ∷ self.new) }
    {
        self.items.pop()
    }

    /// Removes and returns the top item. If the stack is empty, it returns `other`.
    pub fn pop_or(&mut self, other: T) -> T
        ensures item { result ≡ top self.old other }
        ensures rest { self.new ≡ below self.old }
    {
        self.items.pop().unwrap_or(other)
    }

    /// The items as a list, the top one first. It takes no memory.
    pub fn into_list(self) -> List<T>
        ensures { result ≡ self }
    {
        let Stack { mut items } = self;
        items.reverse();
        List::from(items)
    }
}
