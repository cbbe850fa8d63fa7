//! The stacks of the evaluator. A push writes the item where it stays, and is inlined.
ghost use Rattle.std.specs.Prelude.{◌≡◌, [], ◌∷◌, length, OnOk, MatchOption, OnErr};
ghost use Rattle.twe_base.specs.Stacks.{top, below};

use std::alloc::Global;
use std::marker::Model;
use twe_base::Memory;

/// A stack: the item pushed last is popped first. Contracts see a list whose first item is the top.
#[derive(Debug, Drop)]
pub(crate) struct Pushdown<T> {
    items: Vec<T>,
}

impl<T> Model for Pushdown<T> {
    ghost use Rattle.std.specs.Prelude.{List, reverse};

    ghost Value = { List T };

    ghost view = { λ stack. reverse stack.items.items };
}

impl<T: Drop> Pushdown<T> {
    /// The empty stack. It takes no memory.
    pub(crate) fn new(alloc: Global) -> Self
        ensures { result ≡ [] }
    {
        Pushdown {
            items: Vec::new(alloc),
        }
    }

    /// Pushes an item on top.
    #[inline(always)]
    pub(crate) fn push(&mut self, item: T) -> Result<(), Memory>
        ensures ok { OnOk result (self.new ≡ item ∷ self.old) }
        ensures err { OnErr result (self.new ≡ self.old) }
    {
        self.items.reserve(1)?;
        self.items.push_reserved(item);
        Ok(())
    }

    /// Removes and returns the top item, if there is one.
    #[inline(always)]
    pub(crate) fn pop(&mut self) -> Option<T>
        ensures { MatchOption result ((self.old ≡ []) × (self.new ≡ [])) (λ item. self.old ≡ item ∷ self.new) }
    {
        self.items.pop()
    }

    /// Removes and returns the top item. If the stack is empty, it returns `other`.
    #[inline(always)]
    pub(crate) fn pop_or(&mut self, other: T) -> T
        ensures item { result ≡ top self.old other }
        ensures rest { self.new ≡ below self.old }
    {
        self.items.pop().unwrap_or(other)
    }

    /// How many items there are.
    #[inline(always)]
    pub(crate) fn len(&self) -> usize
        ensures { result ≡ length self.now }
    {
        self.items.len()
    }
}
