//! The list type of all crates. Contracts see it as the list of its items.
ghost use Rattle.std.specs.Prelude.{◌≡◌, ◌↔◌, ◌<◌, ◌-◌, [], ◌∷◌, ◌++◌, length, take, slice_get, slice_set, option_copied, option_to_list, IsTrue, IsSome, IfOk, OnOk, OnErr};
ghost use Rattle.std.specs.Borrow.{sem};

use crate::Memory;
use std::alloc::Global;
use std::marker::Model;

/// Items in order. Contracts see the list of its items.
#[derive(Debug, Drop)]
pub struct List<T> {
    items: Vec<T>,
}

/// Bytes in order.
pub type Bytes = List<u8>;

/// 32-bit integers in order.
pub type Ints = List<i32>;

/// The numbers of calls, counted from 1.
pub type Calls = List<u64>;

impl<T> Model for List<T> {
    ghost use Rattle.std.specs.Prelude.{List};

    ghost Value = { List T };

    ghost view = { λ list. list.items.items };
}

impl<T> List<T> {
    /// The empty list. It takes no memory.
    pub fn new(alloc: Global) -> Self
        ensures { result ≡ [] }
    {
        List {
            items: Vec::new(alloc),
        }
    }

    /// The empty list, with memory for `room` items already allocated.
    pub fn with_capacity(alloc: Global, room: usize) -> Result<Self, Memory>
        ensures { IfOk result (λ list. list ≡ []) }
    {
        Ok(List {
            items: Vec::with_capacity(alloc, room)?,
        })
    }

    /// The vector that holds the items. It takes no memory.
    pub fn into_vec(self) -> Vec<T>
        ensures { result.items ≡ self }
    {
        let List { items } = self;
        items
    }

    /// The number of items.
    pub fn len(&self) -> usize
        ensures { result ≡ length self.now }
    {
        self.items.len()
    }

    /// Whether the list is empty.
    pub fn is_empty(&self) -> bool
        ensures { IsTrue result ↔ (self.now ≡ []) }
    {
        self.items.is_empty()
    }

    /// The items as a slice.
    pub fn as_slice(&self) -> &[T]
        ensures { result.now ≡ self.now }
    {
        self.items.as_slice()
    }

    /// The item at index `at`, counted from 0, or `None` if there is no such item.
    pub fn get(&self, at: usize) -> Option<&T>
        ensures { option_copied result ≡ slice_get self.now at }
    {
        self.items.get(at)
    }
}

impl<T: Drop> List<T> {
    ghost use Rattle.std.specs.Prelude.{Some};
    ghost use Rattle.twe_base.specs.Lending.{LendsItem, LendsItems};

    /// The item at index `at`, counted from 0, as a mutable reference.
    pub fn item_mut(&mut self, at: usize) -> &mut T
        requires { at < length self.old }
        ensures* writes_back { sem 𝓛 (LendsItem T.row self.entry at result) }
        ensures value { slice_get self.old at ≡ Some result.now }
    {
        &mut self.items[at]
    }

    /// The items as a mutable slice.
    pub fn as_mut_slice(&mut self) -> &mut [T]
        ensures* writes_back { sem 𝓛 (LendsItems T.row self.entry result) }
        ensures value { result.now ≡ self.old }
    {
        self.items.as_mut_slice()
    }

    /// Replaces the item at index `at`, and drops the old one. It takes no memory.
    pub fn set(&mut self, at: usize, item: T)
        requires { at < length self.old }
        ensures { self.new ≡ slice_set self.old at item }
    {
        self.items[at] = item;
    }

    /// Appends an item. If memory runs out, the list is unchanged and the item is dropped.
    pub fn push(&mut self, item: T) -> Result<(), Memory>
        ensures ok { OnOk result (self.new ≡ self.old ++ item ∷ []) }
        ensures err { OnErr result (self.new ≡ self.old) }
    {
        self.items.push(item)?;
        Ok(())
    }

    /// Removes and returns the last item, if there is one. It takes no memory.
    pub fn pop(&mut self) -> Option<T>
        ensures split { self.old ≡ self.new ++ option_to_list result }
        ensures some { IsSome result ↔ (0 < length self.old) }
    {
        self.items.pop()
    }

    /// Drops the items after the first `count`. It takes no memory.
    pub fn truncate(&mut self, count: usize)
        ensures { self.new ≡ take count self.old }
    {
        self.items.truncate(count);
    }
}

impl<T: Copy + Drop> List<T> {
    /// A new list with the items of a slice.
    pub fn from_slice(alloc: Global, items: &[T]) -> Result<Self, Memory>
        ensures { IfOk result (λ list. list ≡ items.now) }
    {
        Ok(List {
            items: Vec::from_slice(alloc, items)?,
        })
    }

    /// Appends all items of a slice, in order. If memory runs out, the list is unchanged.
    pub fn push_all(&mut self, items: &[T]) -> Result<(), Memory>
        ensures ok { OnOk result (self.new ≡ self.old ++ items.now) }
        ensures err { OnErr result (self.new ≡ self.old) }
    {
        self.items.extend_from_slice(items)?;
        Ok(())
    }

    /// A new list with the same items, in its own memory.
    pub fn copy(&self, alloc: Global) -> Result<Self, Memory>
        ensures { IfOk result (λ list. list ≡ self.now) }
    {
        Self::from_slice(alloc, self.items.as_slice())
    }
}

impl<T> From<Vec<T>> for List<T> {
    ghost from_gives = { λ items list. list ≡ items.items };

    /// A list that holds the vector. It takes no memory.
    fn from(items: Vec<T>) -> Self {
        List { items }
    }
}
