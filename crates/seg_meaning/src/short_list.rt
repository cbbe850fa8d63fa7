//! Lists of which the first items lie in the value itself.
ghost use Rattle.std.specs.Prelude.{◌≡◌, ◌<◌, [], ◌∷◌, ◌++◌, length, replicate, slice_set, IfOk, OnOk};

use smallvec::SmallVec;
use std::alloc::Global;
use std::marker::Model;
use twe_base::{List, Memory};

/// Items in order, of which up to `N` lie in the value itself: a list that is that short takes no memory of its own.
/// Contracts see the list of its items.
#[derive(Debug, Drop)]
pub struct ShortList<T, const N: usize> {
    items: SmallVec<T, N, Global>,
}

impl<T, const N: usize> Model for ShortList<T, N> {
    ghost use Rattle.std.specs.Prelude.{List};

    ghost Value = { List T };

    ghost view = { λ list. list.items.items };
}

impl<T, const N: usize> ShortList<T, N> {
    /// The number of items.
    #[inline(always)]
    pub fn len(&self) -> usize
        ensures { result ≡ length self.now }
    {
        self.items.len()
    }

    /// The items as a slice.
    #[inline(always)]
    pub fn as_slice(&self) -> &[T]
        ensures { result.now ≡ self.now }
    {
        self.items.as_slice()
    }
}

impl<T: Copy + Default + Drop, const N: usize> ShortList<T, N> {
    /// The empty list, with room for `room` items. It takes memory only for more than `N`.
    pub fn with_capacity(alloc: Global, room: usize) -> Result<Self, Memory>
        ensures { IfOk result (λ list. list ≡ []) }
    {
        Ok(ShortList {
            items: SmallVec::with_capacity(alloc, room)?,
        })
    }

    /// A new list with the items of a slice. It takes memory only for more than `N`.
    pub fn from_slice(alloc: Global, items: &[T]) -> Result<Self, Memory>
        ensures { IfOk result (λ list. list ≡ items.now) }
    {
        Ok(ShortList {
            items: SmallVec::from_slice(alloc, items)?,
        })
    }

    /// The same items. The memory of the list is kept if it has room for more than `N`; else it is given back.
    #[inline(always)]
    pub fn from_list(list: List<T>) -> Self
        ensures { result ≡ list }
    {
        ShortList {
            items: SmallVec::from_vec(list.into_vec()),
        }
    }

    /// The items as a list that has no memory if it is empty, and else has room for more than `N`, so that `from_list` keeps its
    /// memory. It takes memory only for items that lie in the value itself.
    #[inline(always)]
    pub fn into_list(self, alloc: Global) -> Result<List<T>, Memory>
        ensures { IfOk result (λ list. list ≡ self) }
    {
        let ShortList { items } = self;
        if items.spilled() {
            return Ok(List::from(items.into_vec()?));
        }
        if items.is_empty() {
            return Ok(List::new(alloc));
        }
        let mut list = List::with_capacity(alloc, N.saturating_add(1))?;
        list.push_all(items.as_slice())?;
        Ok(list)
    }

    /// A new list with the same items. It takes memory only for more than `N`.
    pub fn copy(&self, alloc: Global) -> Result<Self, Memory>
        ensures { IfOk result (λ list. list ≡ self.now) }
    {
        Self::from_slice(alloc, self.as_slice())
    }

    /// Replaces the item at index `at`. It takes no memory.
    #[inline(always)]
    pub fn set(&mut self, at: usize, item: T)
        requires { at < length self.old }
        ensures { self.new ≡ slice_set self.old at item }
    {
        self.items.as_mut_slice()[at] = item;
    }

    /// Appends an item.
    #[inline(always)]
    pub fn push(&mut self, item: T) -> Result<(), Memory>
        ensures { OnOk result (self.new ≡ self.old ++ item ∷ []) }
    {
        self.items.push(item)?;
        Ok(())
    }

    /// Appends all items of a slice, in order.
    pub fn push_all(&mut self, items: &[T]) -> Result<(), Memory>
        ensures { OnOk result (self.new ≡ self.old ++ items.now) }
    {
        self.items.extend_from_slice(items)?;
        Ok(())
    }

    /// Appends an item `count` times.
    pub fn push_times(&mut self, item: T, count: usize) -> Result<(), Memory>
        ensures { OnOk result (self.new ≡ self.old ++ replicate count item) }
    {
        for _ in 0..count {
            self.push(item)?;
        }
        Ok(())
    }
}
