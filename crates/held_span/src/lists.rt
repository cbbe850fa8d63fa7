//! Lists of numbers, one for each node of a tree.
ghost use Rattle.std.specs.Prelude.{◌≡◌, ◌<◌, ℕ, length, IfOk, OnOk};
ghost use Rattle.held_span.specs.Tables.{IsListed, numbers_in};

use std::alloc::Global;
use twe_base::{List, Memory};

/// So many empty lists.
pub(crate) fn empty_lists(alloc: Global, count: u32) -> Result<List<List<u32>>, Memory>
    ensures { IfOk result (λ lists. length lists ≡ count) }
{
    let mut lists = List::new(alloc);
    for at in 0..count {
        let _ = at;
        lists.push(List::new(alloc))?;
    }
    Ok(lists)
}

/// The numbers of a row, and none if there is no such row.
pub(crate) fn row_of(lists: &List<List<u32>>, number: u32) -> &[u32]
    ensures { result.now ≡ numbers_in lists.now number }
{
    match lists.get(number as usize) {
        None => &[],
        Some(list) => list.as_slice(),
    }
}

/// Adds a number to one of the lists.
pub(crate) fn put(lists: &mut List<List<u32>>, at: u32, number: u32) -> Result<(), Memory>
    requires { at < length lists.old }
    ensures count { OnOk result (length lists.new ≡ length lists.old) }
    ensures added { OnOk result (IsListed lists.new at number) }
    ensures kept { OnOk result ((i n : ℕ) → IsListed lists.old i n → IsListed lists.new i n) }
{
    let list = lists.item_mut(at as usize);
    list.push(number)?;
    Ok(())
}
