//! For each task a list of tasks.
ghost use Rattle.std.specs.Prelude.{◌≡◌, ◌≢◌, ◌<◌, ℕ, length, OnOk};
ghost use Rattle.std.specs.List.{Contains};
ghost use Rattle.flat_sched.specs.inner.Lists.{IsListed};

use std::alloc::Global;
use std::mem;
use twe_base::{List, Memory};

/// Adds empty lists up to that of task `at`.
pub(crate) fn reach(alloc: Global, lists: &mut List<List<u32>>, at: u32) -> Result<(), Memory>
    ensures there { OnOk result (at < length lists.new) }
    ensures kept { OnOk result ((u t : ℕ) → IsListed lists.old u t → IsListed lists.new u t) }
{
    'reaching: while lists.len() <= at as usize {
        lists.push(List::new(alloc))?;
    }
    Ok(())
}

/// Adds `t` to the list of task `at`.
pub(crate) fn add(alloc: Global, lists: &mut List<List<u32>>, at: u32, t: u32) -> Result<(), Memory>
    ensures added { OnOk result (IsListed lists.new at t) }
    ensures kept { OnOk result ((u s : ℕ) → IsListed lists.old u s → IsListed lists.new u s) }
{
    reach(alloc, lists, at)?;
    put(lists, at, t)?;
    Ok(())
}

/// Adds `t` to the list of task `at`, which is there.
fn put(lists: &mut List<List<u32>>, at: u32, t: u32) -> Result<(), Memory>
    requires { at < length lists.old }
    ensures added { OnOk result (IsListed lists.new at t) }
    ensures kept { OnOk result ((u s : ℕ) → IsListed lists.old u s → IsListed lists.new u s) }
{
    let list = lists.item_mut(at as usize);
    list.push(t)?;
    Ok(())
}

/// Takes the list of task `at` out. It takes no memory.
pub(crate) fn take(alloc: Global, lists: &mut List<List<u32>>, at: u32) -> List<u32>
    ensures taken { (t : ℕ) → IsListed lists.old at t → Contains result t }
    ensures kept { (u t : ℕ) → u ≢ at → IsListed lists.old u t → IsListed lists.new u t }
    ensures count { length lists.new ≡ length lists.old }
{
    if lists.len() <= at as usize {
        return List::new(alloc);
    }
    mem::replace(lists.item_mut(at as usize), List::new(alloc))
}
