//! Noting a move in the books.
ghost use Rattle.std.specs.Prelude.{◌≡◌, ◌≤◌, ◌<◌, ◌+◌, ℕ, length, OnOk};
ghost use Rattle.std.specs.List.{Contains};
ghost use Rattle.wait_graph.specs.Waiting.{WaitsFor};
ghost use Rattle.twe_machine.specs.Listings.{IsListing, WasListing};
ghost use Rattle.flat_sched.specs.inner.Books.{Freed, Grown, IsEndOf, Noted, Woken};
ghost use Rattle.flat_sched.specs.inner.Lists.{IsListed, IsReady};

use crate::books::Books;
use crate::lists::{add, take};
use crate::passing::pass_on;
use crate::ready::Ready;
use machine_state::State;
use seg_journal::Move;
use std::alloc::Global;
use twe_base::{List, Memory};
use twe_machine::is_enabled;

/// Adds all tasks of a list to those that are to be looked at.
fn wake(ready: &mut Ready, tasks: &[u32]) -> Result<(), Memory>
    ensures woken { OnOk result ((t : ℕ) → Contains tasks.now t → IsReady ready.new t) }
    ensures kept { OnOk result ((t : ℕ) → IsReady ready.old t → IsReady ready.new t) }
{
    for t in tasks {
        ready.add(*t)?;
    }
    Ok(())
}

/// Enters a new task: it is to be looked at, and is on the list of the task that it waits for.
fn enroll(alloc: Global, st: &State, books: &mut Books, t: u32) -> Result<(), Memory>
    requires there { t < length st.now.tasks }
    requires linked { length st.now.links ≡ length st.now.tasks }
    ensures grown { OnOk result (Grown books.old books.new) }
    ensures ready { OnOk result (IsReady books.new.ready t) }
    ensures waits { OnOk result ((u : ℕ) → WaitsFor st.now.links t u → IsListed books.new.waiters u t) }
{
    books.ready.add(t)?;
    await_task(alloc, st, &mut books.waiters, t)?;
    Ok(())
}

/// Puts a task on the list of the task that it waits for, if it waits.
fn await_task(
    alloc: Global,
    st: &State,
    waiters: &mut List<List<u32>>,
    t: u32,
) -> Result<(), Memory>
    requires there { t < length st.now.tasks }
    requires linked { length st.now.links ≡ length st.now.tasks }
    ensures waits { OnOk result ((u : ℕ) → WaitsFor st.now.links t u → IsListed waiters.new u t) }
    ensures kept { OnOk result ((u s : ℕ) → IsListed waiters.old u s → IsListed waiters.new u s) }
{
    match st.links.awaited(t) {
        None => Ok(()),
        Some(u) => {
            add(alloc, waiters, u, t)?;
            Ok(())
        }
    }
}

/// Has those looked at who waited for a task, if it is done.
fn wake_waiters(alloc: Global, st: &State, books: &mut Books, t: u32) -> Result<(), Memory>
    requires there { t < length st.now.tasks }
    requires linked { length st.now.links ≡ length st.now.tasks }
    ensures { OnOk result (Woken st.now t books.old books.new) }
{
    if !st.links.link(t).done {
        return Ok(());
    }
    let waiters = take(alloc, &mut books.waiters, t);
    wake(&mut books.ready, waiters.as_slice())?;
    Ok(())
}

/// Has those looked at whom a task held, if it is not enabled. Its group is passed on.
fn free_held(alloc: Global, st: &State, books: &mut Books, t: u32) -> Result<(), Memory>
    ensures { OnOk result (Freed st.now t books.old books.new) }
{
    if is_enabled(st, t) {
        return Ok(());
    }
    let held = take(alloc, &mut books.held, t);
    wake(&mut books.ready, held.as_slice())?;
    pass_on(st, books, t)?;
    Ok(())
}

/// Notes that a task waits: it is on the list of the task that it waits for, and the task at which its chain of waits
/// ends is to be looked at.
fn note_wait(alloc: Global, st: &State, books: &mut Books, t: u32) -> Result<(), Memory>
    requires there { t < length st.now.tasks }
    requires linked { length st.now.links ≡ length st.now.tasks }
    ensures grown { OnOk result (Grown books.old books.new) }
    ensures waits { OnOk result ((u : ℕ) → WaitsFor st.now.links t u → IsListed books.new.waiters u t) }
    ensures end { OnOk result ((e : ℕ) × IsEndOf st.now t books.new e) }
{
    await_task(alloc, st, &mut books.waiters, t)?;
    let end = st.links.end_of_waits(t);
    if end == t {
        return Ok(());
    }
    books.ready.add(end)?;
    Ok(())
}

/// Notes what has become of the task that has made a move.
fn note_mover(alloc: Global, st: &State, books: &mut Books, mv: Move) -> Result<(), Memory>
    requires there { mv.task < length st.now.tasks }
    requires linked { length st.now.links ≡ length st.now.tasks }
    ensures noted { OnOk result (Noted st.now mv (length st.now.tasks) books.old books.new) }
    ensures enabled { OnOk result (books.new.enabled ≡ books.old.enabled) }
{
    note_wait(alloc, st, books, mv.task)?;
    wake_waiters(alloc, st, books, mv.task)?;
    free_held(alloc, st, books, mv.task)?;
    Ok(())
}

/// Enters the task that a move has made, if it has made one.
fn enroll_new(alloc: Global, st: &State, books: &mut Books, before: u32) -> Result<(), Memory>
    requires linked { length st.now.links ≡ length st.now.tasks }
    ensures grown { OnOk result (Grown books.old books.new) }
    ensures ready { OnOk result (before < length st.now.tasks → IsReady books.new.ready before) }
    ensures waits { OnOk result ((u : ℕ) → before < length st.now.tasks
        → WaitsFor st.now.links before u → IsListed books.new.waiters u before) }
{
    if st.links.task_count() <= before {
        return Ok(());
    }
    enroll(alloc, st, books, before)?;
    Ok(())
}

/// Notes a move in the books, in the state after it. There were so many tasks before it.
pub(crate) fn note(
    alloc: Global,
    st: &State,
    books: &mut Books,
    mv: Move,
    before: u32,
) -> Result<(), Memory>
    requires there { mv.task < length st.now.tasks }
    requires linked { length st.now.links ≡ length st.now.tasks }
    requires one { length st.now.tasks ≤ before + 1 }
    requires was { WasListing st.now mv before books.old.enabled }
    ensures noted { OnOk result (Noted st.now mv before books.old books.new) }
    ensures listing { OnOk result (IsListing st.now books.new.enabled) }
{
    books.enabled.note(st, mv, before)?;
    enroll_new(alloc, st, books, before)?;
    note_mover(alloc, st, books, mv)?;
    Ok(())
}
