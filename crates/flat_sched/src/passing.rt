//! Passing a group on. If the task that holds a group is over, only the lowest of the group has to be looked at: if it is
//! admitted, it holds the others.
ghost use Rattle.std.specs.Prelude.{◌≡◌, ◌⊎◌, ◌<◌, ◌↔◌, ℕ, IfNone, IfSome, IsTrue, OnOk};
ghost use Rattle.machine_state.specs.declared.state.TaskStatus.TheVariants.{Made};
ghost use Rattle.machine_state.specs.Rows.{HasStatus};
ghost use Rattle.flat_sched.specs.inner.Books.{Passed, Released};
ghost use Rattle.flat_sched.specs.inner.Lists.{IsReady};

use crate::books::Books;
use crate::groups::{put, take};
use crate::ready::Ready;
use machine_state::{State, TaskStatus};
use twe_base::Memory;

/// Whether a task was made and waits for its admission.
pub fn is_made(st: &State, t: u32) -> bool
    ensures { IsTrue result ↔ HasStatus st.now t Made }
{
    match st.tasks.get(t as usize) {
        None => false,
        Some(row) => matches!(row.status, TaskStatus::Made),
    }
}

/// Takes out the lowest task that waits for its admission, and those below it. Returns it, if there is one.
fn take_made(st: &State, tasks: &mut Ready) -> Option<u32>
    ensures made { IfSome result (λ t. HasStatus st.now t Made) }
    ensures there { IfSome result (IsReady tasks.old) }
    ensures lower { IfSome result (λ t. (u : ℕ) → HasStatus st.now u Made → IsReady tasks.old u → (u ≡ t) ⊎ (t < u)) }
    ensures kept { IfSome result (λ t. (u : ℕ) → HasStatus st.now u Made → IsReady tasks.old u → (u ≡ t) ⊎ IsReady tasks.new u) }
    ensures none { IfNone result ((u : ℕ) → HasStatus st.now u Made → ¬ IsReady tasks.old u) }
    ensures back { (u : ℕ) → IsReady tasks.new u → IsReady tasks.old u }
{
    'taking: while let Some(t) = tasks.take_lowest() {
        if is_made(st, t) {
            return Some(t);
        }
    }
    None
}

/// Has all of the tasks looked at.
fn wake_all(ready: &mut Ready, tasks: &mut Ready) -> Result<(), Memory>
    ensures woken { OnOk result ((t : ℕ) → IsReady tasks.old t → IsReady ready.new t) }
    ensures kept { OnOk result ((t : ℕ) → IsReady ready.old t → IsReady ready.new t) }
{
    'waking: while let Some(t) = tasks.take_lowest() {
        ready.add(t)?;
    }
    Ok(())
}

/// Has those looked at that are in the group of a task.
pub(crate) fn release(books: &mut Books, u: u32) -> Result<(), Memory>
    ensures { OnOk result (Released u books.old books.new) }
{
    let Some(mut group) = take(&mut books.groups, u) else {
        return Ok(());
    };
    wake_all(&mut books.ready, &mut group.members)?;
    Ok(())
}

/// Passes the group of a task on to the lowest of its tasks that waits for its admission, which is to be looked at.
pub(crate) fn pass_on(st: &State, books: &mut Books, t: u32) -> Result<(), Memory>
    ensures { OnOk result (Passed st.now t books.old books.new) }
{
    let Some(mut group) = take(&mut books.groups, t) else {
        return Ok(());
    };
    let Some(heir) = take_made(st, &mut group.members) else {
        return Ok(());
    };
    books.ready.add(heir)?;
    release(books, heir)?;
    put(&mut books.groups, heir, group)?;
    Ok(())
}
