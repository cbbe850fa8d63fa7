//! A floor that is closed, and the tasks that lay in its slots.
ghost use Rattle.std.specs.Prelude.{◌≡◌, ◌<◌, ◌≤◌, ◌+◌, ◌++◌, ◌∷◌, [], ℕ, false, map, take, vec_len, vec_capacity, slice_index_or, IfOk};
ghost use Rattle.core.specs.Mem.Slots.{IsFull, slots_filled, slots_items, slots_len};
ghost use Rattle.core.specs.Mem.Slots.Ownership.{Filled};
ghost use Rattle.floor_laws.specs.declared.table.view.SeatKind.TheVariants.{Main};
ghost use Rattle.floor_laws.specs.table.Holds.{HasGivenAll};
ghost use Rattle.task_floor.specs.inner.Emptying.{EndedWith, task_in};
ghost use Rattle.task_floor.specs.steps.inner.Reading.{held_in};

use crate::floor::{Floor, Stand};
use atomic_table::Closed;
use floor_laws::table::nodes::{Planted, TreeSlot};
use floor_laws::table::{KeptSlot, Named};
use std::alloc::Global;
use twe_base::{List, Memory};

/// The table of a floor that is closed, of which only the words are left, and the tasks that were made, in their order.
pub(crate) struct Emptied {
    pub table: Closed<TreeSlot, Global>,
    pub tasks: List<KeptSlot>,
}

impl<N: Named + Planted> Floor<N> {
    /// Closes the floor and moves the tasks out of it. The records at the nodes are dropped.
    pub(crate) fn empty(self, alloc: Global, stand: Stand) -> Result<Emptied, Memory>
        requires here { stand.table_id ≡ self }
        requires main { stand.me.0.floor.kind ≡ Main }
        requires alone { (stand.me.0.floor.out ≡ 0) × HasGivenAll stand.me.0.floor }
        ensures full { IfOk result (λ left. IsFull left.table.words) }
        ensures empty { IfOk result (λ left. (k : ℕ) → k < slots_len left.table.slots
            → slice_index_or (slots_filled left.table.slots) k false ≡ false) }
        ensures ended { IfOk result
            (λ left. EndedWith N.prog N.lim stand.me.0.floor (slots_items left.table.words) left.tasks) }
    {
        let task_count = self.tasks;
        let mut tasks = Vec::with_capacity(alloc, task_count)?;
        let mut table = self.close(stand);
        take_tasks(&mut table, task_count, &mut tasks);
        drop_nodes(&mut table, task_count);
        Ok(Emptied {
            table,
            tasks: List::from(tasks),
        })
    }
}

/// Moves what lies in the first `count` slots, those of tasks, into a vector that has room for it.
fn take_tasks(closed: &mut Closed<TreeSlot, Global>, count: usize, tasks: &mut Vec<KeptSlot>)
    requires full { IsFull closed.old.slots }
    requires within { count ≤ slots_len closed.old.slots }
    requires room { vec_len tasks.old + count ≤ vec_capacity tasks.old }
    ensures items { tasks.new.items ≡ tasks.old.items ++ held_in (map task_in (take count (slots_items closed.old.slots))) }
    ensures words { closed.new.words ≡ closed.old.words }
    ensures size { slots_len closed.new.slots ≡ slots_len closed.old.slots }
    ensures empty { (k : ℕ) → k < count → slice_index_or (slots_filled closed.new.slots) k false ≡ false }
    ensures others { Filled (slots_filled closed.new.slots) count (slots_len closed.new.slots) }
{
    for i in 0..count {
        add_task(tasks, closed.take(i));
    }
}

/// Adds what lies in a slot to a vector that has room for it, if it is the slot of a task and not empty.
fn add_task(tasks: &mut Vec<KeptSlot>, slot: TreeSlot)
    requires { vec_len tasks.old < vec_capacity tasks.old }
    ensures items { tasks.new.items ≡ tasks.old.items ++ held_in (task_in slot ∷ []) }
    ensures count { vec_len tasks.new ≤ vec_len tasks.old + 1 }
    ensures room { vec_capacity tasks.new ≡ vec_capacity tasks.old }
{
    match slot {
        TreeSlot::Task(Some(kept)) => tasks.push_reserved(kept),
        TreeSlot::Task(None) => {}
        TreeSlot::Node(_content) => {}
        TreeSlot::Errand(_) => {}
    }
}

/// Drops what lies in the slots from `first` on.
fn drop_nodes(closed: &mut Closed<TreeSlot, Global>, first: usize)
    requires within { first ≤ slots_len closed.old.slots }
    requires empty { (k : ℕ) → k < first → slice_index_or (slots_filled closed.old.slots) k false ≡ false }
    requires others { Filled (slots_filled closed.old.slots) first (slots_len closed.old.slots) }
    ensures words { closed.new.words ≡ closed.old.words }
    ensures empty { (k : ℕ) → k < slots_len closed.new.slots
        → slice_index_or (slots_filled closed.new.slots) k false ≡ false }
{
    for i in first..closed.slot_count() {
        let _content = closed.take(i);
    }
}
