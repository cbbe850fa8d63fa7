//! Tasks in the order in which they were enabled, some of which decide for those before them.
ghost use Rattle.std.specs.Prelude.{◌≡◌, ◌<◌, ◌-◌, ◌⊎◌, [], ℕ, Some, length, slice_get, IfOk, IfSome, IsTrue, OnOk};
ghost use Rattle.twe_machine.specs.declared.queue.Queued.{Queued};
ghost use Rattle.machine_state.specs.declared.state.TaskStatus.TheVariants.{Enabled};
ghost use Rattle.twe_machine.specs.Queues.{FirstKeepWaiting, IsDecided, IsQueued, MayName};
ghost use Rattle.machine_state.specs.Rows.{HasStatus};

use crate::bars::is_enabled;
use machine_state::State;
use std::alloc::Global;
use twe_base::{List, Memory};

/// How many waits are followed from one entry whenever another one is entered.
const SHORT_WALK: usize = 64;

/// A task of a queue.
#[derive(Clone, Copy, Debug)]
pub struct Queued {
    /// The task.
    pub task: u32,
    /// The place of an entry, from the first up to this one, that decides for those before it, if one is known.
    pub decider: Option<usize>,
}

/// Tasks in the order in which they were enabled, and perhaps some that are over.
///
/// An entry decides for those before it if each of them is done or waits for it, directly or through others. As long as it is
/// not done they can do nothing, so one look at it tells of all of them whether they wait for a task.
#[derive(Debug, Drop)]
pub struct Queue {
    /// The tasks.
    pub entries: List<Queued>,
    /// With so many entries those that are over are taken out.
    pub full: usize,
    /// How many were entered since walks of any length were made to find whether all wait for the one that is entered.
    pub unpaid: usize,
}

impl Queue {
    /// No tasks. It takes no memory.
    pub(crate) fn new(alloc: Global) -> Self
        ensures { result.entries ≡ [] }
    {
        Queue {
            entries: List::new(alloc),
            full: 8,
            unpaid: 0,
        }
    }

    /// Adds an enabled task at the end.
    pub(crate) fn push(&mut self, alloc: Global, st: &State, t: u32) -> Result<(), Memory>
        requires { IsDecided st.now.links self.old.entries }
        ensures added { OnOk result (IsQueued self.new.entries t) }
        ensures kept { OnOk result ((s : ℕ)
            → HasStatus st.now s Enabled → IsQueued self.old.entries s → IsQueued self.new.entries s) }
        ensures decided { OnOk result (IsDecided st.now.links self.new.entries) }
    {
        self.drop_over(st);
        self.sift(alloc, st)?;
        let most = self.next_walk();
        self.settle_last(st, most)?;
        let decider = self.decider_of(st, t, most);
        self.entries.push(Queued { task: t, decider })?;
        Ok(())
    }

    /// How many waits are followed from one entry while another one is entered: a few, and all of them once so many were entered
    /// since the last time that this costs each of them no more than a few.
    fn next_walk(&mut self) -> usize
        ensures { self.new.entries ≡ self.old.entries }
    {
        self.unpaid = self.unpaid.saturating_add(1);
        if self.unpaid <= self.entries.len() / SHORT_WALK {
            return SHORT_WALK;
        }
        self.unpaid = 0;
        usize::MAX
    }

    /// The place that the entry of a task that comes after the others names.
    fn decider_of(&self, st: &State, t: u32, most: usize) -> Option<usize>
        requires { IsDecided st.now.links self.now.entries }
        ensures { IfSome result (MayName st.now.links self.now.entries t) }
    {
        let count = self.entries.len();
        if self.first_all_wait(st, count, t, most) {
            return Some(count);
        }
        match self.decider_before(count) {
            Some(at) => Some(at),
            None => None,
        }
    }

    /// Has the last entry decide for those before it if they all wait for its task by now, as a task waits for one that it
    /// has spawned.
    fn settle_last(&mut self, st: &State, most: usize) -> Result<(), Memory>
        requires { IsDecided st.now.links self.old.entries }
        ensures kept { OnOk result ((s : ℕ) → IsQueued self.old.entries s → IsQueued self.new.entries s) }
        ensures decided { OnOk result (IsDecided st.now.links self.new.entries) }
    {
        let count = self.entries.len();
        if count == 0 || !self.decides_by_now(st, count - 1, most) {
            return Ok(());
        }
        let last = count - 1;
        let task = self.task_at(last);
        self.entries.truncate(last);
        self.entries.push(Queued {
            task,
            decider: Some(last),
        })?;
        Ok(())
    }

    /// Whether the entry at a place does not decide yet, and all before it are found to be done or to wait for its task.
    fn decides_by_now(&self, st: &State, at: usize, most: usize) -> bool
        requires there { at < length self.now.entries }
        requires decided { IsDecided st.now.links self.now.entries }
        ensures { IsTrue result → (e : Queued) → slice_get self.now.entries at ≡ Some e
            → FirstKeepWaiting st.now.links self.now.entries at e.task }
    {
        let entry = entry_at(self.entries.as_slice(), at);
        if decides(entry, at) {
            return false;
        }
        self.first_all_wait(st, at, entry.task, most)
    }

    /// Takes the tasks at the end out that are over. It takes no memory.
    pub(crate) fn drop_over(&mut self, st: &State)
        ensures kept { (s : ℕ) → HasStatus st.now s Enabled → IsQueued self.old.entries s → IsQueued self.new.entries s }
        ensures decided { IsDecided st.now.links self.old.entries → IsDecided st.now.links self.new.entries }
    {
        'dropping: while self.ends_over(st) {
            let last = self.entries.len() - 1;
            self.entries.truncate(last);
        }
    }

    /// Whether there is a last task, and it is over.
    fn ends_over(&self, st: &State) -> bool
        ensures some { IsTrue result → 0 < length self.now.entries }
        ensures over { IsTrue result → (e : Queued)
            → slice_get self.now.entries (length self.now.entries - 1) ≡ Some e → ¬ HasStatus st.now e.task Enabled }
    {
        let count = self.entries.len();
        count > 0 && !is_enabled(st, self.task_at(count - 1))
    }

    /// The task at a place.
    pub(crate) fn task_at(&self, at: usize) -> u32
        ensures { (e : Queued) → slice_get self.now.entries at ≡ Some e → e.task ≡ result }
    {
        match self.entries.get(at) {
            None => 0,
            Some(entry) => entry.task,
        }
    }

    /// Takes all tasks out that are over, if there are many entries.
    fn sift(&mut self, alloc: Global, st: &State) -> Result<(), Memory>
        requires { IsDecided st.now.links self.old.entries }
        ensures kept { OnOk result ((s : ℕ)
            → HasStatus st.now s Enabled → IsQueued self.old.entries s → IsQueued self.new.entries s) }
        ensures decided { OnOk result (IsDecided st.now.links self.new.entries) }
    {
        if self.entries.len() < self.full {
            return Ok(());
        }
        let entries = sifted(alloc, st, self.entries.as_slice())?;
        self.full = entries.len().saturating_mul(2).saturating_add(8);
        self.entries = entries;
        Ok(())
    }
}

/// The entries of the tasks that are enabled, in their order.
fn sifted(alloc: Global, st: &State, entries: &[Queued]) -> Result<List<Queued>, Memory>
    requires { IsDecided st.now.links entries.now }
    ensures kept { IfOk result (λ left. (s : ℕ) → HasStatus st.now s Enabled → IsQueued entries.now s → IsQueued left s) }
    ensures decided { IfOk result (IsDecided st.now.links) }
{
    let mut left: List<Queued> = List::new(alloc);
    let mut decider = None;
    for at in 0..entries.len() {
        let entry = entry_at(entries, at);
        if !is_enabled(st, entry.task) {
            continue;
        }
        decider = decider_now(entry, at, left.len(), decider);
        left.push(Queued {
            task: entry.task,
            decider,
        })?;
    }
    Ok(left)
}

/// The entry at a place.
fn entry_at(entries: &[Queued], at: usize) -> Queued
    requires { at < length entries.now }
    ensures { slice_get entries.now at ≡ Some result }
{
    entries[at]
}

/// The new place of an entry that decides, if this one at `at` does, and else the one before.
fn decider_now(entry: Queued, at: usize, place: usize, before: Option<usize>) -> Option<usize>
    ensures { (result ≡ before) ⊎ ((result ≡ Some place) × (entry.decider ≡ Some at)) }
{
    if decides(entry, at) {
        Some(place)
    } else {
        before
    }
}

/// Whether an entry at a place decides for those before it.
fn decides(entry: Queued, at: usize) -> bool
    ensures { IsTrue result → entry.decider ≡ Some at }
{
    matches!(entry.decider, Some(own) if own == at)
}
