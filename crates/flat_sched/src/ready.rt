//! The tasks that a run has to look at, and the lowest of them.
ghost use Rattle.std.specs.Prelude.{◌≡◌, ◌≢◌, ◌⊎◌, ◌≤◌, ◌+◌, ℕ, [], length, IfSome, IfNone, OnOk, OnSome};
ghost use Rattle.flat_sched.specs.inner.Lists.{IsReady, IsReadyFrom};

use std::alloc::Global;
use std::collections::BinaryHeap;
use std::marker::Model;
use twe_base::Memory;

/// Tasks, of which the lowest is found at once. A task may stand in it twice. Contracts see it as a list of numbers,
/// each the distance of a task from the greatest number, in no order that they know.
#[derive(Drop)]
pub(crate) struct Ready {
    heap: BinaryHeap<u32>,
}

impl Model for Ready {
    ghost use Rattle.std.specs.Prelude.{ℕ, List};
    ghost use Rattle.std.specs.BinaryHeap.{IsHeap, heap_items};
    ghost use Rattle.std.specs.Ordering.{nat_cmp};

    ghost Value = { List ℕ };

    ghost view = { λ ready. heap_items ready.heap };

    ghost invariant = { λ ready. IsHeap nat_cmp (heap_items ready.heap) };
}

impl Ready {
    /// No tasks. It takes no memory.
    pub fn new(alloc: Global) -> Self
        ensures { result ≡ [] }
    {
        Ready {
            heap: BinaryHeap::new(alloc),
        }
    }

    /// Adds a task.
    pub fn add(&mut self, t: u32) -> Result<(), Memory>
        ensures added { OnOk result (IsReady self.new t) }
        ensures kept { OnOk result ((u : ℕ) → IsReady self.old u → IsReady self.new u) }
        ensures back { OnOk result ((u : ℕ) → IsReady self.new u → IsReady self.old u ⊎ (u ≡ t)) }
    {
        self.heap.push(u32::MAX - t)?;
        Ok(())
    }

    /// The lowest of the tasks, if there is one. It takes no memory.
    pub fn lowest(&self) -> Option<u32>
        ensures some { IfSome result (λ t. (u : ℕ) → IsReady self.now u → t ≤ u) }
        ensures there { IfSome result (IsReady self.now) }
        ensures none { IfNone result ((u : ℕ) → ¬ IsReady self.now u) }
    {
        let top = self.heap.peek()?;
        Some(u32::MAX - *top)
    }

    /// Removes the lowest of the tasks, once. It takes no memory.
    pub fn drop_lowest(&mut self)
        ensures kept { (t u : ℕ) → IsReady self.old t → ((v : ℕ) → IsReady self.old v → t ≤ v) → u ≢ t → IsReady self.old u
            → IsReady self.new u }
        ensures fewer { (t : ℕ) → IsReady self.old t → length self.new + 1 ≡ length self.old }
    {
        let Some(_lowest) = self.take_lowest() else {
            return;
        };
    }

    /// The lowest of the tasks from a number on, if there is one. It removes those below the number.
    pub fn lowest_from(&mut self, from: u64) -> Option<u32>
        ensures some { IfSome result (λ t. (u : ℕ) → IsReadyFrom from self.new u → t ≤ u) }
        ensures there { IfSome result (IsReadyFrom from self.new) }
        ensures kept { (u : ℕ) → IsReadyFrom from self.old u → IsReadyFrom from self.new u }
        ensures none { IfNone result ((u : ℕ) → ¬ IsReadyFrom from self.new u) }
    {
        'dropping: while let Some(t) = self.lowest() {
            if from <= u64::from(t) {
                return Some(t);
            }
            self.drop_lowest();
        }
        None
    }

    /// Takes the lowest of the tasks out, once. It takes no memory.
    pub fn take_lowest(&mut self) -> Option<u32>
        ensures some { IfSome result (λ t. (u : ℕ) → IsReady self.old u → t ≤ u) }
        ensures there { IfSome result (IsReady self.old) }
        ensures kept { IfSome result (λ t. (u : ℕ) → u ≢ t → IsReady self.old u → IsReady self.new u) }
        ensures back { (u : ℕ) → IsReady self.new u → IsReady self.old u }
        ensures none { IfNone result ((u : ℕ) → ¬ IsReady self.old u) }
        ensures fewer { OnSome result (length self.new + 1 ≡ length self.old) }
    {
        let top = self.heap.pop()?;
        Some(u32::MAX - top)
    }
}
