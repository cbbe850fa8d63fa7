//! The books of a run: what it keeps beside its state, so that it looks at few tasks for each move.
ghost use Rattle.std.specs.Prelude.{◌≡◌, [], IfOk};
ghost use Rattle.twe_base.specs.Limits.{Bounds};
ghost use Rattle.twe_program.specs.Program.{Program};
ghost use Rattle.twe_machine.specs.Listings.{IsListing};
ghost use Rattle.machine_state.specs.Moves.{start_of};

use crate::groups::Groups;
use crate::ready::Ready;
use std::alloc::Global;
use twe_base::{List, Memory};
use twe_machine::EnabledTasks;

/// The books of a run.
#[derive(Drop)]
pub(crate) struct Books {
    /// The tasks to be looked at: each task with a legal move is one of them.
    pub ready: Ready,
    /// For each task that is not done, those that wait for it.
    pub waiters: List<List<u32>>,
    /// For each task, those that were found to be held by it, and are not in its group.
    pub held: List<List<u32>>,
    /// For each task its group of those that it holds, or that are looked at after it.
    pub groups: Groups,
    /// The enabled tasks.
    pub enabled: EnabledTasks,
}

impl Books {
    /// The books of a run that has not begun.
    pub fn new(alloc: Global) -> Result<Self, Memory>
        ensures ready { IfOk result (λ books. books.ready ≡ []) }
        ensures waiters { IfOk result (λ books. books.waiters ≡ []) }
        ensures held { IfOk result (λ books. books.held ≡ []) }
        ensures groups { IfOk result (λ books. books.groups ≡ []) }
        ensures enabled { IfOk result (λ books. (p : Program) (lim : Bounds) → IsListing (start_of p lim) books.enabled) }
    {
        Ok(Books {
            ready: Ready::new(alloc),
            waiters: List::new(alloc),
            held: List::new(alloc),
            groups: List::new(alloc),
            enabled: EnabledTasks::new(alloc)?,
        })
    }
}
