//! The tasks that have just made one that may be long.
//!
//! What a segment costs is learned by declaration. A task that makes others, one after another, is brief each time. If it then
//! runs on for long under the lock, nobody can begin what it has made. So its next segment is not taken to be brief.

use std::alloc::Global;
use std::collections::BTreeSet;
use twe_base::Memory;

/// The tasks whose last segment has made a task that may be long.
#[derive(Drop)]
pub(crate) struct Makers {
    tasks: BTreeSet<u32>,
}

impl Makers {
    /// No tasks.
    pub(crate) fn new(alloc: Global) -> Self {
        Makers {
            tasks: BTreeSet::new(alloc),
        }
    }

    /// Whether a task is one of them.
    pub(crate) fn has(&self, task: u32) -> bool {
        self.tasks.contains(&task)
    }

    /// Notes that a segment of a task has made a task that may be long, or not.
    pub(crate) fn note(&mut self, task: u32, made_long: bool) -> Result<(), Memory> {
        if made_long {
            self.tasks.insert(task)?;
        } else {
            self.tasks.remove(&task);
        }
        Ok(())
    }
}
