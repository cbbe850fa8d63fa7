//! What lies in the slot of a task, in memory of its own.
//!
//! So the slots of a table are small, although most tasks that may be made are not, and a slot is handed on without a move of the
//! frame in it.
ghost use Rattle.std.specs.Prelude.{◌≡◌, IfOk};

use crate::rule::TaskSlot;
use effect_sets::Summary;
use seg_meaning::{Children, Frame, Next};
use std::alloc::Global;
use std::marker::Model;
use twe_base::{Ints, List, Memory};

/// What lies in the slot of a task, in memory of its own. Contracts see what lies there.
#[derive(Debug, Drop)]
pub struct KeptSlot {
    /// The slot.
    pub slot: Box<TaskSlot>,
}

impl Model for KeptSlot {
    ghost use Rattle.floor_laws.specs.declared.rule.view.TaskSlot.{TaskSlot};

    ghost Value = { TaskSlot };

    ghost view = { λ kept. kept.slot.value };
}

impl KeptSlot {
    /// Keeps what lies in a slot.
    pub fn new(alloc: Global, slot: TaskSlot) -> Result<Self, Memory>
        ensures { IfOk result (λ kept. kept ≡ slot) }
    {
        let slot = Box::new(alloc, slot)?;
        Ok(KeptSlot { slot })
    }

    /// What lies in the slot. Its memory is given back.
    pub fn into_slot(self) -> TaskSlot
        ensures { result ≡ self }
    {
        Box::into_inner(self.slot)
    }
}

/// Memory in which what lies in the slot of one more task can be kept.
#[derive(Debug, Drop)]
pub struct SlotRoom {
    // What is of no use in it.
    blank: KeptSlot,
}

impl SlotRoom {
    /// Memory for one slot.
    pub fn new(alloc: Global) -> Result<Self, Memory> {
        let blank = KeptSlot::new(alloc, blank_slot(alloc))?;
        Ok(SlotRoom { blank })
    }

    /// Keeps what lies in a slot. It takes no memory.
    pub fn keep(self, slot: TaskSlot) -> KeptSlot
        ensures { result ≡ slot }
    {
        let KeptSlot { slot: mut room } = self.blank;
        let _blank = Box::replace(&mut room, slot);
        KeptSlot { slot: room }
    }
}

/// The slot of a task that does nothing. It takes no memory.
fn blank_slot(alloc: Global) -> TaskSlot {
    TaskSlot {
        frame: Frame {
            task: 0,
            decl: 0,
            body: None,
            fuel: 0,
            futures: List::new(alloc),
            out: Children::new(alloc),
            next: Next::Ended,
            value: 0,
            prints: Ints::new(alloc),
        },
        decl: 0,
        args: Ints::new(alloc),
        effects: Summary {
            effects: List::new(alloc),
        },
        parent: None,
    }
}
