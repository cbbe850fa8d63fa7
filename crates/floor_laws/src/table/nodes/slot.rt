//! What lies in a slot of the table.

use crate::table::kept_slot::KeptSlot;
use crate::table::nodes::content::NodeContent;

/// What a worker goes down the tree for.
#[derive(Clone, Copy, Debug, PartialEq, Eq)]
pub enum ErrandKind {
    /// To place a record of a task that is still to be admitted.
    Admission,
    /// To place a record of a spawned child.
    Placing,
    /// To take a record out.
    Removal,
}

/// What a worker announces when it locks the root.
#[derive(Clone, Copy, Debug, PartialEq, Eq)]
pub struct Errand {
    /// What it goes for.
    pub kind: ErrandKind,
    /// The number of the task.
    pub task: u32,
    /// Which of the task's effects it is about, counted from 0.
    pub effect: usize,
    /// The place of that effect.
    pub place: u32,
}

/// What lies in a slot.
#[derive(Debug, Drop)]
pub enum TreeSlot {
    /// In the slot of a task: what lies in it on a table of the floor.
    Task(Option<KeptSlot>),
    /// In the slot of a node: the records that stand at the node.
    Node(NodeContent),
    /// In no slot: what a worker announces.
    Errand(Errand),
}
