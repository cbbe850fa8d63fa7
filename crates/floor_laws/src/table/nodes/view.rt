//! What a worker knows of the floor and of the nodes. Views exist in proofs alone.

use crate::table::View;
use crate::table::nodes::activity::NodeActivity;
use crate::table::nodes::record::{KnownWait, NodeRecord};
use twe_base::List;

/// A worker took the content of a node, or gave it, or changed it.
#[derive(Debug, Drop)]
pub struct ContentChange {
    /// The number of the node.
    pub node: u32,
    /// The content; `None` if it was given.
    pub content: Option<List<NodeRecord>>,
}

/// What a worker found in a word that it did not change.
#[derive(Clone, Copy, Debug, PartialEq, Eq)]
pub enum Look {
    /// This was in the turn word of a task, which was not free.
    AtTurn {
        /// The number of the task.
        task: u32,
        /// What it found.
        found: u64,
    },
    /// This was in the phase word of a task.
    AtPhase {
        /// The number of the task.
        task: u32,
        /// What it found.
        found: u64,
    },
}

/// What a worker knows.
#[derive(Debug, Drop)]
pub struct TreeView {
    /// What it knows of the floor.
    pub floor: View,
    /// What it does in the tree, if it does something.
    pub activity: Option<NodeActivity>,
    /// The contents of nodes that it has had and given, the latest first.
    pub kept: List<ContentChange>,
    /// The records that it has placed.
    pub placed: List<NodeRecord>,
    /// The records that it has removed.
    pub removed: List<NodeRecord>,
    /// The records that it has placed since it got their task's turn, and has not removed.
    pub fresh: List<NodeRecord>,
    /// The records of tasks whose turns it has that it knows not to stand.
    pub clear: List<NodeRecord>,
    /// The waits that it knows.
    pub waits: List<KnownWait>,
    /// What it found in words that it did not change, the latest first. No rule asks anything of it.
    pub looks: List<Look>,
}
