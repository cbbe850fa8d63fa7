//! What a worker does in the tree, as its view says it.

use effect_sets::Effect;
use std::marker::Model;
use twe_base::List;

/// What a worker goes down the tree for.
#[derive(Debug, Drop)]
enum Purpose {
    /// To place a record of a task that is still to be admitted.
    Admit(u32, Effect),
    /// To place a record of a spawned child.
    Child(u32, Effect),
    /// To take a record out.
    Remove(u32, Effect),
}

/// Where it is.
#[derive(Debug, Drop)]
enum Way {
    /// Above its place, with one node.
    Descends(u32),
    /// Above its place, with a node and its child.
    Steps(u32, u32),
    /// At its place or below it, with the nodes of a path, the last first, and those that are finished.
    Walks(List<u32>, List<u32>),
    /// It gives these nodes back.
    Leaves(List<u32>),
}

/// What a worker does in the tree: what it went for, the place of its effect, and where it is.
#[derive(Debug, Drop)]
pub struct NodeActivity {
    purpose: Purpose,
    place: u32,
    way: Way,
}

impl Model for NodeActivity {
    ghost use Rattle.floor_laws.specs.admission.admission_core.States.{Activity};
    ghost use Rattle.floor_laws.specs.table.nodes.inner.Activities.{activity_of};

    ghost Value = { Activity };

    ghost view = { λ a. activity_of a.purpose a.place a.way };
}
