//! Records of nodes and facts on them, as they lie in slots and as workers know them.
ghost use Rattle.std.specs.Prelude.{◌≡◌};
ghost use Rattle.floor_laws.specs.table.nodes.Without.{same_record};

use crate::table::nodes::same_effect::same_effect;
use effect_sets::Effect;
use std::marker::Model;

/// An effect of a task, which stands at a node.
#[derive(Debug, Drop)]
pub struct NodeRecord {
    task: u32,
    effect: Effect,
    node: u32,
}

impl Model for NodeRecord {
    ghost use Rattle.floor_laws.specs.admission.admission_core.States.{Record};

    ghost Value = { Record };

    ghost view = { λ r. record { task = r.task; effect = r.effect; node = r.node } };
}

impl NodeRecord {
    /// The record of this effect of a task, at this node. It takes no memory.
    pub fn new(task: u32, effect: Effect, node: u32) -> Self
        ensures { result ≡ record { task = task; effect = effect; node = node } }
    {
        NodeRecord { task, effect, node }
    }

    /// The number of the task.
    pub fn task(&self) -> u32
        ensures { result ≡ self.now.task }
    {
        self.task
    }

    /// The effect.
    pub fn effect(&self) -> &Effect
        ensures { result.now ≡ self.now.effect }
    {
        &self.effect
    }

    /// The number of the node.
    pub fn node(&self) -> u32
        ensures { result ≡ self.now.node }
    {
        self.node
    }

    /// Whether this is the record of this effect of that task, at that node.
    pub fn is_of(&self, task: u32, effect: &Effect, node: u32) -> bool
        ensures { result ≡ same_record self.now (record { task = task; effect = effect.now; node = node }) }
    {
        self.task == task && (same_effect(&self.effect, effect) && self.node == node)
    }
}

/// A worker knows that this task waits for that one, directly or through others, unless that one is done.
#[derive(Debug, Drop)]
pub struct KnownWait {
    waiter: u32,
    awaited: u32,
}

impl Model for KnownWait {
    ghost use Rattle.floor_laws.specs.rule.nodes.Trees.{WaitFact};

    ghost Value = { WaitFact };

    ghost view = { λ fact. record { waiter = fact.waiter; awaited = fact.awaited } };
}
