//! A worker of a floor.
ghost use Rattle.std.specs.Prelude.{◌≡◌, ℕ};
ghost use Rattle.task_floor.specs.Holding.{IsIdleBeside};

use effect_sets::Effect;
use floor_laws::table::KeptSlot;
use std::marker::Model;
use task_floor::{EntryLog, Stand, Tally};

/// A worker with nothing in hand: it has no turn, no node and no open segment. Clauses see its stand.
#[derive(Drop)]
pub struct TreeWorker {
    pub(crate) number: u32,
    pub(crate) stand: Stand,
    pub(crate) log: EntryLog,
}

impl Model for TreeWorker {
    ghost use Rattle.task_floor.specs.Holding.{IsIdleBeside};
    ghost use Rattle.task_floor.specs.Stands.{TreeStand};

    ghost Value = { TreeStand };

    ghost view = { λ worker. worker.stand };

    ghost invariant = { λ worker. IsIdleBeside worker.number worker.stand.me worker.log };
}

impl TreeWorker {
    /// The worker with this number, this stand and this log.
    pub fn new(number: u32, stand: Stand, log: EntryLog) -> Self
        requires { IsIdleBeside number stand.me log }
        ensures { result ≡ stand }
    {
        TreeWorker { number, stand, log }
    }

    /// The worker's stand and its log.
    pub fn into_stand(self) -> (Stand, EntryLog)
        ensures stand { result.0 ≡ self }
        ensures idle { (number : ℕ) × IsIdleBeside number result.0.me result.1 }
    {
        let TreeWorker {
            number: _,
            stand,
            log,
        } = self;
        (stand, log)
    }

    /// How many tasks the worker has ended, and how much fuel they took.
    pub fn tally(&self) -> Tally {
        self.log.tally()
    }
}

/// A worker with a task in hand, and what lies in that task's slot.
#[derive(Drop)]
pub(crate) struct Holding {
    pub number: u32,
    pub stand: Stand,
    pub log: EntryLog,
    pub task: u32,
    pub slot: KeptSlot,
}

/// The effects of the task whose slot this is.
pub(crate) fn effects_in(slot: &KeptSlot) -> &[Effect]
    ensures { result.now ≡ slot.now.effects.effects }
{
    slot.slot.effects.effects.as_slice()
}
