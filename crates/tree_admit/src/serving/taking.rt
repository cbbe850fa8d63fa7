//! How a worker takes a task in hand.
ghost use Rattle.std.specs.Prelude.{◌≡◌, ◌<◌, IfOk, IfErr, OnErr};
ghost use Rattle.machine_state.specs.declared.state.State.{State};
ghost use Rattle.floor_laws.specs.rule.Fitting.{IsMade};
ghost use Rattle.floor_laws.specs.table.Alone.{IsAloneAt};
ghost use Rattle.task_floor.specs.Turns.{FoundBusy};
ghost use Rattle.tree_admit.specs.serving.Working.{SameTreeStand};
ghost use Rattle.tree_admit.specs.serving.inner.Taking.{HasTakenInHand};

use crate::serving::worker::{Holding, TreeWorker};
use crate::serving::workshop::Workshop;
use floor_laws::table::Named;
use floor_laws::table::nodes::Planted;
use task_floor::steps::Busy;

impl<'a, N: Named + Planted> Workshop<'a, N> {
    /// Takes a task in hand, if its turn is free. If it is not, the worker has nothing in hand still.
    pub(crate) fn take_in_hand(
        &self,
        worker: TreeWorker,
        task: u32,
    ) -> Result<Holding, (TreeWorker, Busy)>
        requires here { worker.table_id ≡ self.now }
        requires task { task < N.lim.tasks }
        ensures taken { IfOk result (HasTakenInHand N.nodes worker task) }
        ensures busy { IfErr result (λ left. FoundBusy worker.me left.0.me task left.1.holder) }
        ensures same { IfErr result (λ left. SameTreeStand worker left.0) }
        ensures alone { OnErr result ((st : State) → IsAloneAt N.prog N.lim worker.me.0.floor st → ¬ IsMade st task) }
    {
        let TreeWorker {
            number,
            mut stand,
            log,
        } = worker;
        match self.floor.take_turn(&mut stand, number, task) {
            Ok(slot) => Ok(Holding {
                number,
                stand,
                log,
                task,
                slot,
            }),
            Err(busy) => Err((TreeWorker { number, stand, log }, busy)),
        }
    }
}
