//! How a worker admits a task.
ghost use Rattle.std.specs.Prelude.{◌≡◌, ◌<◌, IfOk};
ghost use Rattle.machine_state.specs.declared.state.TaskStatus.TheVariants.{Enabled};
ghost use Rattle.floor_laws.specs.declared.rule.view.HeldTurn.{HeldTurn};
ghost use Rattle.floor_laws.specs.declared.rule.view.Phase.TheVariants.{Made};
ghost use Rattle.floor_laws.specs.rule.Rows.{phase_of};
ghost use Rattle.floor_laws.specs.table.Added.{HasGrown};
ghost use Rattle.floor_laws.specs.table.nodes.Seats.{TreeSeat};
ghost use Rattle.task_floor.specs.Holding.{HoldsDrawnBeside, HoldsTaskBeside};
ghost use Rattle.tree_admit.specs.serving.Alone.{AdmitsIfAlone};
ghost use Rattle.tree_admit.specs.serving.Working.{HasTriedToAdmit, SameTreeStand};
ghost use Rattle.tree_admit.specs.serving.inner.InHand.{HasTakenSince};

use crate::serving::admission::Admission;
use crate::serving::worker::{Holding, TreeWorker, effects_in};
use crate::serving::workshop::Workshop;
use crate::{Admittance, try_admit};
use floor_laws::rule::Phase;
use floor_laws::table::Named;
use floor_laws::table::nodes::Planted;
use std::sync::Wait;
use twe_base::Memory;

impl<'a, N: Named + Planted> Workshop<'a, N> {
    // It waits only for locks of nodes, and whoever has such a lock waits for none above it. No clause says so.
    /// Lets a worker admit a task, if the task's turn is free, the task waits for its admission, and no record that the worker
    /// meets in the tree is in the way of it. Afterwards the worker has nothing in hand again. After `Memory` the worker is gone.
    pub fn admit<R: Wait>(
        &self,
        rt: &R,
        worker: TreeWorker,
        task: u32,
    ) -> Result<(TreeWorker, Admission), Memory>
        requires here { worker.table_id ≡ self.now }
        requires task { task < N.lim.tasks }
        ensures tried { IfOk result (λ tried. HasTriedToAdmit N.prog N.lim worker.me tried.0.me task tried.1) }
        ensures alone { IfOk result (λ tried. AdmitsIfAlone N.prog N.lim worker.me.0.floor task tried.1) }
        ensures same { IfOk result (λ tried. SameTreeStand worker tried.0) }
    {
        match self.take_in_hand(worker, task) {
            Ok(holding) => self.admit_taken(rt, holding),
            Err(left) => {
                let (worker, busy) = left;
                let holder = busy.holder;
                Ok((worker, Admission::Busy { holder }))
            }
        }
    }

    /// The same of a task whose turn was taken.
    fn admit_taken<R: Wait>(
        &self,
        rt: &R,
        holding: Holding,
    ) -> Result<(TreeWorker, Admission), Memory>
        requires here { holding.stand.table_id ≡ self.now }
        requires task { holding.task < N.lim.tasks }
        requires holds { (turn : HeldTurn)
            × HoldsTaskBeside N.nodes holding.number holding.stand.me holding.log holding.task holding.slot turn }
        ensures tried { (before : TreeSeat) → HasTakenSince before holding.stand.me holding.task
            → IfOk result (λ tried. HasTriedToAdmit N.prog N.lim before tried.0.me holding.task tried.1) }
        ensures alone { (before : TreeSeat) → HasTakenSince before holding.stand.me holding.task
            → IfOk result (λ tried. AdmitsIfAlone N.prog N.lim before.0.floor holding.task tried.1) }
        ensures same { IfOk result (λ tried. SameTreeStand holding.stand tried.0) }
    {
        let Holding {
            number,
            mut stand,
            log,
            task,
            slot,
        } = holding;
        let phase = self.floor.status(&mut stand, task);
        let held = Holding {
            number,
            stand,
            log,
            task,
            slot,
        };
        match phase {
            Phase::Made => self.admit_made(rt, held),
            _ => Ok((self.give_back(held), Admission::Over)),
        }
    }

    /// The same of a task that waits for its admission.
    fn admit_made<R: Wait>(
        &self,
        rt: &R,
        holding: Holding,
    ) -> Result<(TreeWorker, Admission), Memory>
        requires here { holding.stand.table_id ≡ self.now }
        requires task { holding.task < N.lim.tasks }
        requires holds { (turn : HeldTurn)
            × HoldsTaskBeside N.nodes holding.number holding.stand.me holding.log holding.task holding.slot turn
            × (phase_of turn.row ≡ Made) }
        ensures tried { (before : TreeSeat) → HasTakenSince before holding.stand.me holding.task
            → IfOk result (λ tried. HasTriedToAdmit N.prog N.lim before tried.0.me holding.task tried.1) }
        ensures alone { (before : TreeSeat) → HasTakenSince before holding.stand.me holding.task
            → IfOk result (λ tried. AdmitsIfAlone N.prog N.lim before.0.floor holding.task tried.1) }
        ensures same { IfOk result (λ tried. SameTreeStand holding.stand tried.0) }
    {
        let Holding {
            number,
            mut stand,
            mut log,
            task,
            slot,
        } = holding;
        log.reserve()?;
        let effects = effects_in(&slot);
        let footing = self.footing(number, 1);
        let admittance = try_admit(
            rt, self.alloc, self.floor, self.shape, &mut stand, footing, task, effects,
        )?;
        match admittance {
            Admittance::Admitted => {
                let _number = self
                    .floor
                    .commit_admit(self.alloc, &mut stand, &mut log, task);
                let drawn = Holding {
                    number,
                    stand,
                    log,
                    task,
                    slot,
                };
                Ok((self.park(drawn), Admission::Admitted))
            }
            Admittance::Held { bar } => {
                let held = Holding {
                    number,
                    stand,
                    log,
                    task,
                    slot,
                };
                Ok((self.give_back(held), Admission::Held { by: bar.by }))
            }
        }
    }

    /// Gives the turn of the task in hand back as it is.
    pub(crate) fn give_back(&self, holding: Holding) -> TreeWorker
        requires here { holding.stand.table_id ≡ self.now }
        requires task { holding.task < N.lim.tasks }
        requires holds { (turn : HeldTurn)
            × HoldsTaskBeside N.nodes holding.number holding.stand.me holding.log holding.task holding.slot turn }
        ensures part { result.me.0.floor.part ≡ holding.stand.me.0.floor.part }
        ensures knows { (result.me.0.kept ≡ holding.stand.me.0.kept) × (result.me.0.waits ≡ holding.stand.me.0.waits)
            × (result.me.0.looks ≡ holding.stand.me.0.looks) }
        ensures turns { HasGrown holding.stand.me.0.floor.turns result.me.0.floor.turns }
        ensures same { SameTreeStand holding.stand result }
    {
        let Holding {
            number,
            mut stand,
            log,
            task,
            slot,
        } = holding;
        self.floor.give_turn(&mut stand, task, slot);
        TreeWorker { number, stand, log }
    }

    /// Leaves a task that goes on, whose entry was drawn.
    pub(crate) fn park(&self, holding: Holding) -> TreeWorker
        requires here { holding.stand.table_id ≡ self.now }
        requires task { holding.task < N.lim.tasks }
        requires holds { (turn : HeldTurn)
            × HoldsDrawnBeside holding.number holding.stand.me holding.log holding.task holding.slot turn
            × (turn.row.status ≡ Enabled) }
        ensures part { result.me.0.floor.part ≡ holding.stand.me.0.floor.part }
        ensures same { SameTreeStand holding.stand result }
    {
        let Holding {
            number,
            mut stand,
            log,
            task,
            slot,
        } = holding;
        self.floor.park(&mut stand, task, slot);
        TreeWorker { number, stand, log }
    }
}
