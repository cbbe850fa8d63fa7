//! How a worker runs the next segment of a task.
ghost use Rattle.std.specs.Prelude.{◌≡◌, ◌<◌, ℕ, IfOk};
ghost use Rattle.floor_laws.specs.declared.rule.view.HeldTurn.{HeldTurn};
ghost use Rattle.task_floor.specs.steps.Committing.{status_after};
ghost use Rattle.task_floor.specs.steps.Working.{HasRunOne};
ghost use Rattle.floor_laws.specs.table.Layout.{word_of_phase};
ghost use Rattle.floor_laws.specs.table.nodes.Alone.{LearnsAlone};
ghost use Rattle.floor_laws.specs.table.nodes.FloorSeats.{floor_seat};
ghost use Rattle.floor_laws.specs.table.nodes.Follows.{FollowedPhase};
ghost use Rattle.floor_laws.specs.table.nodes.Seats.{TreeSeat};
ghost use Rattle.task_floor.specs.Holding.{HoldsDrawnBeside, HoldsReadyBeside, HoldsTaskBeside};
ghost use Rattle.tree_admit.specs.serving.Alone.{ServesIfAlone};
ghost use Rattle.tree_admit.specs.serving.Working.{HasServedBeside, SameTreeStand};
ghost use Rattle.tree_admit.specs.serving.inner.InHand.{HasEndedIn, HasTakenSince, HoldsMadeBeside, HoldsRanBeside};

use crate::serving::worker::{Holding, TreeWorker, effects_in};
use crate::serving::workshop::Workshop;
use crate::{place_spawned, release};
use floor_laws::rule::Phase;
use floor_laws::table::nodes::Planted;
use floor_laws::table::{KeptSlot, Named};
use seg_journal::End;
use seg_meaning::Stop;
use std::sync::Wait;
use steal_pool::gates::Gate;
use task_floor::Committed;
use task_floor::steps::{Readiness, Served, an_end_says_the_status};
use twe_base::Memory;

impl<'a, N: Named + Planted> Workshop<'a, N> {
    /// What the phase word of a task says: the worker has looked at it. It draws no entry.
    pub fn phase(&self, worker: &mut TreeWorker, task: u32) -> Phase
        requires here { worker.old.table_id ≡ self.now }
        requires task { task < N.lim.tasks }
        ensures found { FollowedPhase N.lim worker.old.me task (word_of_phase result) worker.new.me }
        ensures alone { LearnsAlone N.prog N.lim worker.old.me.0 task (word_of_phase result) }
        ensures part { worker.new.me.0.floor.part ≡ worker.old.me.0.floor.part }
        ensures same { SameTreeStand worker.old worker.new }
    {
        self.floor.status(&mut worker.stand, task)
    }

    // The gate is told of each access to a cell before it is made. Apart from that it waits only for locks of nodes. No clause
    // says so.
    /// Lets a worker run the next segment of a task and draw its entry, if the task's turn is free and the task may run. If
    /// the task waits for one that is done, it takes that one's value first. If the segment makes a spawned child, the child's
    /// records are placed. If the task has ended, its records are taken out. The segments of other tasks go on meanwhile.
    /// Afterwards the worker has nothing in hand again. After `Memory` the worker is gone.
    pub fn serve<R: Wait, G: Gate>(
        &self,
        rt: &R,
        worker: TreeWorker,
        task: u32,
        gate: &G,
    ) -> Result<(TreeWorker, Served), Memory>
        requires here { worker.table_id ≡ self.now }
        requires task { task < N.lim.tasks }
        ensures served { IfOk result (λ served. HasServedBeside worker.me served.0.me task served.1) }
        ensures alone { IfOk result (λ served. ServesIfAlone N.prog N.lim worker.me.0.floor task served.1) }
        ensures same { IfOk result (λ served. SameTreeStand worker served.0) }
    {
        match self.take_in_hand(worker, task) {
            Ok(holding) => self.serve_taken(rt, holding, gate),
            Err(left) => {
                let (worker, busy) = left;
                let holder = busy.holder;
                Ok((worker, Served::Busy { holder }))
            }
        }
    }

    /// The same of a task whose turn was taken.
    fn serve_taken<R: Wait, G: Gate>(
        &self,
        rt: &R,
        holding: Holding,
        gate: &G,
    ) -> Result<(TreeWorker, Served), Memory>
        requires here { holding.stand.table_id ≡ self.now }
        requires task { holding.task < N.lim.tasks }
        requires holds { (turn : HeldTurn)
            × HoldsTaskBeside N.nodes holding.number holding.stand.me holding.log holding.task holding.slot turn }
        ensures served { (before : TreeSeat) → HasTakenSince before holding.stand.me holding.task
            → IfOk result (λ served. HasServedBeside before served.0.me holding.task served.1) }
        ensures alone { (before : TreeSeat) → HasTakenSince before holding.stand.me holding.task
            → IfOk result (λ served. ServesIfAlone N.prog N.lim before.0.floor holding.task served.1) }
        ensures same { IfOk result (λ served. SameTreeStand holding.stand served.0) }
    {
        let Holding {
            number,
            mut stand,
            log,
            task,
            mut slot,
        } = holding;
        let readiness = self
            .floor
            .make_ready(&mut stand, number, task, &mut slot.slot.frame);
        let held = Holding {
            number,
            stand,
            log,
            task,
            slot,
        };
        match readiness {
            Readiness::Runs => {
                let (worker, end) = self.run_taken(rt, held, gate)?;
                Ok((worker, Served::Ran { end }))
            }
            Readiness::Waits { on } => Ok((self.give_back(held), Served::Waits { on })),
            Readiness::Made => Ok((self.give_back(held), Served::Made)),
            Readiness::Ended => Ok((self.give_back(held), Served::Ended)),
        }
    }

    /// Runs the next segment of the task in hand, draws its entry and leaves the task. Returns how the entry ends.
    fn run_taken<R: Wait, G: Gate>(
        &self,
        rt: &R,
        holding: Holding,
        gate: &G,
    ) -> Result<(TreeWorker, End), Memory>
        requires here { holding.stand.table_id ≡ self.now }
        requires task { holding.task < N.lim.tasks }
        requires holds { (turn : HeldTurn)
            × HoldsReadyBeside holding.number holding.stand.me holding.log holding.task holding.slot turn }
        ensures ran { IfOk result (λ ran. HasRunOne (floor_seat holding.stand.me) (floor_seat ran.0.me) holding.task ran.1) }
        ensures same { IfOk result (λ ran. SameTreeStand holding.stand ran.0) }
    {
        let Holding {
            number,
            stand,
            mut log,
            task,
            mut slot,
        } = holding;
        log.reserve()?;
        let (stand, stop) = self
            .floor
            .run(self.alloc, self.p, stand, &mut slot.slot.frame, gate)?;
        let ran = Holding {
            number,
            stand,
            log,
            task,
            slot,
        };
        let (worker, end) = self.leave_ran(rt, ran, stop)?;
        Ok((worker, end))
    }

    /// Draws the entry of the segment that was run, and leaves the task. Returns how the entry ends.
    fn leave_ran<R: Wait>(
        &self,
        rt: &R,
        holding: Holding,
        stop: Stop,
    ) -> Result<(TreeWorker, End), Memory>
        requires here { holding.stand.table_id ≡ self.now }
        requires task { holding.task < N.lim.tasks }
        requires ran { (turn : HeldTurn)
            × HoldsRanBeside N.prog holding.number holding.stand.me holding.log holding.task holding.slot turn stop }
        requires room { 0 < holding.log.room }
        ensures ran { IfOk result (λ ran. HasRunOne (floor_seat holding.stand.me) (floor_seat ran.0.me) holding.task ran.1) }
        ensures same { IfOk result (λ ran. SameTreeStand holding.stand ran.0) }
    {
        an_end_says_the_status();
        let Holding {
            number,
            mut stand,
            mut log,
            task,
            mut slot,
        } = holding;
        let Committed {
            number: _,
            end,
            child,
        } = self.floor.commit(
            self.alloc,
            self.lim,
            &mut stand,
            &mut log,
            task,
            &mut slot.slot,
            stop,
        );
        let drawn = Holding {
            number,
            stand,
            log,
            task,
            slot,
        };
        let placed = self.place_child(rt, drawn, end, child)?;
        Ok((self.leave_after(rt, placed, end)?, end))
    }

    /// Places the records of the spawned child that an entry with this end has made, if it has made one, and gives the child's
    /// first turn.
    fn place_child<R: Wait>(
        &self,
        rt: &R,
        holding: Holding,
        end: End,
        child: Option<KeptSlot>,
    ) -> Result<Holding, Memory>
        requires here { holding.stand.table_id ≡ self.now }
        requires task { holding.task < N.lim.tasks }
        requires holds { (turn : HeldTurn)
            × HoldsMadeBeside N.lim holding.number holding.stand.me holding.log holding.task holding.slot turn end child }
        ensures drawn { IfOk result (λ drawn. (turn : HeldTurn)
            → HoldsMadeBeside N.lim holding.number holding.stand.me holding.log holding.task holding.slot turn end child
            → HoldsDrawnBeside drawn.number drawn.stand.me drawn.log drawn.task drawn.slot turn) }
        ensures part { IfOk result (λ drawn. drawn.stand.me.0.floor.part ≡ holding.stand.me.0.floor.part) }
        ensures task { IfOk result (λ drawn. drawn.task ≡ holding.task) }
        ensures same { IfOk result (λ drawn. SameTreeStand holding.stand drawn.stand) }
    {
        let mut holding = holding;
        let Some(slot) = child else {
            return Ok(holding);
        };
        let End::Made { child } = end else {
            unreachable!()
        };
        let effects = effects_in(&slot);
        let footing = self.footing(holding.number, 2);
        place_spawned(
            rt,
            self.alloc,
            self.floor,
            self.shape,
            &mut holding.stand,
            footing,
            child,
            effects,
        )?;
        self.floor.give_first(&mut holding.stand, child, slot);
        Ok(holding)
    }

    /// Leaves a task whose entry has ended so. If the task has ended, its records are taken out first.
    fn leave_after<R: Wait>(&self, rt: &R, holding: Holding, end: End) -> Result<TreeWorker, Memory>
        requires here { holding.stand.table_id ≡ self.now }
        requires task { holding.task < N.lim.tasks }
        requires holds { (turn : HeldTurn)
            × HoldsDrawnBeside holding.number holding.stand.me holding.log holding.task holding.slot turn
            × (turn.row.status ≡ status_after end) }
        ensures part { IfOk result (λ worker. worker.me.0.floor.part ≡ holding.stand.me.0.floor.part) }
        ensures same { IfOk result (λ worker. SameTreeStand holding.stand worker) }
    {
        match end {
            End::Done { .. } => self.finish(rt, holding, Phase::Done),
            End::Fault { .. } => self.finish(rt, holding, Phase::Faulted),
            End::Admitted => Ok(self.park(holding)),
            End::Made { .. } => Ok(self.park(holding)),
            End::Waits { .. } => Ok(self.park(holding)),
            End::Joins { .. } => Ok(self.park(holding)),
        }
    }

    /// Takes the records of a task out that has ended, and leaves it. `phase` says how it has ended.
    fn finish<R: Wait>(&self, rt: &R, holding: Holding, phase: Phase) -> Result<TreeWorker, Memory>
        requires here { holding.stand.table_id ≡ self.now }
        requires task { holding.task < N.lim.tasks }
        requires holds { (turn : HeldTurn)
            × HoldsDrawnBeside holding.number holding.stand.me holding.log holding.task holding.slot turn
            × HasEndedIn turn.row.status phase }
        ensures part { IfOk result (λ worker. worker.me.0.floor.part ≡ holding.stand.me.0.floor.part) }
        ensures same { IfOk result (λ worker. SameTreeStand holding.stand worker) }
    {
        let Holding {
            number,
            mut stand,
            mut log,
            task,
            slot,
        } = holding;
        log.count_end(self.lim.fuel.saturating_sub(slot.slot.frame.fuel));
        let effects = effects_in(&slot);
        let footing = self.footing(number, 1);
        release(
            rt, self.floor, self.shape, &mut stand, footing, task, effects,
        );
        self.floor.finish(&mut stand, task, slot, phase);
        Ok(TreeWorker { number, stand, log })
    }
}
