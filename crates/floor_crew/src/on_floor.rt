//! How a worker of a round comes to the floor. It holds no lock.
ghost use Rattle.std.specs.Prelude.{IfSome};
ghost use Rattle.floor_crew.specs.inner.Lent.{IsOtherOn};

use crate::account::are_short;
use crate::ended_tasks::EndedTasks;
use crate::ground::Ground;
use crate::located::Located;
use floor_laws::rule::Phase;
use floor_laws::table::Named;
use floor_laws::table::nodes::Planted;
use seg_journal::End;
use std::marker::Model;
use std::sync::Wait;
use steal_pool::gates::Gate;
use task_floor::Tally;
use task_floor::steps::Served;
use tree_admit::serving::TreeWorker;
use twe_base::Memory;
use twe_rounds::{HeldAt, Outlook, RoundAccess, Waiting, lost};

/// How many of the latest awaited tasks a worker looks at before it goes on. In a chain of waits these end first.
const LATEST: usize = 4;

/// How many others of them it looks at then.
const OTHERS: usize = 28;

/// How many tasks a worker ends before it asks whether they were short.
const ENOUGH_TASKS: u64 = 64;

/// A worker's way to the floor.
#[derive(Drop)]
pub(crate) struct OnFloor<'a, R: Wait, N: Named + Planted, F: Located, G> {
    rt: &'a R,
    ground: &'a Ground<'a, N, F>,
    // What is told of each access to a cell.
    gate: &'a G,
    // `None` once the worker found no memory.
    worker: Option<TreeWorker>,
    // A task whose turn another worker had. That one goes on with it.
    busy: Option<u32>,
    ended: EndedTasks,
    // What it had ended when it last asked whether tasks are short.
    asked: Tally,
}

impl<'a, R: Wait, N: Named + Planted, F: Located, G> Model for OnFloor<'a, R, N, F, G> {
    ghost use Rattle.std.specs.Prelude.{Option, IfSome};
    ghost use Rattle.task_floor.specs.Stands.{TreeStand};
    ghost use Rattle.floor_crew.specs.inner.Lent.{IsOtherOn};

    ghost Value = { Option TreeStand };

    ghost view = { λ access. access.worker };

    ghost invariant = { λ access. IfSome access.worker (IsOtherOn F.table) };
}

impl<'a, R: Wait, N: Named + Planted, F: Located, G: Gate> OnFloor<'a, R, N, F, G> {
    /// The way of this worker.
    pub(crate) fn new(
        rt: &'a R,
        ground: &'a Ground<'a, N, F>,
        gate: &'a G,
        worker: Option<TreeWorker>,
    ) -> Self
        requires { IfSome worker (IsOtherOn F.table) }
    {
        OnFloor {
            rt,
            ground,
            gate,
            worker,
            busy: None,
            ended: EndedTasks::new(ground.alloc()),
            asked: Tally::default(),
        }
    }

    /// The worker, unless it found no memory.
    pub(crate) fn into_worker(self) -> Option<TreeWorker>
        ensures { IfSome result (IsOtherOn F.table) }
    {
        let OnFloor { worker, .. } = self;
        worker
    }

    /// Looks at a few of the tasks for which others of this worker's list wait or by which they are held back, and notes which of
    /// them have ended.
    fn look_for_ended(&mut self) -> Result<(), Memory> {
        self.look_at_latest()?;
        for _ in 0..OTHERS {
            let Some(task) = self.ended.next_awaited() else {
                return Ok(());
            };
            self.has_ended(task)?;
        }
        Ok(())
    }

    /// Looks at the latest awaited tasks. If one has ended, the one before it takes its place.
    fn look_at_latest(&mut self) -> Result<(), Memory> {
        let mut back = 0usize;
        for _ in 0..LATEST {
            let Some(task) = self.ended.latest_awaited(back) else {
                return Ok(());
            };
            if !self.has_ended(task)? {
                back = back.saturating_add(1);
            }
        }
        Ok(())
    }

    /// Looks whether an awaited task has ended, and notes it if so.
    fn has_ended(&mut self, task: u32) -> Result<bool, Memory> {
        let Some(mut worker) = self.worker.take() else {
            return Err(lost());
        };
        let ended = self.ground.phase(&mut worker, task) == Phase::Done;
        self.worker = Some(worker);
        self.ended.note(task, ended)?;
        Ok(ended)
    }

    /// Notes for which task one waits, or which task holds it back.
    fn await_end(&mut self, task: u32, outlook: Outlook) -> Result<(), Memory> {
        match outlook {
            Outlook::Waits { on, .. } => {
                self.ground.note_wait(task, on);
                self.ended.await_end(on)
            }
            _ => Ok(()),
        }
    }

    /// Takes the tasks that a task held, which has ended.
    fn free_held(&mut self, bar: u32) -> Result<(), Memory> {
        let mut at = self.ground.first_freed(bar);
        'freeing: for _ in 0..u64::MAX {
            let Some(task) = at else {
                return Ok(());
            };
            at = self.ground.take_freed(task);
            self.ended.free(task)?;
        }
        Ok(())
    }

    /// Asks, once this worker has ended some more tasks, whether they were short. Then the round is to end.
    fn ask_for_length(&mut self) {
        let Some(worker) = &self.worker else {
            return;
        };
        let now = worker.tally();
        let since = since(self.asked, now);
        if since.tasks < ENOUGH_TASKS {
            return;
        }
        self.asked = now;
        if are_short(since.tasks, since.fuel) {
            self.ground.stop();
        }
    }

    /// Notes how a segment of a task has ended. The round is to end if that is a fault, if this worker finds that tasks are
    /// short, or if the floor has no room for further tasks.
    fn note(&mut self, task: u32, end: End) -> Result<(), Memory> {
        match end {
            End::Done { .. } => {
                self.ask_for_length();
                self.ended.end(task, self.ground.waiter_of(task))?;
                self.free_held(task)
            }
            End::Fault { .. } => {
                self.ground.stop();
                Ok(())
            }
            End::Made { child } => {
                if self.ground.is_full(child) {
                    self.ground.stop();
                }
                Ok(())
            }
            _ => Ok(()),
        }
    }
}

impl<'a, R: Wait, N: Named + Planted, F: Located, G: Gate> RoundAccess for OnFloor<'a, R, N, F, G> {
    fn outlook(&mut self, task: u32) -> Result<Outlook, Memory> {
        if self.busy.take() == Some(task) {
            return Ok(Outlook::Over);
        }
        let Some(worker) = self.worker.take() else {
            return Err(lost());
        };
        let (worker, outlook) = self.ground.outlook(self.rt, worker, task)?;
        self.worker = Some(worker);
        self.await_end(task, outlook)?;
        Ok(outlook)
    }

    fn run(&mut self, task: u32) -> Result<Option<End>, Memory> {
        let Some(worker) = self.worker.take() else {
            return Err(lost());
        };
        let (worker, served) = self.ground.serve(self.rt, worker, task, self.gate)?;
        self.worker = Some(worker);
        match served {
            Some(Served::Ran { end }) => {
                self.note(task, end)?;
                Ok(Some(end))
            }
            Some(Served::Busy { .. }) => {
                self.busy = Some(task);
                Ok(None)
            }
            _ => Ok(None),
        }
    }

    fn keep(&mut self, task: u32, by: u32) -> Result<HeldAt, Memory> {
        let kept = self.ground.keep_held(task, by);
        if kept == HeldAt::Nowhere {
            self.ended.await_end(by)?;
        }
        Ok(kept)
    }

    fn tell(&mut self, waiting: &mut Waiting) -> Result<(), Memory> {
        self.look_for_ended()?;
        self.ended.tell(waiting)
    }
}

/// What a worker has ended since.
fn since(before: Tally, now: Tally) -> Tally {
    Tally {
        tasks: now.tasks.saturating_sub(before.tasks),
        fuel: now.fuel.saturating_sub(before.fuel),
    }
}
