//! The floor of a round, with what every worker knows: where it serves, which tasks were found to wait, and whether the round is to
//! end.
ghost use Rattle.std.specs.Prelude.{◌≡◌, ◌<◌, IfOk};
ghost use Rattle.floor_crew.specs.inner.Lent.{IsOtherOn};

use crate::held_tasks::HeldTasks;
use crate::located::Located;
use crate::waiters::Waiters;
use floor_laws::rule::Phase;
use floor_laws::table::Named;
use floor_laws::table::nodes::Planted;
use std::alloc::Global;
use std::marker::{Model, PhantomData};
use std::sync::Wait;
use std::sync::atomic::{AtomicBool, Ordering};
use std::thread;
use steal_pool::gates::Gate;
use task_floor::steps::Served;
use tree_admit::serving::{Admission, TreeWorker, Workshop};
use twe_base::Memory;
use twe_rounds::{HeldAt, MOST_WAITS, Outlook};

/// How often an admission is tried again at once.
const MOST_TRIES: u32 = 16;

/// The floor of a round.
#[derive(Drop)]
pub(crate) struct Ground<'a, N: Named + Planted, F: Located> {
    // The floor with its nodes, the program that is run, its limits and the shape of its tree.
    shop: Workshop<'a, N>,
    // Whether the round is to end: some task has met a fault, a worker has found that tasks are short, or there is room for no
    // further task. Then no worker begins a segment.
    is_over: AtomicBool,
    // From which number on a task that is made is to be one of the last.
    full: u32,
    // Which tasks were found to wait.
    waiters: Waiters,
    // Which tasks were found held.
    held: HeldTasks,
    of: PhantomData<F>,
}

impl<'a, N: Named + Planted, F: Located> Model for Ground<'a, N, F> {
    ghost use Rattle.std.specs.Prelude.{◌≡◌};
    ghost use Rattle.atomic_table.specs.Seated.{TableId};

    ghost Value = { TableId };

    ghost view = { λ ground. ground.shop };

    ghost invariant = { λ ground. ground.shop ≡ F.table };
}

impl<'a, N: Named + Planted, F: Located> Ground<'a, N, F> {
    /// The ground of a round on this floor, which ends once a task with the number `full` or a higher one was made.
    pub(crate) fn new(shop: Workshop<'a, N>, waiters: Waiters, held: HeldTasks, full: u32) -> Self
        requires { shop ≡ F.table }
    {
        Ground {
            shop,
            is_over: AtomicBool::new(false),
            full,
            waiters,
            held,
            of: PhantomData,
        }
    }

    /// What may be done next for a task. A task that was made is admitted if it may be. After `Memory` the worker is gone.
    pub(crate) fn outlook<R: Wait>(
        &self,
        rt: &R,
        worker: TreeWorker,
        task: u32,
    ) -> Result<(TreeWorker, Outlook), Memory>
        requires { IsOtherOn F.table worker }
        ensures { IfOk result (λ found. IsOtherOn F.table found.0) }
    {
        let mut worker = worker;
        if self.is_over.load(Ordering::SeqCst) {
            return Ok((worker, Outlook::Over));
        }
        if self.phase(&mut worker, task) == Phase::Made {
            return self.admit(rt, worker, task);
        }
        let outlook = self.outlook_of_admitted(&mut worker, task);
        Ok((worker, outlook))
    }

    /// What may be done next for a task that was admitted.
    fn outlook_of_admitted(&self, worker: &mut TreeWorker, task: u32) -> Outlook
        requires { IsOtherOn F.table worker.old }
        ensures { IsOtherOn F.table worker.new }
    {
        match self.phase(worker, task) {
            Phase::Running => Outlook::Runs,
            Phase::Waits { on } => self.outlook_of_waiting(worker, on),
            _ => Outlook::Over,
        }
    }

    /// Admits a task if it may be admitted. One that was held back is tried again if what held it is about to go, and one whose
    /// turn another worker has if that one is about to give it back.
    fn admit<R: Wait>(
        &self,
        rt: &R,
        worker: TreeWorker,
        task: u32,
    ) -> Result<(TreeWorker, Outlook), Memory>
        requires { IsOtherOn F.table worker }
        ensures { IfOk result (λ found. IsOtherOn F.table found.0) }
    {
        let mut worker = worker;
        'tries: for _ in 0..MOST_TRIES {
            let (other, outlook) = self.try_once(rt, worker, task)?;
            worker = other;
            if let Some(found) = outlook
                && !self.is_soon_other(&mut worker, found, task)
            {
                return Ok((worker, found));
            }
            thread::yield_now();
        }
        let (worker, outlook) = self.try_once(rt, worker, task)?;
        Ok((worker, outlook.unwrap_or(Outlook::Over)))
    }

    /// Tries once to admit a task. `None` if another worker has its turn.
    fn try_once<R: Wait>(
        &self,
        rt: &R,
        worker: TreeWorker,
        task: u32,
    ) -> Result<(TreeWorker, Option<Outlook>), Memory>
        requires { IsOtherOn F.table worker }
        ensures { IfOk result (λ found. IsOtherOn F.table found.0) }
    {
        if task >= self.shop.tasks() {
            return Ok((worker, Some(Outlook::Over)));
        }
        let (mut worker, admission) = self.shop.admit(rt, worker, task)?;
        let outlook = match admission {
            Admission::Admitted => Some(Outlook::Runs),
            Admission::Held { by } => Some(Outlook::Held { by }),
            // This worker had the turn for a moment, and whoever wanted to go on with the task then has left it to this one.
            Admission::Over => Some(self.outlook_of_admitted(&mut worker, task)),
            Admission::Busy { .. } => None,
        };
        Ok((worker, outlook))
    }

    /// Whether what was found of a task that is still to be admitted is about to change, since what held it is about to go.
    fn is_soon_other(&self, worker: &mut TreeWorker, outlook: Outlook, task: u32) -> bool
        requires { IsOtherOn F.table worker.old }
        ensures { IsOtherOn F.table worker.new }
    {
        match outlook {
            Outlook::Held { by } => self.may_go_soon(worker, by, task),
            _ => false,
        }
    }

    /// Whether what held a task back is no bar any more, or will not be one for long: it is done, it is still to be admitted
    /// itself, or the chain of its waits is short and leads to the task.
    fn may_go_soon(&self, worker: &mut TreeWorker, by: u32, task: u32) -> bool
        requires { IsOtherOn F.table worker.old }
        ensures { IsOtherOn F.table worker.new }
    {
        let mut at = by;
        'waits: for _ in 0..MOST_WAITS {
            match self.phase(worker, at) {
                Phase::Waits { on } => {
                    if on == task {
                        return true;
                    }
                    at = on;
                }
                Phase::Made => return at == by,
                Phase::Done => return true,
                _ => return false,
            }
        }
        false
    }

    /// What may be done next for a task that waits for `on`. If the chain of waits from there is short and ends at a task that is
    /// still to be admitted, that one is to be looked at next.
    fn outlook_of_waiting(&self, worker: &mut TreeWorker, on: u32) -> Outlook
        requires { IsOtherOn F.table worker.old }
        ensures { IsOtherOn F.table worker.new }
    {
        let mut at = on;
        'waits: for _ in 0..MOST_WAITS {
            match self.phase(worker, at) {
                Phase::Done => return done_or_waits(on, at),
                Phase::Waits { on: next } => at = next,
                Phase::Made => return Outlook::Waits { on, next: Some(at) },
                _ => return Outlook::Waits { on, next: None },
            }
        }
        Outlook::Waits { on, next: None }
    }

    /// What the phase word of a task says; `Absent` if no task of this number may be made.
    pub(crate) fn phase(&self, worker: &mut TreeWorker, task: u32) -> Phase
        requires { IsOtherOn F.table worker.old }
        ensures { IsOtherOn F.table worker.new }
    {
        if task < self.shop.tasks() {
            self.shop.phase(worker, task)
        } else {
            Phase::Absent
        }
    }

    /// Lets a worker run the next segment of a task. `None` if no task of this number may be made.
    pub(crate) fn serve<R: Wait, G: Gate>(
        &self,
        rt: &R,
        worker: TreeWorker,
        task: u32,
        gate: &G,
    ) -> Result<(TreeWorker, Option<Served>), Memory>
        requires { IsOtherOn F.table worker }
        ensures { IfOk result (λ served. IsOtherOn F.table served.0) }
    {
        if task >= self.shop.tasks() {
            return Ok((worker, None));
        }
        let (worker, served) = self.shop.serve(rt, worker, task, gate)?;
        Ok((worker, Some(served)))
    }

    /// A task was found to wait for `on`.
    pub(crate) fn note_wait(&self, task: u32, on: u32) {
        self.waiters.note(task, on);
    }

    /// The task that was found to wait for this one, if one was.
    pub(crate) fn waiter_of(&self, task: u32) -> Option<u32> {
        self.waiters.of(task)
    }

    /// Keeps a task that was found held beside its bar.
    pub(crate) fn keep_held(&self, task: u32, by: u32) -> HeldAt {
        self.held.keep(task, by)
    }

    /// A task has ended: the first of those that were found held by it.
    pub(crate) fn first_freed(&self, task: u32) -> Option<u32> {
        self.held.end(task)
    }

    /// Takes a freed task off its list, and returns the one after it.
    pub(crate) fn take_freed(&self, task: u32) -> Option<u32> {
        self.held.take(task)
    }

    /// Whether the floor has no room for further tasks after this one.
    pub(crate) fn is_full(&self, child: u32) -> bool {
        child >= self.full
    }

    /// The round is to end: no worker begins another segment.
    pub(crate) fn stop(&self) {
        self.is_over.store(true, Ordering::SeqCst);
    }

    /// Where memory comes from.
    pub(crate) fn alloc(&self) -> Global {
        self.shop.alloc()
    }
}

/// What may be done next for a task that waits for `on`, if the task `at`, to which the chain of waits leads, is done.
fn done_or_waits(on: u32, at: u32) -> Outlook {
    if at == on {
        Outlook::Runs
    } else {
        Outlook::Waits { on, next: None }
    }
}
