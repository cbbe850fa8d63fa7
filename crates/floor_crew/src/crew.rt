//! A crew whose rounds run on a floor with the nodes of the program's tree: a run whose moves are taken one by one between the
//! rounds, and by workers in them.
ghost use Rattle.std.specs.Prelude.{◌≡◌, ◌≤◌, [], Some, None, IfOk, IfErr, OnOk, OnErr};
ghost use Rattle.isolation_laws.specs.soundness.KeepsEffects.{KeepsEffects};
ghost use Rattle.machine_state.specs.Runs.{Legal, state_after};
ghost use Rattle.twe_rounds.specs.Crews.{CrewRun, GoesOn, GrowsUnlessOver, StepsQuietly, lost, state_of};
ghost use Rattle.floor_crew.specs.inner.GoingOn.{IsSound};
ghost use Rattle.floor_crew.specs.inner.Keeping.{Steps};

use crate::alone::take;
use crate::at_rest::RunAtRest;
use crate::going_on::go_on;
use crate::task_book::TaskBook;
use effect_tree::Shape;
use flat_sched::{RunEnd, stuck_cycle};
use machine_state::{Outcome, State};
use seg_journal::Journal;
use std::alloc::Global;
use std::marker::Model;
use std::snapshot::Snapshot;
use std::sync::Wait;
use std::thread::Threads;
use steal_pool::gates::Gate;
use task_floor::steps::Rest;
use twe_base::{Limits, Memory};
use twe_machine::{lowest, outcome};
use twe_program::Prog;
use twe_rounds::{Setup, lost};

/// A run of a program by workers on a floor. Once memory runs out, a crew has lost its run, and answers `Memory` from then on.
#[derive(Drop)]
pub struct FloorCrew {
    alloc: Global,
    prog: Snapshot<Prog>,
    // The shape of the program's tree. It is built before the first round.
    shape: Option<Shape>,
    lim: Limits,
    workers: u32,
    run: Option<RunAtRest>,
    book: TaskBook,
}

impl Model for FloorCrew {
    ghost use Rattle.std.specs.Prelude.{◌≤◌, IfSome};
    ghost use Rattle.isolation_laws.specs.soundness.KeepsEffects.{KeepsEffects};
    ghost use Rattle.twe_rounds.specs.Crews.{CrewRun};
    ghost use Rattle.floor_crew.specs.inner.Keeping.{RunIsKept, IsShapeOf, journal_of};

    ghost Value = { CrewRun };

    ghost use Rattle.std.specs.Coded.{codes};
    ghost use Rattle.twe_program.specs.contracts.program.CellDecl as cell;
    ghost use Rattle.twe_program.specs.contracts.program.Decl as decl;

    ghost coded = { Prim.hlevel (codes, cell.the_row.coded, decl.the_row.coded) };

    ghost view = { λ crew. record {
      prog = crew.prog.value;
      lim = crew.lim;
      workers = crew.workers;
      journal = journal_of crew.run;
    } };

    ghost invariant = { λ crew. (1 ≤ crew.workers) × (crew.workers ≤ 64) × KeepsEffects crew.prog.value
        × RunIsKept crew.prog.value crew.lim crew.run × IfSome crew.shape (IsShapeOf crew.prog.value) };
}

impl FloorCrew {
    /// A crew of this many workers, 1 to 64, for a run of the program that has not begun.
    pub fn new(alloc: Global, p: &Prog, lim: Limits, workers: u32) -> Result<Self, Memory>
        requires accepted { KeepsEffects p.now }
        requires some { 1 ≤ workers }
        requires most { workers ≤ 64 }
        ensures { IfOk result (λ crew. crew ≡ record { prog = p.now; lim = lim; workers = workers; journal = Some [] }) }
    {
        let run = RunAtRest::begin(alloc, p, lim)?;
        Ok(FloorCrew {
            alloc,
            prog: Snapshot::of(p),
            shape: None,
            lim,
            workers,
            run: Some(run),
            book: TaskBook::new(alloc),
        })
    }

    /// A crew of this many workers, 1 to 64, for a run of the program that has this journal and has come to this state.
    pub fn of(
        alloc: Global,
        p: &Prog,
        lim: Limits,
        workers: u32,
        journal: Journal,
        state: State,
    ) -> Result<Self, Memory>
        requires accepted { KeepsEffects p.now }
        requires some { 1 ≤ workers }
        requires most { workers ≤ 64 }
        requires legal { Legal p.now lim journal }
        requires state { state ≡ state_after p.now lim journal }
        ensures { IfOk result (λ crew. crew ≡ record { prog = p.now; lim = lim; workers = workers; journal = Some journal }) }
    {
        let mut book = TaskBook::new(alloc);
        book.begin_anew(&state, journal.len())?;
        let run = RunAtRest::of(alloc, p, lim, Rest { state, journal })?;
        Ok(FloorCrew {
            alloc,
            prog: Snapshot::of(p),
            shape: None,
            lim,
            workers,
            run: Some(run),
            book,
        })
    }

    /// Takes the lowest legal move, if the run can go on. If it cannot, the crew stays as it is, and it says how the run
    /// has ended.
    pub fn quiet_step(&mut self, p: &Prog) -> Result<RunEnd, Memory>
        requires { p.now ≡ self.old.prog }
        ensures ok { IfOk result (StepsQuietly self.old self.new) }
        ensures err { OnErr result (self.new ≡ lost self.old) }
    {
        let mut run = self.run.take().ok_or(lost())?;
        let setup = Setup {
            alloc: self.alloc,
            p,
            lim: self.lim,
        };
        let end = step_quietly(&setup, &mut run, &mut self.book)?;
        self.run = Some(run);
        Ok(end)
    }

    /// Goes on with the run, if it can: then its journal is longer. As long as no two tasks may run beside each other whose
    /// segments may be long, moves are taken at rest. If two may, the workers admit tasks and run segments on a floor. The round
    /// ends once a task has met a fault, or none was found that may go on; no clause says that none may.
    pub fn round<R: Threads + Wait + Sync, G: Gate + Sync>(
        &mut self,
        rt: &R,
        p: &Prog,
        gate: &G,
    ) -> Result<(), Memory>
        requires { p.now ≡ self.old.prog }
        ensures ok { OnOk result (GoesOn self.old self.new) }
        ensures longer { OnOk result (GrowsUnlessOver self.old self.new) }
        ensures err { OnErr result (self.new ≡ lost self.old) }
    {
        let run = self.run.take().ok_or(lost())?;
        let setup = Setup {
            alloc: self.alloc,
            p,
            lim: self.lim,
        };
        let after = go_on(
            rt,
            &setup,
            &mut self.shape,
            self.workers,
            run,
            &mut self.book,
            gate,
        )?;
        self.run = Some(after);
        Ok(())
    }

    /// The journal of the run, and the state to which it leads. After a fault there may be entries of moves that workers began
    /// before they knew of it.
    pub fn close(self) -> Result<(Journal, State), Memory>
        ensures journal { IfOk result (λ run. self.journal ≡ Some run.0) }
        ensures legal { IfOk result (λ run. Legal self.prog self.lim run.0) }
        ensures state { IfOk result (λ run. run.1 ≡ state_of self run.0) }
        ensures lost { IfErr result (λ _. self.journal ≡ None) }
    {
        let FloorCrew { run, .. } = self;
        let run = run.ok_or(lost())?;
        Ok((run.rest.journal, run.rest.state))
    }
}

/// A quiet step in a run.
fn step_quietly(
    setup: &Setup<'_>,
    run: &mut RunAtRest,
    book: &mut TaskBook,
) -> Result<RunEnd, Memory>
    requires { IsSound setup.now.p.now setup.now.lim run.old }
    ensures sound { OnOk result (IsSound setup.now.p.now setup.now.lim run.new) }
    ensures steps { IfOk result (Steps setup.now.p.now setup.now.lim run.old run.new) }
{
    let p = setup.p;
    match outcome(p, &run.rest.state) {
        Outcome::AllDone => Ok(RunEnd::AllDone),
        Outcome::Fault { task, kind, place } => Ok(RunEnd::Fault { task, kind, place }),
        Outcome::Stuck => Ok(RunEnd::Stuck(stuck_cycle(setup.alloc, p, &run.rest.state)?)),
        Outcome::Unfinished => {
            let Some(mv) = lowest(p, &run.rest.state) else {
                unreachable!()
            };
            take(setup, run, book, mv)?;
            Ok(RunEnd::Unfinished)
        }
    }
}
