//! A crew that runs ahead of admission: a run whose moves are taken in rounds by workers, and one by one between the rounds.
ghost use Rattle.std.specs.Prelude.{◌≡◌, ◌<◌, ◌≤◌, [], length, Some, None, IfOk, IfErr, OnOk, OnErr};
ghost use mathlib.Core.List.{IsPrefix};
ghost use Rattle.machine_state.specs.declared.ending.Outcome.TheVariants.{Unfinished};
ghost use Rattle.machine_state.specs.Legal.{MayMove};
ghost use Rattle.machine_state.specs.Runs.{IsOutcome, Legal, counted};
ghost use Rattle.twe_rounds.specs.Crews.{CrewRun, GoesOn, GrowsUnlessOver, StepsQuietly, lost, state_of};
ghost use Rattle.opt_engine.specs.Taking.{TakingSteps};
ghost use Rattle.opt_crew.specs.Keeping.{IsSound, Keeps};
ghost use Rattle.opt_crew.specs.Stepping.{StepsRun};

use crate::seen::SeenOfRun;
use crate::sharing::{alone, together};
use flat_sched::{RunEnd, stuck_cycle};
use machine_state::{Outcome, State};
use opt_engine::CoreRun;
use seg_journal::{Journal, Move};
use std::alloc::Global;
use std::marker::{Brand, Model};
use std::snapshot::Snapshot;
use std::sync::Wait;
use std::thread::Threads;
use steal_pool::gates::Gate;
use twe_base::{Limits, Memory};
use twe_machine::{lowest, outcome};
use twe_program::Prog;
use twe_rounds::{Setup, lost};

/// A run of a program by workers that run ahead of admission. Once memory runs out, a crew has lost its run, and answers `Memory`
/// from then on.
#[derive(Drop)]
pub struct OptCrew {
    alloc: Global,
    prog: Snapshot<Prog>,
    lim: Limits,
    workers: u32,
    run: Option<CoreRun>,
    seen: SeenOfRun,
}

impl Model for OptCrew {
    ghost use Rattle.std.specs.Prelude.{◌≤◌};
    ghost use Rattle.twe_rounds.specs.Crews.{CrewRun};
    ghost use Rattle.opt_crew.specs.Keeping.{CrewIsKept, crew_journal};

    ghost Value = { CrewRun };

    ghost use Rattle.std.specs.Coded.{codes};
    ghost use Rattle.twe_program.specs.contracts.program.CellDecl as cell;
    ghost use Rattle.twe_program.specs.contracts.program.Decl as decl;

    ghost coded = { Prim.hlevel (codes, cell.the_row.coded, decl.the_row.coded) };

    ghost view = { λ crew.
        record { prog = crew.prog.value; lim = crew.lim; workers = crew.workers; journal = crew_journal crew.run } };

    ghost invariant = { λ crew. (1 ≤ crew.workers) × (crew.workers ≤ 64) × CrewIsKept crew.prog.value crew.lim crew.run };
}

impl OptCrew {
    /// A crew of this many workers, 1 to 64, for a run of the program that has not begun.
    pub fn new(alloc: Global, p: &Prog, lim: Limits, workers: u32) -> Result<Self, Memory>
        requires some { 1 ≤ workers }
        requires most { workers ≤ 64 }
        ensures { IfOk result (λ crew. crew ≡ record { prog = p.now; lim = lim; workers = workers; journal = Some [] }) }
    {
        let run = CoreRun::begin(alloc, p, lim)?;
        Ok(OptCrew {
            alloc,
            prog: Snapshot::of(p),
            lim,
            workers,
            run: Some(run),
            seen: SeenOfRun::new(alloc),
        })
    }

    /// Takes the lowest legal move, if the run can go on. If it cannot, the crew stays as it is, and it says how the run
    /// has ended.
    pub fn quiet_step(&mut self, p: &Prog) -> Result<RunEnd, Memory>
        requires { p.now ≡ self.old.prog }
        ensures ok { IfOk result (StepsQuietly self.old self.new) }
        ensures err { OnErr result (self.new ≡ lost self.old) }
    {
        let mut run = self.run.take().ok_or(lost())?;
        let setup = Setup {
            alloc: self.alloc,
            p,
            lim: self.lim,
        };
        let end = step_quietly(&setup, &mut run)?;
        self.run = Some(run);
        Ok(end)
    }

    /// A round: the lowest legal move is taken, if the run can go on, and then the workers run drafts and commit them until they
    /// find no more that can be committed. The gate is told of each segment before it is run, and of each access of a draft to a
    /// cell.
    pub fn round<R: Threads + Wait + Sync, G: Gate + Sync>(
        &mut self,
        rt: &R,
        p: &Prog,
        gate: &G,
    ) -> Result<(), Memory>
        requires { p.now ≡ self.old.prog }
        ensures err { OnErr result (self.new ≡ lost self.old) }
        ensures ok { OnOk result (GoesOn self.old self.new) }
        ensures longer { OnOk result (GrowsUnlessOver self.old self.new) }
    {
        let run = self.run.take().ok_or(lost())?;
        let setup = Setup {
            alloc: self.alloc,
            p,
            lim: self.lim,
        };
        let after = round_of(rt, &setup, self.workers, run, &mut self.seen, gate)?;
        self.run = Some(after);
        Ok(())
    }

    /// The journal of the run, and the state to which it leads. Nothing comes after a fault.
    pub fn close(self) -> Result<(Journal, State), Memory>
        ensures journal { IfOk result (λ run. self.journal ≡ Some run.0) }
        ensures legal { IfOk result (λ run. Legal self.prog self.lim run.0) }
        ensures state { IfOk result (λ run. run.1 ≡ state_of self run.0) }
        ensures counted { IfOk result (λ run. counted run.0 ≡ run.0) }
        ensures lost { IfErr result (λ _. self.journal ≡ None) }
    {
        let OptCrew { run, .. } = self;
        let run = run.ok_or(lost())?;
        Ok((run.journal, run.state))
    }
}

/// A quiet step in a run.
fn step_quietly(setup: &Setup<'_>, run: &mut CoreRun) -> Result<RunEnd, Memory>
    requires { IsSound setup.now.p.now setup.now.lim run.old }
    ensures sound { OnOk result (IsSound setup.now.p.now setup.now.lim run.new) }
    ensures steps { IfOk result (StepsRun setup.now.p.now setup.now.lim run.old run.new) }
{
    let p = setup.p;
    match outcome(p, &run.state) {
        Outcome::AllDone => Ok(RunEnd::AllDone),
        Outcome::Fault { task, kind, place } => Ok(RunEnd::Fault { task, kind, place }),
        Outcome::Stuck => Ok(RunEnd::Stuck(stuck_cycle(setup.alloc, p, &run.state)?)),
        Outcome::Unfinished => {
            let Some(mv) = lowest(p, &run.state) else {
                unreachable!()
            };
            take_clear(setup, run, mv)?;
            Ok(RunEnd::Unfinished)
        }
    }
}

/// Takes a legal move of a run that has met no fault.
#[tactic(auto, using(crate::proofs::Faultless::sound_steps))]
fn take_clear(setup: &Setup<'_>, run: &mut CoreRun, mv: Move) -> Result<(), Memory>
    requires sound { IsSound setup.now.p.now setup.now.lim run.old }
    requires clear { run.old.state.first_fault ≡ None }
    requires legal { MayMove run.old.state mv }
    ensures sound { OnOk result (IsSound setup.now.p.now setup.now.lim run.new) }
    ensures steps { OnOk result (TakingSteps setup.now.p.now setup.now.lim run.old mv run.new) }
{
    run.take(setup.alloc, setup.p, setup.lim, mv)
}

/// A round of this many workers. The lowest legal move is taken first, if the run can go on.
#[tactic(auto, using(twe_rounds::proofs::Beginnings::begins_by_one, twe_rounds::proofs::Beginnings::longer_by_one))]
fn round_of<R: Threads + Wait + Sync, G: Gate + Sync>(
    rt: &R,
    setup: &Setup<'_>,
    workers: u32,
    run: CoreRun,
    seen: &mut SeenOfRun,
    gate: &G,
) -> Result<CoreRun, Memory>
    requires some { 1 ≤ workers }
    requires sound { IsSound setup.now.p.now setup.now.lim run }
    ensures sound { IfOk result (IsSound setup.now.p.now setup.now.lim) }
    ensures begins { IfOk result (λ after. IsPrefix run.journal after.journal) }
    ensures longer { IfOk result (λ after. IsOutcome run.state Unfinished → length run.journal < length after.journal) }
{
    let mut run = run;
    if run.state.first_fault.is_some() {
        return Ok(run);
    }
    let Some(mv) = lowest(setup.p, &run.state) else {
        return Ok(run);
    };
    take_clear(setup, &mut run, mv)?;
    lend(rt, setup, workers, run, seen, mv.task, gate)
}

/// Lends the run to a single worker, which begins with the task `first`, and to so many workers in turn, until they find no more
/// that can be committed.
#[tactic(auto, using(crate::proofs::Lending::still_kept, crate::proofs::Lending::kept_on))]
fn lend<R: Threads + Wait + Sync, G: Gate + Sync>(
    rt: &R,
    setup: &Setup<'_>,
    workers: u32,
    run: CoreRun,
    seen: &mut SeenOfRun,
    first: u32,
    gate: &G,
) -> Result<CoreRun, Memory>
    requires some { 1 ≤ workers }
    requires sound { IsSound setup.now.p.now setup.now.lim run }
    ensures sound { IfOk result (IsSound setup.now.p.now setup.now.lim) }
    ensures begins { IfOk result (λ after. IsPrefix run.journal after.journal) }
{
    let mut run = run;
    let mut first = Some(first);
    'turns: for _ in 0..u64::MAX {
        let begin = first.take();
        run = turn(rt, setup, workers, run, seen, begin, gate)?;
        if !seen.pace.was_left() {
            return Ok(run);
        }
    }
    Ok(run)
}

/// Lends the run to a single worker, which begins with the task `first`, if there is one, and then to so many workers, if it
/// leaves the run to them.
#[tactic(auto, using(crate::proofs::Lending::still_kept, crate::proofs::Lending::kept_on))]
fn turn<R: Threads + Wait + Sync, G: Gate + Sync>(
    rt: &R,
    setup: &Setup<'_>,
    workers: u32,
    run: CoreRun,
    seen: &mut SeenOfRun,
    first: Option<u32>,
    gate: &G,
) -> Result<CoreRun, Memory>
    requires some { 1 ≤ workers }
    requires sound { IsSound setup.now.p.now setup.now.lim run }
    ensures { IfOk result (Keeps setup.now.p.now setup.now.lim run.journal) }
{
    let has_others = workers > 1;
    let after = alone::<Brand, R, G>(rt, setup, run, seen, first, has_others, gate)?;
    if !seen.pace.was_left() {
        return Ok(after);
    }
    together::<Brand, R, G>(rt, setup, workers, after, seen, gate)
}
