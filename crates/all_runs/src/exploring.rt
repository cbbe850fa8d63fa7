//! Exploring: enough moves of each run that is found are taken, until nothing new is found.
ghost use Rattle.std.specs.Prelude.{◌≡◌, ◌<◌, ◌≤◌, ℕ, length, slice_get, IfOk, IsTrue, OnOk, Some};
ghost use Rattle.seg_journal.specs.declared.moves.Kind.TheVariants.{Admit};
ghost use Rattle.twe_base.specs.Limits.{Bounds};
ghost use Rattle.twe_program.specs.Program.{Program};
ghost use Rattle.twe_program.specs.WellFormed.{IsWellFormed};
ghost use Rattle.machine_state.specs.Legal.{MayMove, MayTake};
ghost use Rattle.machine_state.specs.Moves.{move_result, result_by_kind};
ghost use Rattle.machine_state.specs.Runs.{IsRun};
ghost use Rattle.flat_sched.specs.RunEnds.{outcome_of};
ghost use Rattle.state_copies.specs.Lasting.{IsFaultless};
ghost use Rattle.all_runs.specs.declared.found.FoundRun.{FoundRun};
ghost use Rattle.all_runs.specs.declared.extent.Extent.TheVariants.{All};
ghost use Rattle.all_runs.specs.Extents.{IsExtent};
ghost use Rattle.all_runs.specs.Explored.{AreFound, CanGoOn, HasEnded, IsClosedBelow, IsExploration, IsFoundEnd, IsKnown, IsSeen, IsTakenFrom};
ghost use Rattle.reduction_laws.specs.Enough.{IsEnough};
ghost use Rattle.all_runs.specs.inner.Growing.{Grows};

use crate::extent::Extent;
use crate::found::FoundRun;
use crate::index::{Index, number_of};
use crate::successor::with_move;
use crate::ways_to_end::is_found_end;
use flat_sched::{WholeRun, run_end};
use machine_state::State;
use move_choices::choice_in;
use reduction_laws::Choice;
use seg_journal::{Journal, Kind, Limits, Move};
use state_copies::are_alike;
use std::alloc::Global;
use twe_base::{List, Memory};
use twe_machine::{may, start};
use twe_program::Prog;

/// The runs that were found so far.
#[derive(Drop)]
pub(crate) struct Exploration {
    /// Those that can go on.
    pub going: List<FoundRun>,
    /// Those that have ended.
    pub ended: List<WholeRun>,
    index: Index,
}

impl Exploration {
    /// The run without a move.
    pub(crate) fn begin(alloc: Global, p: &Prog, lim: Limits) -> Result<Self, Memory>
        ensures { IfOk result (λ found. IsExploration p.now lim found.going found.ended) }
    {
        let mut found = Exploration {
            going: List::new(alloc),
            ended: List::new(alloc),
            index: Index::new(alloc),
        };
        let journal = Journal::new(alloc);
        let state = start(alloc, p, lim)?;
        found.add(alloc, p, lim, FoundRun { journal, state })?;
        Ok(found)
    }

    /// Takes enough moves of each run that is found, as long as no more than `most` runs that can go on are found, and as long as
    /// there is memory. What was found is kept in any case.
    pub(crate) fn explore(&mut self, alloc: Global, p: &Prog, lim: Limits, most: usize) -> Extent
        requires { IsExploration p.now lim self.old.going self.old.ended }
        ensures explored { IsExploration p.now lim self.new.going self.new.ended }
        ensures extent { IsExtent most (length self.new.going) result }
        ensures closed { result ≡ All → IsClosedBelow p.now lim self.new.going self.new.ended (length self.new.going) }
    {
        for at in 0..most {
            if at >= self.going.len() {
                return Extent::All;
            }
            if self.going.len() > most {
                return Extent::TooManyStates;
            }
            if self.take_moves(alloc, p, lim, at).is_err() {
                return Extent::OutOfMemory;
            }
        }
        self.extent_at(most)
    }

    /// The extent if enough moves of the first `most` runs were taken.
    fn extent_at(&self, most: usize) -> Extent
        ensures extent { IsExtent most (length self.now.going) result }
        ensures all { result ≡ All → length self.now.going ≤ most }
    {
        if self.going.len() > most {
            return Extent::TooManyStates;
        }
        Extent::All
    }

    /// Takes enough moves of the run at this place.
    fn take_moves(&mut self, alloc: Global, p: &Prog, lim: Limits, at: usize) -> Result<(), Memory>
        requires there { at < length self.old.going }
        requires found { AreFound p.now lim self.old.going self.old.ended }
        ensures found { AreFound p.now lim self.new.going self.new.ended }
        ensures grows { Grows self.old.going self.old.ended self.new.going self.new.ended }
        ensures taken { OnOk result ((run : FoundRun) → slice_get self.old.going at ≡ Some run
            → IsTakenFrom p.now lim self.new.going self.new.ended run.state) }
    {
        let _fuel = lim.fuel;
        match self.choice_at(p, at) {
            Choice::Segment(task) => {
                let kind = Kind::Run;
                self.take(alloc, p, lim, at, Move { kind, task })
            }
            Choice::Admission(task) => {
                let kind = Kind::Admit;
                self.take(alloc, p, lim, at, Move { kind, task })
            }
            Choice::EachAdmission => self.take_admissions(alloc, p, lim, at),
        }
    }

    /// Enough moves of the run at this place.
    fn choice_at(&self, p: &Prog, at: usize) -> Choice
        requires there { at < length self.now.going }
        requires found { (lim : Bounds) × AreFound p.now lim self.now.going self.now.ended }
        ensures { (run : FoundRun) → slice_get self.now.going at ≡ Some run → IsEnough p.now run.state result }
    {
        let _main = p.main;
        match self.going.get(at) {
            None => Choice::EachAdmission,
            Some(run) => choice_in(p, &run.state),
        }
    }

    /// Takes each admission of the run at this place that is legal.
    fn take_admissions(
        &mut self,
        alloc: Global,
        p: &Prog,
        lim: Limits,
        at: usize,
    ) -> Result<(), Memory>
        requires there { at < length self.old.going }
        requires found { AreFound p.now lim self.old.going self.old.ended }
        ensures found { AreFound p.now lim self.new.going self.new.ended }
        ensures grows { Grows self.old.going self.old.ended self.new.going self.new.ended }
        ensures taken { OnOk result ((run : FoundRun) (t : ℕ) → slice_get self.old.going at ≡ Some run → MayTake run.state Admit t
            → IsKnown self.new.going self.new.ended (result_by_kind p.now lim run.state Admit t).0) }
    {
        let tasks = self.task_count(at);
        for task in 0..tasks {
            let kind = Kind::Admit;
            self.take(alloc, p, lim, at, Move { kind, task })?;
        }
        Ok(())
    }

    /// How many tasks the run at this place has.
    fn task_count(&self, at: usize) -> u32
        requires { at < length self.now.going }
        ensures { (run : FoundRun) → slice_get self.now.going at ≡ Some run → result ≡ length run.state.links }
    {
        match self.going.get(at) {
            None => 0,
            Some(run) => run.state.links.task_count(),
        }
    }

    /// Takes this move of the run at this place, if it is legal.
    fn take(
        &mut self,
        alloc: Global,
        p: &Prog,
        lim: Limits,
        at: usize,
        mv: Move,
    ) -> Result<(), Memory>
        requires found { AreFound p.now lim self.old.going self.old.ended }
        ensures found { AreFound p.now lim self.new.going self.new.ended }
        ensures grows { Grows self.old.going self.old.ended self.new.going self.new.ended }
        ensures taken { OnOk result ((run : FoundRun) → slice_get self.old.going at ≡ Some run → MayMove run.state mv
            → IsKnown self.new.going self.new.ended (move_result p.now lim run.state mv).0) }
    {
        let _main = p.main;
        let Some(run) = self.going.get(at) else {
            return Ok(());
        };
        if may(p, &run.state, mv).is_err() {
            return Ok(());
        }
        let next = with_move(alloc, p, lim, run, mv)?;
        self.add(alloc, p, lim, next)
    }

    /// Adds a run, unless it is known.
    fn add(&mut self, alloc: Global, p: &Prog, lim: Limits, next: FoundRun) -> Result<(), Memory>
        requires found { AreFound p.now lim self.old.going self.old.ended }
        requires is_run { IsRun p.now lim next.journal next.state }
        ensures found { AreFound p.now lim self.new.going self.new.ended }
        ensures grows { Grows self.old.going self.old.ended self.new.going self.new.ended }
        ensures known { OnOk result (IsKnown self.new.going self.new.ended next.state) }
    {
        let (_main, _fuel) = (p.main, lim.fuel);
        let end = run_end(alloc, p, &next.state)?;
        if end.is_over() {
            return self.add_ended(WholeRun {
                journal: next.journal,
                state: next.state,
                end,
            });
        }
        self.add_going(alloc, next)
    }

    /// Adds a run that can go on, unless a state like its own was seen.
    fn add_going(&mut self, alloc: Global, next: FoundRun) -> Result<(), Memory>
        requires { (p : Program) × (lim : Bounds) × IsWellFormed p × AreFound p lim self.old.going self.old.ended
            × CanGoOn p lim next }
        ensures found { (p : Program) (lim : Bounds) → AreFound p lim self.old.going self.old.ended
            → CanGoOn p lim next → AreFound p lim self.new.going self.new.ended }
        ensures grows { Grows self.old.going self.old.ended self.new.going self.new.ended }
        ensures seen { OnOk result (IsSeen self.new.going next.state) }
    {
        let number = number_of(&next.state);
        if self.is_seen(&next.state, number) {
            return Ok(());
        }
        self.index.note(alloc, number, self.going.len())?;
        self.going.push(next)
    }

    /// Whether a state like this one was noted with this number. Such a one was seen.
    fn is_seen(&self, st: &State, number: u64) -> bool
        requires { (p : Program) × (lim : Bounds) × IsFaultless p lim st.now × AreFound p lim self.now.going self.now.ended }
        ensures { IsTrue result → IsSeen self.now.going st.now }
    {
        for place in self.index.places(number) {
            if let Some(run) = self.going.get(*place) {
                if are_alike(&run.state, st) {
                    return true;
                }
            }
        }
        false
    }

    /// Adds a run that has ended, unless one has ended so.
    fn add_ended(&mut self, next: WholeRun) -> Result<(), Memory>
        ensures found { (p : Program) (lim : Bounds) → AreFound p lim self.old.going self.old.ended
            → HasEnded p lim next → AreFound p lim self.new.going self.new.ended }
        ensures grows { Grows self.old.going self.old.ended self.new.going self.new.ended }
        ensures answered { OnOk result (IsFoundEnd self.new.ended next.state (outcome_of next.end)) }
    {
        if is_found_end(self.ended.as_slice(), &next) {
            return Ok(());
        }
        self.ended.push(next)
    }
}
