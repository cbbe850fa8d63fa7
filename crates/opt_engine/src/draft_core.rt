//! A run to which drafts are committed.
ghost use Rattle.std.specs.Prelude.{◌≡◌, [], Some, None, IfOk, OnErr, option_copied};
ghost use Rattle.twe_program.specs.Program.{cell_count};
ghost use Rattle.machine_state.specs.Moves.{start_of};
ghost use Rattle.opt_engine.specs.Drafts.{IsDraftedOf};
ghost use Rattle.opt_engine.specs.NextMoves.{AnswersNext};
ghost use Rattle.opt_engine.specs.Verdicts.{AnswersCommit, Drafts, HoldsBack, RunGoesOn, IsKept, Starts};

use crate::answering::answer;
use crate::core_run::CoreRun;
use crate::drafts::{Draft, Drafted};
use crate::hints::Hints;
use crate::judging::some_bar;
use crate::named::RoundName;
use crate::next_moves::go_next;
use crate::readiness::{draft_of, next_start};
use crate::scratch::{Scratch, scratch_of};
use crate::starts::Start;
use crate::verdict::Verdict;
use machine_state::links_agree;
use std::alloc::Global;
use std::marker::{Model, PhantomData};
use twe_base::{Limits, Memory};
use twe_machine::EnabledTasks;
use twe_program::Prog;
use twe_rounds::lost;

/// A run of the named program under the named limits, which goes on from the named journal. Once memory runs out while a
/// draft is committed, the run is lost, and every later call answers `Memory`.
#[derive(Drop)]
pub struct Core<N: RoundName> {
    alloc: Global,
    lim: Limits,
    run: Option<CoreRun>,
    enabled: EnabledTasks,
    of: PhantomData<N>,
}

impl<N: RoundName> Model for Core<N> {
    ghost use Rattle.std.specs.Prelude.{◌≡◌, Option};
    ghost use Rattle.opt_engine.specs.declared.core_run.CoreRun.{CoreRun};
    ghost use Rattle.opt_engine.specs.Verdicts.{IsKept};
    ghost use Rattle.opt_engine.specs.inner.Knowing.{KnowsEnabled};

    ghost Value = { Option CoreRun };

    ghost view = { λ core. core.run };

    ghost invariant = { λ core.
        (core.lim ≡ N.lim) × IsKept N.prog N.lim N.earlier core.run × KnowsEnabled core.run core.enabled };
}

impl<N: RoundName> Core<N> {
    /// A core with the run that has not begun.
    pub fn new(alloc: Global, p: &Prog, lim: Limits) -> Result<Self, Memory>
        requires named { (p.now ≡ N.prog) × (lim ≡ N.lim) }
        requires first { N.earlier ≡ [] }
        ensures { IfOk result (λ core. core ≡ Some (record { journal = []; state = start_of p.now lim })) }
    {
        let run = CoreRun::begin(alloc, p, lim)?;
        let enabled = EnabledTasks::new(alloc)?;
        Ok(Core {
            alloc,
            lim,
            run: Some(run),
            enabled,
            of: PhantomData,
        })
    }

    /// A core with this run, which goes on from the named journal.
    pub fn of(alloc: Global, lim: Limits, run: CoreRun) -> Result<Self, Memory>
        requires named { lim ≡ N.lim }
        requires goes_on { RunGoesOn N.prog N.lim N.earlier run }
        ensures { IfOk result (λ core. core ≡ Some run) }
    {
        links_agree();
        let enabled = EnabledTasks::of(alloc, &run.state)?;
        Ok(Core {
            alloc,
            lim,
            run: Some(run),
            enabled,
            of: PhantomData,
        })
    }

    /// The run, or `None` if it is lost.
    pub fn run(&self) -> Option<&CoreRun>
        ensures same { option_copied result ≡ self.now }
        ensures goes_on { IsKept N.prog N.lim N.earlier (option_copied result) }
    {
        self.run.as_ref()
    }

    /// The run without the core, or `None` if it is lost.
    pub fn into_run(self) -> Option<CoreRun>
        ensures same { result ≡ self }
        ensures goes_on { IsKept N.prog N.lim N.earlier result }
    {
        let Core { run, .. } = self;
        run
    }

    /// A draft of the next segment of a task: copies of the cells and of the frame that the segment begins with. None if
    /// the task is not ready. A task that was not made is not ready.
    pub fn draft(&self, p: &Prog, t: u32) -> Result<Option<Draft>, Memory>
        requires { p.now ≡ N.prog }
        ensures { IfOk result (Drafts p.now self.now t) }
    {
        let run = self.run.as_ref().ok_or(lost())?;
        draft_of(self.alloc, p, &run.state, t)
    }

    /// The start of the next segment of a task: a copy of the frame that the segment begins with. None if the task is not
    /// ready.
    pub fn start(&self, p: &Prog, t: u32) -> Result<Option<Start>, Memory>
        requires { p.now ≡ N.prog }
        ensures { IfOk result (Starts self.now t) }
    {
        let run = self.run.as_ref().ok_or(lost())?;
        next_start(self.alloc, p, &run.state, t)
    }

    /// Room for running starts of this run.
    pub fn scratch(&self, p: &Prog) -> Result<Scratch, Memory>
        requires { p.now ≡ N.prog }
        ensures { IfOk result (λ scratch. scratch ≡ cell_count p.now) }
    {
        let run = self.run.as_ref().ok_or(lost())?;
        scratch_of(self.alloc, p, &run.state)
    }

    /// Some bar to the admission of a task, or `None` if nothing holds it back. It need not be the lowest one, and is looked
    /// for where the effects of the task are placed alone.
    pub fn bar(&self, p: &Prog, t: u32) -> Result<Option<u32>, Memory>
        requires { p.now ≡ N.prog }
        ensures { IfOk result (HoldsBack self.now t) }
    {
        let run = self.run.as_ref().ok_or(lost())?;
        Ok(some_bar(p, &run.state, &self.enabled, t))
    }

    /// Takes the moves that a draft stands for, if it fits and they are legal, and else says why not. Then nothing has
    /// changed.
    pub fn commit(&mut self, p: &Prog, d: Drafted) -> Result<Verdict, Memory>
        requires named { p.now ≡ N.prog }
        requires drafted { IsDraftedOf p.now d }
        ensures ok { IfOk result (λ verdict. AnswersCommit N.prog N.lim N.earlier self.old d verdict self.new) }
        ensures err { OnErr result (self.new ≡ None) }
    {
        self.commit_shown(p, d, &Hints::none(self.alloc))
    }

    /// The same. By its code it stores what a committed draft wrote to these hints. No clause says so.
    pub fn commit_shown(&mut self, p: &Prog, d: Drafted, hints: &Hints) -> Result<Verdict, Memory>
        requires named { p.now ≡ N.prog }
        requires drafted { IsDraftedOf p.now d }
        ensures ok { IfOk result (λ verdict. AnswersCommit N.prog N.lim N.earlier self.old d verdict self.new) }
        ensures err { OnErr result (self.new ≡ None) }
    {
        let run = self.run.take().ok_or(lost())?;
        let (after, verdict) = answer(self.alloc, p, self.lim, hints, run, &mut self.enabled, d)?;
        self.run = Some(after);
        Ok(verdict)
    }

    /// Takes the moves of the next segment of a task without a draft, if they are legal: its admission first, if it waits for
    /// that. Returns the number of the last entry, counted from 0, or `None` if they are not legal. Then nothing has changed.
    /// By its code it stores what the segment wrote to these hints. No clause says so.
    pub fn take_next(&mut self, p: &Prog, t: u32, hints: &Hints) -> Result<Option<u64>, Memory>
        requires named { p.now ≡ N.prog }
        ensures ok { IfOk result (λ number. AnswersNext N.prog N.lim N.earlier self.old t number self.new) }
        ensures err { OnErr result (self.new ≡ None) }
    {
        let run = self.run.take().ok_or(lost())?;
        let (after, number) = go_next(self.alloc, p, self.lim, hints, run, &mut self.enabled, t)?;
        self.run = Some(after);
        Ok(number)
    }
}
