//! The core of a round, and what workers ask of it. Nothing comes after a fault in its run.
//!
//! Here a worker learns what may be done next for a task, and gets what it needs to run a draft of it. `taking` has how moves are
//! taken, and `learning` what the core learns of them: on that no clause rests.
//!
//! For example one of several workers has taken task 4 from its deck, whose next segment is not known to be brief:
//!
//! - It asks for the outlook (`outlook_ahead`): the task may run, or may be run ahead. So it gets the start of the segment, and the
//!   task is at work from then on.
//! - It runs the draft without the lock, and hands it in (`commit`). If the task is held back, the draft is given back: the worker
//!   keeps it, and the core counts it.
//! - Once the bar has ended, the outlook is that the task may run (`outlook`), and the worker hands the same draft in again. If
//!   what it has read still stands, its moves are taken. If not, the core learns that drafts of the task's declaration change.
ghost use Rattle.std.specs.Prelude.{◌≡◌, IfSome};
ghost use Rattle.opt_crew.specs.Keeping.{Keeps};

use crate::at_work::AtWork;
use crate::game::Game;
use crate::named_start::{NamedScratch, PlainStart};
use crate::outlooks::outlook_of;
use crate::pace::has_waited;
use crate::seen::SeenOfRun;
use crate::trail::Glance;
use opt_engine::{Core, CoreRun, RoundName};
use std::alloc::Global;
use std::marker::Model;
use twe_base::{Limits, Memory};
use twe_rounds::{Outlook, Waiting, lost};

/// The core of a round.
#[derive(Drop)]
pub(crate) struct RoundCore<N: RoundName> {
    /// The run, to which drafts are committed.
    pub core: Core<N>,
    /// What was seen of it.
    pub seen: SeenOfRun,
    /// The tasks of which drafts are being run.
    pub at_work: AtWork,
    /// How many drafts workers keep because their tasks are held back.
    pub kept: u32,
}

impl<N: RoundName> Model for RoundCore<N> {
    ghost use Rattle.std.specs.Prelude.{Option};
    ghost use Rattle.opt_engine.specs.declared.core_run.CoreRun.{CoreRun};
    ghost use Rattle.opt_crew.specs.Keeping.{StopsAtFault};

    ghost Value = { Option CoreRun };

    ghost view = { λ round. round.core };

    ghost invariant = { λ round. StopsAtFault round.core };
}

impl<N: RoundName> RoundCore<N> {
    /// The core of a round that begins with this run, of which so much was seen.
    pub(crate) fn new(
        alloc: Global,
        lim: Limits,
        run: CoreRun,
        seen: SeenOfRun,
    ) -> Result<Self, Memory>
        requires named { lim ≡ N.lim }
        requires keeps { Keeps N.prog N.lim N.earlier run }
    {
        let mut seen = seen;
        seen.pace.begin(&run.state);
        Ok(RoundCore {
            core: Core::of(alloc, lim, run)?,
            seen,
            at_work: AtWork::new(alloc),
            kept: 0,
        })
    }

    /// The run after the round, or `None` if it is lost, with what was seen of it.
    pub(crate) fn into_run(self, seen: &mut SeenOfRun) -> Option<CoreRun>
        ensures { IfSome result (Keeps N.prog N.lim N.earlier) }
    {
        let RoundCore {
            core,
            seen: all,
            ..
        } = self;
        *seen = all;
        core.into_run()
    }

    /// What may be done next for a task. A task that is held back may run only if the worker would draft it, and if that pays.
    pub(crate) fn outlook(
        &self,
        game: &Game<'_, N>,
        task: u32,
        glance: Glance,
    ) -> Result<Outlook, Memory> {
        let run = self.core.run().ok_or(lost())?;
        if run.state.first_fault.is_some() {
            return Ok(Outlook::Over);
        }
        let ahead = glance.ahead && self.seen.pays_ahead(&run.state, task);
        if !ahead && let Some(by) = self.core.bar(game.prog(), task)? {
            return Ok(Outlook::Held { by });
        }
        Ok(outlook_of(&run.state, task, glance))
    }

    /// What a single worker that has others may do next for a task. If it leaves the run to them, it gives up all tasks.
    pub(crate) fn outlook_alone(
        &mut self,
        game: &Game<'_, N>,
        task: u32,
        glance: Glance,
    ) -> Result<Outlook, Memory> {
        if self.seen.pace.was_left() {
            return Ok(Outlook::Over);
        }
        let outlook = self.outlook(game, task, glance)?;
        if outlook == Outlook::Runs && self.leaves_at(task) {
            return Ok(Outlook::Over);
        }
        Ok(outlook)
    }

    /// Whether a single worker leaves the run to several, when it finds that a task may run. It does if these may gain by it.
    fn leaves_at(&mut self, task: u32) -> bool {
        let Some(run) = self.core.run() else {
            return false;
        };
        let is_brief = self.seen.is_brief(&run.state, task);
        let waited = has_waited(&run.state, task);
        let may_gain = self.seen.pace.may_gain(is_brief, waited);
        if may_gain {
            self.seen.pace.leave(&run.state);
        }
        may_gain
    }

    /// What one of several workers may do next for a task of which it has no draft. If the task may run and its next segment is
    /// not known to be brief, the start of it comes too, and the task is at work from now on. If drafts of its declaration change
    /// often, a rival that is at work holds the task back. If the workers leave the run to a single one, they give up all tasks.
    pub(crate) fn outlook_ahead(
        &mut self,
        game: &Game<'_, N>,
        task: u32,
        glance: Glance,
    ) -> Result<(Outlook, Option<PlainStart>), Memory> {
        if self.seen.pace.leaves() {
            return Ok((Outlook::Over, None));
        }
        let outlook = self.outlook(game, task, glance)?;
        if outlook != Outlook::Runs || self.is_brief(task) {
            return Ok((outlook, None));
        }
        let rival = self.rival(task);
        if let Some(by) = rival
            && self.changes_often(task)
        {
            return Ok((Outlook::Held { by }, None));
        }
        self.at_work.begin(task, rival.is_some())?;
        Ok((outlook, self.start(game, task)?))
    }

    /// The start of the next segment of a task, or `None` if the task is not ready.
    fn start(&self, game: &Game<'_, N>, task: u32) -> Result<Option<PlainStart>, Memory> {
        match self.core.start(game.prog(), task)? {
            Some(start) => Ok(Some(PlainStart::new(start))),
            None => Ok(None),
        }
    }

    /// Room for drafts of the run.
    pub(crate) fn scratch(&self, game: &Game<'_, N>) -> Result<NamedScratch<N>, Memory> {
        Ok(NamedScratch::new(self.core.scratch(game.prog())?))
    }

    /// A task of which a draft is being run and that may change what this one reads, if there is one.
    fn rival(&self, task: u32) -> Option<u32> {
        let run = self.core.run()?;
        self.at_work.rival(&run.state, task)
    }

    /// Whether drafts of a task's declaration often read what changes.
    fn changes_often(&self, task: u32) -> bool {
        match self.core.run() {
            Some(run) => self.seen.changes_often(&run.state, task),
            None => false,
        }
    }

    /// Whether the next segment of a task is known to be brief.
    pub(crate) fn is_brief(&self, task: u32) -> bool {
        match self.core.run() {
            Some(run) => self.seen.is_brief(&run.state, task),
            None => false,
        }
    }

    /// Tells a worker's list which tasks have ended since it was told last.
    pub(crate) fn tell(&self, waiting: &mut Waiting) -> Result<(), Memory> {
        let run = self.core.run().ok_or(lost())?;
        waiting.read(run.journal.as_slice())
    }
}
