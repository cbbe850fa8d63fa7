//! How a worker takes the moves of a task. One of several drafts the next segment: it starts the draft under the lock, runs it
//! without the lock, and commits it under the lock. A segment that is known to be brief it runs under the lock. A single worker
//! has the core to itself and runs every segment without a draft, since it would win nothing by running ahead.

use crate::game::Game;
use crate::kept::Kept;
use crate::named_drafted::NamedDrafted;
use crate::named_start::{NamedScratch, PlainStart};
use crate::round_core::RoundCore;
use crate::trail::MoveTrail;
use opt_engine::{Hints, RoundName};
use seg_journal::End;
use std::sync::{Mutex, Wait};
use steal_pool::gates::Gate;
use twe_base::Memory;
use twe_rounds::{HeldAt, Outlook, RoundAccess, Waiting};

/// The core as it is lent to a single worker.
#[derive(Drop)]
pub(crate) struct Lent<'a, N: RoundName> {
    pub game: &'a Game<'a, N>,
    pub hints: &'a Hints,
    pub core: &'a mut RoundCore<N>,
    pub trail: MoveTrail,
    /// Whether there are others, to whom the worker leaves the run if they may gain by it.
    pub has_others: bool,
}

impl<'a, N: RoundName> RoundAccess for Lent<'a, N> {
    fn outlook(&mut self, task: u32) -> Result<Outlook, Memory> {
        let glance = self.trail.glance(task, false);
        if self.has_others {
            self.core.outlook_alone(self.game, task, glance)
        } else {
            self.core.outlook(self.game, task, glance)
        }
    }

    fn run(&mut self, task: u32) -> Result<Option<End>, Memory> {
        let end = self.core.take_next(self.game, self.hints, task)?;
        self.trail.note(task, end);
        Ok(end)
    }

    fn keep(&mut self, _task: u32, _by: u32) -> Result<HeldAt, Memory> {
        Ok(HeldAt::Nowhere)
    }

    fn tell(&mut self, waiting: &mut Waiting) -> Result<(), Memory> {
        self.core.tell(waiting)
    }
}

/// What a worker keeps while it does not hold the lock.
#[derive(Drop)]
pub(crate) struct WorkerState<N: RoundName> {
    /// The drafts whose tasks are held back.
    pub kept: Kept<N>,
    /// The start of the segment that it runs next, if it is to be run as a draft.
    pub start: Option<PlainStart>,
    /// Room for its drafts, once it has run one.
    pub scratch: Option<NamedScratch<N>>,
    /// What it remembers of its moves.
    pub trail: MoveTrail,
}

/// The core under its lock, with what a worker keeps. Each use of the core takes the lock and gives it back.
#[derive(Drop)]
pub(crate) struct Locked<'a, R: Wait, G, N: RoundName> {
    pub rt: &'a R,
    pub gate: &'a G,
    pub game: &'a Game<'a, N>,
    pub hints: &'a Hints,
    pub core: &'a Mutex<RoundCore<N>>,
    pub own: WorkerState<N>,
}

impl<'a, R: Wait, G: Gate, N: RoundName> RoundAccess for Locked<'a, R, G, N> {
    fn outlook(&mut self, task: u32) -> Result<Outlook, Memory> {
        if self.own.trail.has_ended(task) {
            return Ok(Outlook::Over);
        }
        let glance = self.own.trail.glance(task, !self.own.kept.has(task));
        if self.own.kept.has_draft(task) {
            return self.core.lock(self.rt).outlook(self.game, task, glance);
        }
        let (outlook, start) = self
            .core
            .lock(self.rt)
            .outlook_ahead(self.game, task, glance)?;
        self.own.start = start;
        Ok(outlook)
    }

    fn run(&mut self, task: u32) -> Result<Option<End>, Memory> {
        let end = match self.own.kept.take(task) {
            Some(drafted) => self.hand_in(task, drafted, true)?,
            None => self.begin(task)?,
        };
        self.own.trail.note(task, end);
        Ok(end)
    }

    fn keep(&mut self, _task: u32, _by: u32) -> Result<HeldAt, Memory> {
        Ok(HeldAt::Nowhere)
    }

    fn tell(&mut self, waiting: &mut Waiting) -> Result<(), Memory> {
        self.core.lock(self.rt).tell(waiting)
    }
}

impl<'a, R: Wait, G: Gate, N: RoundName> Locked<'a, R, G, N> {
    /// Runs a segment of a task of which no draft is kept: as a draft if it was started, and else under the lock.
    fn begin(&mut self, task: u32) -> Result<Option<End>, Memory> {
        match self.own.start.take() {
            Some(start) => self.draft(task, start),
            None => self
                .core
                .lock(self.rt)
                .take_next(self.game, self.hints, task),
        }
    }

    /// Runs a segment of a task as a draft, without the lock, and hands it in.
    fn draft(&mut self, task: u32, start: PlainStart) -> Result<Option<End>, Memory> {
        let scratch = self.room()?;
        let (drafted, scratch) = NamedDrafted::run(
            self.game, self.hints, self.gate, start, scratch,
        )?;
        self.own.scratch = Some(scratch);
        self.hand_in(task, drafted, false)
    }

    /// Room for a draft: that of the last one, or new room.
    fn room(&mut self) -> Result<NamedScratch<N>, Memory> {
        match self.own.scratch.take() {
            Some(scratch) => Ok(scratch),
            None => self.core.lock(self.rt).scratch(self.game),
        }
    }

    /// Hands a draft in, which was held back before or not, and keeps it if it is held back.
    fn hand_in(
        &mut self,
        task: u32,
        drafted: NamedDrafted<N>,
        was_held: bool,
    ) -> Result<Option<End>, Memory> {
        let tried = self
            .core
            .lock(self.rt)
            .commit(self.game, self.hints, drafted, was_held)?;
        self.own.kept.sort(task, tried)
    }
}
