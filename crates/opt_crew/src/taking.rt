//! How the moves of a segment enter the run of a round: by a draft that is handed in, or without one.

use crate::game::Game;
use crate::named_drafted::NamedDrafted;
use crate::pace::has_waited;
use crate::round_core::RoundCore;
use opt_engine::{CoreRun, Hints, RoundName, Verdict};
use seg_journal::End;
use twe_base::Memory;
use twe_rounds::{fuel_left, lost};

/// What became of a draft that was handed to the core.
#[derive(Drop)]
pub(crate) enum Tried<N: RoundName> {
    /// Its moves were taken, and the last of them has this end.
    Taken(End),
    /// Its task is held back. The draft is given back.
    Held(NamedDrafted<N>),
    /// It has read what has another value now.
    Changed,
    /// It is not of the next segment of its task any more, or the run has met a fault.
    Dropped,
}

impl<N: RoundName> RoundCore<N> {
    /// Takes the moves of the next segment of a task without a draft, if they are legal. Returns the end of the last one.
    pub(crate) fn take_next(
        &mut self,
        game: &Game<'_, N>,
        hints: &Hints,
        task: u32,
    ) -> Result<Option<End>, Memory> {
        let run = self.core.run().ok_or(lost())?;
        if run.state.first_fault.is_some() {
            return Ok(None);
        }
        let before = fuel_left(&run.state, task);
        let waited = has_waited(&run.state, task);
        let went = self.core.take_next(game.prog(), task, hints)?;
        self.learn_went(task, before, waited, went)
    }

    /// Commits a draft, unless the run has met a fault or the task is held back. What becomes of a draft that was held back
    /// before, or that began while a rival was at work, is learned from.
    pub(crate) fn commit(
        &mut self,
        game: &Game<'_, N>,
        hints: &Hints,
        drafted: NamedDrafted<N>,
        was_held: bool,
    ) -> Result<Tried<N>, Memory> {
        let at_risk = self.at_work.end(drafted.task()) || was_held;
        self.kept = self.kept.saturating_sub(was_held as u32);
        let run = self.core.run().ok_or(lost())?;
        if run.state.first_fault.is_some() {
            return Ok(Tried::Dropped);
        }
        if self.core.bar(game.prog(), drafted.task())?.is_some() {
            return Ok(self.keep(drafted));
        }
        let task = drafted.task();
        let decl = drafted.decl();
        let cost = drafted.cost();
        match self
            .core
            .commit_shown(game.prog(), drafted.into_drafted(), hints)?
        {
            Verdict::Committed { number } => {
                self.learn_taken(decl, cost, at_risk)?;
                self.taken(task, number)
            }
            Verdict::Held { draft, .. } => Ok(self.keep(NamedDrafted::new(draft))),
            Verdict::Passed => Ok(Tried::Dropped),
            Verdict::Changed { .. } => {
                self.seen.learned.note_changed(decl)?;
                Ok(Tried::Changed)
            }
        }
    }

    /// Gives a draft back whose task is held back, and counts it.
    fn keep(&mut self, drafted: NamedDrafted<N>) -> Tried<N> {
        self.kept = self.kept.saturating_add(1);
        Tried::Held(drafted)
    }

    /// What became of a draft of a task whose last entry has this number.
    fn taken(&mut self, task: u32, number: u64) -> Result<Tried<N>, Memory> {
        match end_at(self.core.run(), number) {
            Some(end) => {
                self.note_made(task, end)?;
                Ok(Tried::Taken(end))
            }
            None => Ok(Tried::Dropped),
        }
    }
}

/// The end of the entry with this number, if there is one.
pub(crate) fn end_at(run: Option<&CoreRun>, number: u64) -> Option<End> {
    let entry = run?.journal.get(number as usize)?;
    Some(entry.end)
}
