//! What the core of a round learns of the segments that were run: what they cost, how they ended, and whether drafts were taken. No
//! clause rests on it.

use crate::learned::is_brief_cost;
use crate::outlooks::decl_of;
use crate::round_core::RoundCore;
use crate::taking::end_at;
use opt_engine::RoundName;
use seg_journal::End;
use twe_base::Memory;
use twe_rounds::fuel_left;

impl<N: RoundName> RoundCore<N> {
    /// Notes what the last segment of a task cost, if its moves were taken, and returns the end of the last of them. The task had
    /// so much fuel before it, and had waited or not.
    pub(crate) fn learn_went(
        &mut self,
        task: u32,
        before: u64,
        waited: bool,
        went: Option<u64>,
    ) -> Result<Option<End>, Memory> {
        match went {
            None => Ok(None),
            Some(number) => {
                self.note_cost(task, before)?;
                let end = end_at(self.core.run(), number);
                self.note_end(task, waited, end)?;
                Ok(end)
            }
        }
    }

    /// Notes the end of a segment of a task, which had waited before it or not.
    fn note_end(&mut self, task: u32, waited: bool, end: Option<End>) -> Result<(), Memory> {
        let Some(end) = end else {
            return Ok(());
        };
        self.seen.pace.note(waited, end);
        self.note_made(task, end)
    }

    /// Notes whether a segment of a task with this end has made a task that may be long.
    pub(crate) fn note_made(&mut self, task: u32, end: End) -> Result<(), Memory> {
        let made_long = match end {
            End::Made { child } => !self.is_brief(child),
            _ => false,
        };
        self.seen.makers.note(task, made_long)
    }

    /// Notes what the last segment of a task cost, which had so much fuel before it.
    fn note_cost(&mut self, task: u32, before: u64) -> Result<(), Memory> {
        let Some(run) = self.core.run() else {
            return Ok(());
        };
        let Some(decl) = decl_of(&run.state, task) else {
            return Ok(());
        };
        let cost = before.saturating_sub(fuel_left(&run.state, task));
        let is_calm = is_brief_cost(cost) && self.kept == 0 && self.at_work.is_empty();
        self.seen.pace.count(cost, is_calm);
        self.seen.learned.note_cost(decl, cost)
    }

    /// Notes that a draft of a task of this declaration was taken, what its segment cost, and whether what it had read could have
    /// changed meanwhile.
    pub(crate) fn learn_taken(
        &mut self,
        decl: u32,
        cost: u64,
        at_risk: bool,
    ) -> Result<(), Memory> {
        if at_risk {
            self.seen.learned.note_kept(decl)?;
        }
        self.seen.pace.count(cost, false);
        self.seen.learned.note_cost(decl, cost)
    }
}
