//! What the workers of a round learn of the tasks of each declaration: what a segment of theirs costs, and whether it pays to run
//! ahead.
ghost use Rattle.std.specs.Prelude.{◌<◌, length, OnOk};

use std::alloc::Global;
use twe_base::{List, Memory};

/// The fuel of a segment, in units, that costs about as much as what a draft costs beside it.
const BRIEF: u64 = 100;

/// What was seen of the tasks of a declaration.
#[derive(Clone, Copy, Debug)]
struct DraftTally {
    /// What one of their segments is expected to cost, in units of fuel, once one has run: what the last one cost, or half of
    /// what was expected before, whichever is more.
    cost: Option<u64>,
    /// How many of their drafts were committed though what they had read could have changed: they were held back, or began while
    /// a rival was at work.
    kept: u32,
    /// How many of their drafts had read what had changed when they were handed in.
    changed: u32,
}

/// What was seen of the tasks of each declaration.
#[derive(Drop)]
pub(crate) struct Learned {
    tallies: List<DraftTally>,
}

impl Learned {
    /// Nothing was seen.
    pub(crate) fn new(alloc: Global) -> Self {
        Learned {
            tallies: List::new(alloc),
        }
    }

    /// Whether a segment of a task of this declaration is known to be brief: to run it is expected to cost no more than to draft
    /// it.
    pub(crate) fn is_brief(&self, decl: u32) -> bool {
        match self.tally(decl).cost {
            Some(cost) => is_brief_cost(cost),
            None => false,
        }
    }

    /// Whether more drafts of tasks of this declaration changed than were kept, but for one.
    pub(crate) fn changes_often(&self, decl: u32) -> bool {
        let tally = self.tally(decl);
        tally.changed > tally.kept.saturating_add(1)
    }

    /// Whether it pays to draft a task of this declaration while it is held back.
    pub(crate) fn pays_ahead(&self, decl: u32) -> bool {
        !self.changes_often(decl) && !self.is_brief(decl)
    }

    /// Notes what a segment of a task of this declaration cost.
    pub(crate) fn note_cost(&mut self, decl: u32, fuel: u64) -> Result<(), Memory> {
        let mut tally = self.tally(decl);
        tally.cost = Some(expected(tally.cost, fuel));
        self.put(decl, tally)
    }

    /// Notes that a draft of a task of this declaration was committed though what it had read could have changed.
    pub(crate) fn note_kept(&mut self, decl: u32) -> Result<(), Memory> {
        let mut tally = self.tally(decl);
        tally.kept = tally.kept.saturating_add(1);
        self.put(decl, tally)
    }

    /// Notes that a draft of a task of this declaration had read what had changed.
    pub(crate) fn note_changed(&mut self, decl: u32) -> Result<(), Memory> {
        let mut tally = self.tally(decl);
        tally.changed = tally.changed.saturating_add(1);
        self.put(decl, tally)
    }

    /// What was seen of the tasks of a declaration.
    fn tally(&self, decl: u32) -> DraftTally {
        match self.tallies.get(decl as usize) {
            Some(tally) => *tally,
            None => unseen(),
        }
    }

    /// Makes this what was seen of the tasks of a declaration.
    fn put(&mut self, decl: u32, tally: DraftTally) -> Result<(), Memory> {
        reach(&mut self.tallies, decl)?;
        self.tallies.set(decl as usize, tally);
        Ok(())
    }
}

/// Makes room for what was seen of a declaration.
fn reach(tallies: &mut List<DraftTally>, decl: u32) -> Result<(), Memory>
    ensures { OnOk result (decl < length tallies.new) }
{
    'reaching: while tallies.len() <= decl as usize {
        tallies.push(unseen())?;
    }
    Ok(())
}

/// Nothing was seen of a declaration.
fn unseen() -> DraftTally {
    DraftTally {
        cost: None,
        kept: 0,
        changed: 0,
    }
}

/// Whether a segment that costs so much is brief.
pub(crate) fn is_brief_cost(fuel: u64) -> bool {
    fuel <= BRIEF
}

/// What the next segment is expected to cost, if it was this before and the last one took so much fuel.
fn expected(before: Option<u64>, fuel: u64) -> u64 {
    match before {
        Some(cost) if cost / 2 > fuel => cost / 2,
        _ => fuel,
    }
}
