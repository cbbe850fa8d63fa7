//! What is noted of the entries of a run, to know afterwards who held its admissions.
ghost use Rattle.std.specs.Prelude.{◌≡◌, [], ◌∷◌, None, IfOk, OnOk};
ghost use Rattle.held_span.specs.inner.Noting.{low_at, maker_by, makers_after, noted};

use seg_journal::{End, Entry, Kind};
use std::alloc::Global;
use twe_base::{List, Memory};

/// What is noted of the entries of a run, to know afterwards who held its admissions.
#[derive(Debug, Drop)]
pub(crate) struct EntryNotes {
    /// For each entry the lowest enabled task whose effects interfere with those of the task that it admits, if there is one.
    lows: List<Option<u32>>,
    /// For each task the entry that made it, if one did.
    makers: List<Option<u64>>,
}

/// Notes the entry of this number as the one that made the next task, if it ended so.
fn note_maker(makers: &mut List<Option<u64>>, number: u64, end: End) -> Result<(), Memory>
    ensures { OnOk result (makers.new ≡ makers_after makers.old number end) }
{
    match end {
        End::Made { .. } => {
            makers.push(Some(number))?;
            Ok(())
        }
        _ => Ok(()),
    }
}

impl EntryNotes {
    /// No entry, and the first task.
    pub(crate) fn new(alloc: Global) -> Result<Self, Memory>
        ensures { IfOk result (λ notes. notes ≡ record { lows = []; makers = None ∷ [] }) }
    {
        let mut makers = List::new(alloc);
        makers.push(None)?;
        Ok(EntryNotes {
            lows: List::new(alloc),
            makers,
        })
    }

    /// Notes the next entry, which ended so, and the lowest task that held what it admits, if there is one.
    pub(crate) fn note_entry(&mut self, end: End, low: Option<u32>) -> Result<(), Memory>
        ensures { OnOk result (self.new ≡ noted self.old end low) }
    {
        let number = self.lows.len() as u64;
        note_maker(&mut self.makers, number, end)?;
        self.lows.push(low)?;
        Ok(())
    }

    /// The entry that made the task which an entry admits, if it admits one that was made.
    pub(crate) fn maker_of(&self, entry: Entry) -> Option<u64>
        ensures { result ≡ maker_by self.now.makers entry.mv.kind entry.mv.task }
    {
        match (entry.mv.kind, self.makers.get(entry.mv.task as usize)) {
            (Kind::Admit, Some(maker)) => *maker,
            _ => None,
        }
    }

    /// The lowest task that held what the entry of this number admits, and 0 if none did.
    pub(crate) fn low_at(&self, number: usize) -> u32
        ensures { result ≡ low_at self.now.lows number }
    {
        match self.lows.get(number) {
            Some(Some(low)) => *low,
            _ => 0,
        }
    }
}
