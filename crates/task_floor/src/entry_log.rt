//! The entries that a worker has drawn.
ghost use Rattle.std.specs.Prelude.{◌≡◌, ◌<◌, IsSome, OnOk, OnErr};
ghost use Rattle.task_floor.specs.steps.Committing.{empty_log, with_entry};

use crate::tally::Tally;
use floor_laws::rule::TaskSlot;
use floor_laws::table::{KeptSlot, SlotRoom};
use seg_journal::{JournalPart, NumberedEntry};
use std::alloc::Global;
use std::marker::Model;
use twe_base::{List, Memory};

/// The entries that a worker has drawn, in order, with room that is reserved for the next one and for the slot of a task that it
/// makes. Contracts see the entries, and how many more can be added without taking memory.
#[derive(Debug, Drop)]
pub struct EntryLog {
    alloc: Global,
    entries: Vec<NumberedEntry>,
    /// How many more entries are sure to fit into the memory of `entries`.
    room: usize,
    /// Where the slot of the next task that is made can be kept.
    next_slot: Option<SlotRoom>,
    /// What the worker has ended.
    tally: Tally,
}

impl Model for EntryLog {
    ghost use Rattle.std.specs.Prelude.{◌+◌, ◌≤◌, ◌<◌, IsSome, vec_len, vec_capacity};
    ghost use Rattle.task_floor.specs.steps.Committing.{Log};

    ghost Value = { Log };

    ghost view = { λ log. record { entries = log.entries.items; room = log.room } };

    ghost invariant = { λ log. (vec_len log.entries + log.room ≤ vec_capacity log.entries) × (log.room ≤ 1)
        × (0 < log.room → IsSome log.next_slot) };
}

/// Reserves room for the slot of a task, unless there is room for one.
fn reserve_slot(alloc: Global, next_slot: &mut Option<SlotRoom>) -> Result<(), Memory>
    ensures there { OnOk result (IsSome next_slot.new) }
    ensures kept { IsSome next_slot.old → IsSome next_slot.new }
{
    if next_slot.is_none() {
        *next_slot = Some(SlotRoom::new(alloc)?);
    }
    Ok(())
}

impl EntryLog {
    /// No entries, and no room for one. It takes no memory.
    pub fn new(alloc: Global) -> Self
        ensures { result ≡ empty_log }
    {
        EntryLog {
            alloc,
            entries: Vec::new(alloc),
            room: 0,
            next_slot: None,
            tally: Tally::default(),
        }
    }

    /// Reserves room for one more entry, and for the slot of a task that it makes. If memory runs out, nothing changes.
    pub fn reserve(&mut self) -> Result<(), Memory>
        ensures ok { OnOk result (self.new ≡ record self.old { room = 1 }) }
        ensures err { OnErr result (self.new ≡ self.old) }
    {
        reserve_slot(self.alloc, &mut self.next_slot)?;
        self.entries.reserve(1)?;
        self.room = 1;
        Ok(())
    }

    /// Adds an entry after the others, in the room that was reserved for it. It takes no memory.
    pub(crate) fn push_within(&mut self, entry: NumberedEntry)
        requires { 0 < self.old.room }
        ensures { self.new ≡ with_entry entry self.old }
    {
        self.entries.push_reserved(entry);
        self.room -= 1;
    }

    /// The same of an entry that makes a task or none. What the slot of the new task will hold is kept in the room that was
    /// reserved for it.
    pub(crate) fn push_keeping(
        &mut self,
        entry: NumberedEntry,
        made: Option<TaskSlot>,
    ) -> Option<KeptSlot>
        requires { 0 < self.old.room }
        ensures entry { self.new ≡ with_entry entry self.old }
        ensures kept { result ≡ made }
    {
        let kept = match made {
            None => None,
            Some(slot) => match self.next_slot.take() {
                Some(room) => Some(room.keep(slot)),
                None => unreachable!(),
            },
        };
        self.entries.push_reserved(entry);
        self.room -= 1;
        kept
    }

    /// Counts a task that the worker has ended, and that took so much fuel.
    pub fn count_end(&mut self, fuel: u64)
        ensures { self.new ≡ self.old }
    {
        self.tally.count(fuel);
    }

    /// What the worker has ended.
    pub fn tally(&self) -> Tally {
        self.tally
    }

    /// The entries, as a part of a journal. It takes no memory.
    pub fn into_part(self) -> JournalPart
        ensures { result ≡ self.entries }
    {
        let EntryLog { entries, .. } = self;
        List::from(entries)
    }
}
