//! The entries of the journal.
ghost use Rattle.std.specs.Prelude.{◌≡◌, ◌≢◌, ◌<◌, ◌+◌, ◌^◌, ℕ, Option, Some};
ghost use Rattle.machine_state.specs.declared.state.TaskRow.{TaskRow};
ghost use Rattle.seg_meaning.specs.declared.frame.Frame.{Frame};
ghost use Rattle.seg_meaning.specs.declared.stop.Stop.{Stop};
ghost use Rattle.floor_laws.specs.declared.rule.view.HeldTurn.{HeldTurn};
ghost use Rattle.floor_laws.specs.declared.table.view.SeatKind.TheVariants.{Spent};
ghost use Rattle.floor_laws.specs.table.Tells.{IsLatest, MayDraw, clock_step};
ghost use Rattle.floor_laws.specs.rule.nodes.TurnSteps.{HasPlacedChildren};
ghost use Rattle.floor_laws.specs.table.nodes.EntrySeats.{DrewAdmission, DrewTreeEntry, MayAdmitLatest};
ghost use Rattle.floor_laws.specs.table.nodes.FloorSeats.{HasTaskSlots, floor_seat};
ghost use Rattle.floor_laws.specs.table.nodes.Seats.{TreeSeat, turns_seen};
ghost use Rattle.task_floor.specs.Committing.{HasAdmitted, HasCommittedBeside, MayCommitBeside, left_to_place, with_made};
ghost use Rattle.task_floor.specs.inner.Bringing.{MayBringBeside};

use crate::clock::{asked_of, clock_step, entries_of};
use crate::entry_log::EntryLog;
use crate::floor::{Floor, Stand};
use crate::settling::{settle, spawner, take_prints};
use floor_laws::rule::TaskSlot;
use floor_laws::table::nodes::{DrawAdmission, DrawTreeEntry, Planted};
use floor_laws::table::{KeptSlot, Named};
use seg_journal::{End, Entry, Kind, Limits, Move, NumberedEntry};
use seg_meaning::Stop;
use std::alloc::Global;
use twe_base::Ints;

/// An entry of a segment that was drawn.
#[derive(Debug, Drop)]
pub struct Committed {
    /// Its number: how many entries of the journal come before it.
    pub number: u64,
    /// How it ends.
    pub end: End,
    /// What the slot of a spawned child will hold, if the entry made one. The stand has the child's first turn: it has to place
    /// the child's records, and then to give that turn.
    pub child: Option<KeptSlot>,
}

impl<N: Named + Planted> Floor<N> {
    /// Draws the entry of a task whose segment has left the frame of this slot and has stopped in this way. One step on the
    /// clock gives the entry its number and, if it makes a task, the number of that task. The entry goes into the log with the
    /// numbers that the segment has printed. The slot is then what the entry leaves, for the next segment, `park` or `finish`.
    ///
    /// A task that is made and not spawned gets its frame into its slot and its first phase, and its turn is free. Of a spawned
    /// child the stand has the first turn and the slot, whose content is returned. If the number of the new task is not below the
    /// limit, the maker ends with a fault instead. It takes no memory and never blocks. The stand holds no node.
    pub fn commit(
        &self,
        alloc: Global,
        lim: Limits,
        stand: &mut Stand,
        log: &mut EntryLog,
        task: u32,
        slot: &mut TaskSlot,
        stop: Stop,
    ) -> Committed
        requires here { stand.old.table_id ≡ self.now }
        requires live { stand.old.me.0.floor.kind ≢ Spent }
        requires slots { HasTaskSlots N.lim.tasks stand.old.me.1 }
        requires lim { lim ≡ N.lim }
        requires may { (turn : HeldTurn) × MayCommitBeside N.prog stand.old.me task slot.old stop turn }
        requires room { 0 < log.old.room }
        ensures committed { (turn : HeldTurn) → MayCommitBeside N.prog stand.old.me task slot.old stop turn
            → HasCommittedBeside N.lim stand.old.me task turn slot.old.frame stop result.number result.end result.child slot.new
            stand.new.me log.old log.new }
        ensures slots { HasTaskSlots N.lim.tasks stand.new.me.1 }
        ensures same { (stand.new.table_id ≡ stand.old.table_id) × (stand.new.id ≡ stand.old.id) }
    {
        let clock = self.draw(stand, clock_step(&stop));
        let asked = asked_of(clock);
        let number = entries_of(clock);
        let prints = take_prints(alloc, &mut slot.frame);
        let (end, made) = settle(lim, asked, task, &mut slot.frame, stop);
        let entry = NumberedEntry {
            number,
            entry: Entry {
                mv: Move {
                    kind: Kind::Run,
                    task,
                },
                end,
            },
            prints,
        };
        let kept = log.push_keeping(entry, made);
        let child = self.bring(stand, asked + 1, kept);
        Committed { number, end, child }
    }

    /// Draws the admission of a task whose slot is the latest that the stand has out, once the stand has placed a record for each
    /// effect of the task. Returns the number of the entry, which goes into the log. The stand knows then that the task is
    /// enabled. It takes no memory and never blocks.
    pub fn commit_admit(
        &self,
        alloc: Global,
        stand: &mut Stand,
        log: &mut EntryLog,
        task: u32,
    ) -> u64
        requires here { stand.old.table_id ≡ self.now }
        requires live { stand.old.me.0.floor.kind ≢ Spent }
        requires may { (turn : HeldTurn) × MayAdmitLatest N.nodes stand.old.me task turn }
        requires room { 0 < log.old.room }
        ensures admitted { (turn : HeldTurn) → MayAdmitLatest N.nodes stand.old.me task turn
            → HasAdmitted stand.old.me task turn result stand.new.me log.old log.new }
        ensures same { (stand.new.table_id ≡ stand.old.table_id) × (stand.new.id ≡ stand.old.id) }
    {
        let clock = self.draw_admission(stand);
        let number = entries_of(clock);
        let prints = Ints::new(alloc);
        log.push_within(NumberedEntry {
            number,
            entry: Entry {
                mv: Move {
                    kind: Kind::Admit,
                    task,
                },
                end: End::Admitted,
            },
            prints,
        });
        number
    }

    /// Draws an entry of a segment, by one step on the clock, and returns what the clock said before.
    fn draw(&self, stand: &mut Stand, step: u64) -> u64
        requires here { stand.old.table_id ≡ self.now }
        requires live { stand.old.me.0.floor.kind ≢ Spent }
        requires slots { HasTaskSlots N.lim.tasks stand.old.me.1 }
        requires may { (t : ℕ) × (turn : HeldTurn) × (frame : Frame) × (stop : Stop) × IsLatest (floor_seat stand.old.me) t
            × MayDraw N.prog (floor_seat stand.old.me) t turn frame stop × HasPlacedChildren (turns_seen stand.old.me.0) 0 t
            × (step ≡ clock_step stop) }
        ensures drew { DrewTreeEntry N.prog N.lim stand.old.me result stand.new.me }
        ensures same { (stand.new.table_id ≡ stand.old.table_id) × (stand.new.id ≡ stand.old.id) }
    {
        self.table
            .shared
            .fetch_add::<DrawTreeEntry<N>>(stand, 0, step)
    }

    /// Draws the entry of an admission, by one step on the clock, and returns what the clock said before.
    fn draw_admission(&self, stand: &mut Stand) -> u64
        requires here { stand.old.table_id ≡ self.now }
        requires live { stand.old.me.0.floor.kind ≢ Spent }
        requires may { (t : ℕ) × (turn : HeldTurn) × MayAdmitLatest N.nodes stand.old.me t turn }
        ensures drew { DrewAdmission N.nodes stand.old.me result stand.new.me }
        ensures same { (stand.new.table_id ≡ stand.old.table_id) × (stand.new.id ≡ stand.old.id) }
    {
        self.table.shared.fetch_add::<DrawAdmission<N>>(stand, 0, 1)
    }

    /// Gives the first turn of a task that was made, if one was and it was not spawned. Returns what the slot of a spawned one
    /// will hold.
    fn bring(&self, stand: &mut Stand, number: u32, made: Option<KeptSlot>) -> Option<KeptSlot>
        requires here { stand.old.table_id ≡ self.now }
        requires live { stand.old.me.0.floor.kind ≢ Spent }
        requires may { (drawn : TreeSeat) × (row : Option TaskRow) × MayBringBeside N.lim stand.old.me number made drawn row }
        ensures brought { (drawn : TreeSeat) (row : Option TaskRow) → MayBringBeside N.lim stand.old.me number made drawn row
            → (stand.new.me ≡ with_made drawn number row) × (result ≡ left_to_place row) }
        ensures same { (stand.new.table_id ≡ stand.old.table_id) × (stand.new.id ≡ stand.old.id) }
    {
        match made {
            None => None,
            Some(slot) => self.bring_made(stand, number, slot),
        }
    }

    /// The same of a task that was made.
    fn bring_made(&self, stand: &mut Stand, number: u32, slot: KeptSlot) -> Option<KeptSlot>
        requires here { stand.old.table_id ≡ self.now }
        requires live { stand.old.me.0.floor.kind ≢ Spent }
        requires may { (drawn : TreeSeat) × (row : TaskRow)
            × MayBringBeside N.lim stand.old.me number (Some slot) drawn (Some row) }
        ensures brought { (drawn : TreeSeat) (row : TaskRow)
            → MayBringBeside N.lim stand.old.me number (Some slot) drawn (Some row)
            → (stand.new.me ≡ with_made drawn number (Some row)) × (result ≡ left_to_place (Some row)) }
        ensures same { (stand.new.table_id ≡ stand.old.table_id) × (stand.new.id ≡ stand.old.id) }
    {
        match spawner(&slot) {
            Some(_) => Some(slot),
            None => {
                self.give_first(stand, number, slot);
                None
            }
        }
    }
}
