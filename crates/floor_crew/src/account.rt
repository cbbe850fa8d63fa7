//! Whether a floor is worth what it costs, and how large it is.
//!
//! To lay out a floor and to take the run back costs a pass over all tasks that it has room for, over all nodes and over all
//! entries, and a segment costs more on a floor than at rest. A run whose tasks are short would spend its time on floors. So its
//! work pays for them: after a floor, another one is laid out only once as much work was done as it costs. And a worker leaves
//! the floor once it finds that tasks are short; then moves are taken at rest until a long segment comes. A floor has room for
//! more tasks than are made, and the first one for few if few are made; if they were long, the next one is larger. All that is
//! counted here is an estimate, on which no clause rests.

use machine_state::State;
use seg_journal::End;
use task_floor::steps::Rest;
use twe_base::Limits;
use twe_rounds::fuel_left;

/// What a move counts beside the fuel that it takes, in units of fuel. A turn of a short loop takes one unit.
const PER_MOVE: u64 = 80;

/// What a floor costs for each task that it has room for and for each node, in units of fuel.
const PER_SLOT: u64 = 16;

/// What a floor costs for each entry of the journal, in units of fuel.
const PER_ENTRY: u64 = 8;

/// How much fuel a segment takes, or a task, that is worth a worker.
const LONG: u64 = 200;

/// How many of the last entries on a floor say whether its tasks were short.
const LAST_ENTRIES: usize = 1024;

/// For how many times as many tasks as are made a floor has room, up to a number of tasks.
const ROOM_FOR_EACH: u32 = 64;

/// That number.
const MOST_FOR_EACH: u32 = 16_384;

/// How many tasks the first floor has room for, and one after a floor whose tasks were short, if not more are made.
const FIRST_ROOM: u32 = 1024;

/// How many times as many the next floor has room for if they were long.
const MORE_ROOM: u32 = 16;

/// The account of a run.
#[derive(Drop)]
pub(crate) struct Account {
    // The work so far, in units of fuel.
    work: u64,
    // How much work there has to be before another floor is laid out.
    due: u64,
    // How many entries there were when the last floor was laid out.
    entries: u64,
    // Whether the tasks on the last floor were short, or none ended there, and no segment was long since then.
    is_fine: bool,
    // How many tasks the next floor has room for, if not more are made.
    room: u32,
}

impl Account {
    /// The account of a run that has not begun. The first floor costs nothing.
    pub(crate) fn new() -> Self {
        Account {
            work: 0,
            due: 0,
            entries: 0,
            is_fine: false,
            room: FIRST_ROOM,
        }
    }

    /// Whether another floor is worth its cost: the work so far has paid for it, and it is not known that tasks are short.
    pub(crate) fn is_worth_a_floor(&self) -> bool {
        !self.is_fine && self.work >= self.due
    }

    /// Whether no task is worth a worker: those on the last floor were short, or none ended there, and no segment was long since
    /// then.
    pub(crate) fn are_tasks_short(&self) -> bool {
        self.is_fine
    }

    /// Counts a move at rest that took so much fuel.
    pub(crate) fn count(&mut self, fuel: u64) {
        self.work = self.work.saturating_add(PER_MOVE).saturating_add(fuel);
        if fuel >= LONG {
            self.is_fine = false;
        }
    }

    /// How many tasks the next floor has room for: many times those that are made if these are few, or else twice those and
    /// more, and at most as many as may be made.
    pub(crate) fn room(&self, lim: Limits, st: &State) -> u32 {
        let made = st.links.task_count();
        let many = made.saturating_mul(ROOM_FOR_EACH).min(MOST_FOR_EACH);
        let twice = made.saturating_mul(2).saturating_add(FIRST_ROOM);
        many.max(twice).max(self.room).min(lim.tasks)
    }

    /// A floor with room for so many tasks and with so many nodes is laid out for a run.
    pub(crate) fn lay_out(&mut self, room: u32, nodes: u32, rest: &Rest) {
        self.entries = rest.journal.len() as u64;
        let slots = u64::from(room).saturating_add(u64::from(nodes));
        self.due = self
            .work
            .saturating_add(slots.saturating_mul(PER_SLOT))
            .saturating_add(self.entries.saturating_mul(PER_ENTRY));
    }

    /// Counts the work of a run that comes back from a floor.
    pub(crate) fn recount(&mut self, lim: Limits, rest: &Rest) {
        let entries = rest.journal.len() as u64;
        self.work = entries
            .saturating_mul(PER_MOVE)
            .saturating_add(fuel_taken(lim, &rest.state));
        let last = rest.journal.len().saturating_sub(LAST_ENTRIES);
        let (ended, fuel) = count_ended(lim, rest, last.max(self.entries as usize));
        self.is_fine = are_short(ended.max(1), fuel);
        if self.is_fine {
            self.room = FIRST_ROOM;
        } else {
            self.room = self.room.saturating_mul(MORE_ROOM);
        }
    }
}

/// Whether so many tasks are short, if they took so much fuel together.
pub(crate) fn are_short(tasks: u64, fuel: u64) -> bool {
    fuel < tasks.saturating_mul(LONG)
}

/// How many tasks have ended in the entries from this one on, and how much fuel they have taken.
fn count_ended(lim: Limits, rest: &Rest, from: usize) -> (u64, u64) {
    let mut ended = 0u64;
    let mut fuel = 0u64;
    for at in from..rest.journal.len() {
        if let Some(entry) = rest.journal.get(at)
            && let End::Done { .. } = entry.end
        {
            let left = fuel_left(&rest.state, entry.mv.task);
            ended = ended.saturating_add(1);
            fuel = fuel.saturating_add(lim.fuel.saturating_sub(left));
        }
    }
    (ended, fuel)
}

/// The fuel that all tasks have taken.
fn fuel_taken(lim: Limits, st: &State) -> u64 {
    let mut taken = 0u64;
    for row in st.tasks.as_slice() {
        taken = taken.saturating_add(lim.fuel.saturating_sub(row.frame.fuel));
    }
    taken
}
