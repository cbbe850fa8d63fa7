//! Whether several workers gain more than they cost.
//!
//! Each of several workers needs a thread, and the tasks that are not done are dealt to them. While all segments are brief, they
//! keep one another waiting. So a single worker has the run as long as its segments are brief. Several get it once a task may run
//! whose next segment may be long, beside another one that may go on. They give it back after some brief segments beside which no
//! draft was run or kept. Work pays for each change, so that changes cost no more than the work. All that is counted here is an
//! estimate, on which no clause rests.

use machine_state::State;
use seg_journal::End;
use twe_rounds::has_ended;

/// What a segment counts beside the fuel that it takes, in units of fuel.
const PER_SEGMENT: u64 = 64;

/// What it costs, in units of fuel, that several workers get the run and give it back.
const PER_CHANGE: u64 = 8192;

/// What each task that is not done adds to that.
const PER_TASK: u64 = 64;

/// After how many brief segments several workers give the run back.
const CALM: u32 = 32;

/// How a run has gone so far.
#[derive(Clone, Copy, Debug)]
pub(crate) struct RunPace {
    /// The work so far, in units of fuel.
    work: u64,
    /// How much work there has to be before several workers get the run.
    due: u64,
    /// Whether those who have the run, one worker or several, leave it to the others.
    left: bool,
    /// How many tasks have not ended and do not wait.
    going: u32,
    /// How many brief segments were run one after another, beside which no draft was run or kept.
    calm: u32,
}

impl RunPace {
    /// The pace of a run that has not begun. The first change costs nothing.
    pub(crate) fn new() -> Self {
        RunPace {
            work: 0,
            due: 0,
            left: false,
            going: 0,
            calm: 0,
        }
    }

    /// A single worker gets the run in this state, or several do.
    pub(crate) fn begin(&mut self, state: &State) {
        self.left = false;
        self.going = count_going(state);
        self.calm = 0;
    }

    /// Whether those who had the run have left it to the others.
    pub(crate) fn was_left(&self) -> bool {
        self.left
    }

    /// A single worker leaves the run in this state to several. Work has to pay for that before they get it once more.
    pub(crate) fn leave(&mut self, state: &State) {
        self.left = true;
        self.due = self.work.saturating_add(cost_of(state));
    }

    /// Whether several workers leave the run to a single one. They do after some brief segments.
    pub(crate) fn leaves(&mut self) -> bool {
        self.left = self.left || self.calm >= CALM;
        self.left
    }

    /// Whether several workers may gain by the run. A task may run in it, whose next segment is known to be brief or not and
    /// comes after a wait or not.
    pub(crate) fn may_gain(&self, is_brief: bool, waited: bool) -> bool {
        self.work >= self.due && !is_brief && self.has_others(waited)
    }

    /// Whether a task may go on beside one whose next segment comes after a wait or not.
    fn has_others(&self, waited: bool) -> bool {
        self.going > !waited as u32
    }

    /// Counts a segment that took so much fuel. If it was calm, it was brief, and no draft was run or kept beside it.
    pub(crate) fn count(&mut self, fuel: u64, was_calm: bool) {
        self.work = self.work.saturating_add(PER_SEGMENT).saturating_add(fuel);
        self.calm = if was_calm {
            self.calm.saturating_add(1)
        } else {
            0
        };
    }

    /// Notes the end of a segment of a task that came after a wait or not.
    pub(crate) fn note(&mut self, waited: bool, end: End) {
        let going = self.going.saturating_add(waited as u32);
        self.going = match end {
            End::Made { .. } => going.saturating_add(1),
            End::Admitted => going,
            _ => going.saturating_sub(1),
        };
    }
}

/// How many tasks have not ended and do not wait.
fn count_going(state: &State) -> u32 {
    let mut count = 0u32;
    for task in 0..state.links.task_count() {
        if is_undone(state, task) && !has_waited(state, task) {
            count = count.saturating_add(1);
        }
    }
    count
}

/// What it costs, in units of fuel, that several workers get a run in this state and give it back.
fn cost_of(state: &State) -> u64 {
    let cells = state.cells.len() as u64;
    let tasks = state.tasks.len() as u64;
    let mut cost = PER_CHANGE.saturating_add(cells).saturating_add(tasks);
    for task in 0..state.links.task_count() {
        if is_undone(state, task) {
            cost = cost.saturating_add(PER_TASK);
        }
    }
    cost
}

/// Whether there is such a task, and it has not ended.
fn is_undone(state: &State, task: u32) -> bool {
    match state.tasks.get(task as usize) {
        Some(row) => !has_ended(row.status),
        None => false,
    }
}

/// Whether the next segment of a task comes after a wait. The wait need not have ended.
pub(crate) fn has_waited(state: &State, task: u32) -> bool {
    task < state.links.task_count() && state.links.link(task).waits.is_some()
}
