//! The beginning of a run: it is run lowest first, as it is without workers, as long as its segments are known to be short.

use crate::body_place::{BodyPlace, body_place_of};
use crate::brief::{is_at_start, is_brief, starts_brief};
use flat_sched::Lookout;
use machine_state::State;
use seg_journal::{Kind, Move};
use std::alloc::Global;
use twe_base::{List, Memory};
use twe_program::Prog;

/// For how many places of each declaration it is kept that a segment from there is short.
const PLACES: usize = 4;

/// Lets a run go on as long as there is only `main`, or each segment is known to be short. So it does not go on once a task was
/// made whose first segment may be long: workers may run that one while others are made.
#[derive(Drop)]
pub(crate) struct UntilLong {
    // For each declaration of a task whether the first segment of such a task is known to be short.
    starts: List<bool>,
    // For each declaration some places where a task of it stood whose next segment was found to be short. In a loop the next one
    // stands there too.
    short_at: List<Option<BodyPlace>>,
    // How many tasks were looked at when they were made. `main` is not.
    seen: u32,
}

impl UntilLong {
    /// For a run of this program that has not begun.
    pub(crate) fn of(alloc: Global, p: &Prog) -> Result<Self, Memory> {
        let mut starts = List::new(alloc);
        let mut short_at = List::new(alloc);
        for task in p.tasks.as_slice() {
            starts.push(starts_brief(task))?;
            for _ in 0..PLACES {
                short_at.push(None)?;
            }
        }
        Ok(UntilLong {
            starts,
            short_at,
            seen: 1,
        })
    }

    /// Whether the first segment of each task that was made since the last look is known to be short.
    fn new_ones_are_short(&mut self, st: &State) -> bool {
        for task in self.seen..st.links.task_count() {
            if !self.starts_short(st, task) {
                return false;
            }
        }
        self.seen = st.links.task_count();
        true
    }

    /// Whether the first segment of this task is known to be short.
    fn starts_short(&self, st: &State, task: u32) -> bool {
        match st.tasks.get(task as usize) {
            Some(row) => self.starts.get(row.frame.decl as usize) == Some(&true),
            None => false,
        }
    }

    /// Whether the next segment of this task is known to be short.
    fn is_next_short(&mut self, p: &Prog, st: &State, task: u32) -> bool {
        let Some(row) = st.tasks.get(task as usize) else {
            return false;
        };
        let Some(standing) = body_place_of(&row.frame) else {
            return is_brief(p, &row.frame);
        };
        let at = place_of(row.frame.decl, standing);
        if self.short_at.get(at) == Some(&Some(standing)) {
            return true;
        }
        let short = is_brief(p, &row.frame);
        if short && at < self.short_at.len() {
            self.short_at.set(at, Some(standing));
        }
        short
    }
}

impl Lookout for UntilLong {
    fn goes_on(&mut self, p: &Prog, st: &State, mv: Move) -> bool {
        if st.links.task_count() == 1 {
            return true;
        }
        if !self.new_ones_are_short(st) {
            return false;
        }
        match mv.kind {
            Kind::Admit => true,
            Kind::Run => is_at_start(st, mv.task) || self.is_next_short(p, st, mv.task),
        }
    }
}

/// Where it is kept that a segment from there is short. Statements that follow one another have different places.
fn place_of(decl: u32, standing: BodyPlace) -> usize {
    (decl as usize)
        .saturating_mul(PLACES)
        .saturating_add(standing.innermost().after % PLACES)
}
