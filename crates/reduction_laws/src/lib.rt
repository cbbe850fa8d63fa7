//! Which moves of a state are enough to find all ways in which a run can end.
//!
//! A task that may run may run first: no way to end is lost if only its next segment is taken. So it is with the admission of a
//! task that nothing meets. The laws here stand on those of `determinism_laws`: moves change places, and only the numbers of new
//! tasks differ.
#![tactic(auto)]

mod choice;
mod laws;

pub use choice::Choice;
pub use laws::{
    a_task_that_may_run_may_run_first, an_admission_that_nothing_meets_may_come_first,
    enough_moves_keep_each_way_to_end,
};
