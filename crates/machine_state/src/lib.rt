//! The state of a run by the sequential machine, the legal moves in it, the state after a move, and the laws of these. No law here
//! rests on code that runs: `twe_machine` carries moves out.
#![tactic(auto)]

mod ending;
mod laws;
mod replay_fail;
mod replay_laws;
pub mod segment_laws;
mod state;
mod why;

pub use ending::Outcome;
pub use laws::{
    a_move_leaves_the_rest_alone, chains_of_waits_stay, children_are_done_first,
    done_tasks_stay_done, each_thing_happens_once, effects_are_filled, journals_are_short,
    links_agree, links_are_in_order, one_lowest_first, segments_may_be_settled,
};
pub use replay_fail::ReplayFail;
pub use replay_laws::{moves_make_the_journal, one_first_illegal};
pub use state::{FirstFault, State, TaskRow, TaskStatus};
pub use why::Why;
