//! The run theorem on one page: what holds of a call of `run` whose status is 0, and the laws that lead to it.
//!
//! No program calls these laws. Their contracts are the statements, and `specs/` has the definitions.
#![tactic(auto)]

mod accepted;
mod answers;
mod journals;
mod theorem;

pub use accepted::accepted_programs_are_well_formed;
pub use answers::{deterministic_mains_have_one_answer, deterministic_mains_have_one_status};
pub use journals::{each_task_is_enabled_once, tasks_keep_apart_throughout};
pub use theorem::the_run_theorem;
