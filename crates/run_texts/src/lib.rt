//! How the tasks and the cells of a run are written: a task by its number, its name, its arguments and the place of its
//! declaration, and a cell by its path.
//!
//! `specs/` says which bytes these are. What else is written of a run is left to the crates above.
#![tactic(auto)]

mod cells;
mod labels;

pub use cells::push_cell_path;
pub use labels::{push_decl_place, push_listed_args, push_task_call, task_name};
