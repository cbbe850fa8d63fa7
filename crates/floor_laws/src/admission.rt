//! What runs give to admission: the tasks of each state that a legal journal of an accepted program leads to meet the
//! conditions that the core of admission asks for.

pub mod admission_core;
mod laws;

pub use laws::runs_meet_the_conditions;
