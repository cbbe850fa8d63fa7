//! Places have no part in what `run` answers: texts whose programs are equal except for the places in them are answered alike.
#![tactic(auto)]

mod laws;

pub use laws::{results_name_no_places, runs_are_answered_alike};
