//! Places have no part in a run: programs that are equal except for the places in them run alike.
//!
//! A place only says where in the text a fault is met. The laws here are of one segment, of one move, and of whole journals with
//! their outcomes.
#![tactic(auto)]

mod laws;

pub use laws::{moves_do_not_see_places, programs_run_alike, segments_do_not_see_places};
