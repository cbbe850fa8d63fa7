//! Which moves of a state of a run are taken, so that no way to end is lost.
//!
//! What is enough is defined in `reduction_laws`, which proves that it is. The tests here take no memory. Where they fail, more moves are
//! taken than need be.
#![tactic(auto)]

mod alone;
mod choosing;

pub use choosing::choice_in;
