//! Gates: what the workers of a run tell of the segments that they run. The program gives them one at which nothing happens.
//! Tests give them one that shows which segments were under way at once.

mod gate;
mod meet_gate;

pub use gate::{FreeGate, Gate};
pub use meet_gate::MeetGate;
