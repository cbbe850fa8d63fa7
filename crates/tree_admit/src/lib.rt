//! Placing and removing the records of tasks in the effect tree: a worker goes down the tree hand over hand, from the root to the
//! place of an effect, and comes back. Whoever admits a task looks at each record that it meets on its way.
#![tactic(auto)]

mod admitting;
mod at_place;
mod bars;
mod chains;
mod descents;
mod errands;
mod footing;
mod locking;
mod passing;
mod placing;
mod releasing;
pub mod serving;
mod testing;
mod walks;
pub mod ways;

pub use admitting::{Admittance, try_admit};
pub use bars::{Attempt, Bar};
pub use errands::{place_one, take_out_one};
pub use footing::Footing;
pub use placing::place_spawned;
pub use releasing::release;
