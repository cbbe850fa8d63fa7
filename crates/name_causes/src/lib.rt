//! Causes of failures of the rules of names: what a text needs at each place where one applies, and what is there.
//!
//! Where a rule fails first is left to `name_check`, and what people read of a cause to the programs above.
#![tactic(auto)]

mod bodies;
mod breaking;
mod decls;
mod expressions;
mod limits;
mod need;
mod statements;
mod whole;

pub use need::{NameLimit, NameNeed, PlacedNeed, PlacedNeeds};
pub use whole::name_cause;
