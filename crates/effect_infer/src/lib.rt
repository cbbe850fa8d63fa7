//! The least summaries of a program's methods: for each method the needs that no other need of it covers.
//!
//! `IsNeed`, in `specs/needs`, says what a method needs. The code starts from what the bodies read and write, hands each need
//! on to the callers until nothing is new, and then keeps the widest. Equal calls hand on once. A need that another covers is
//! dropped, and so is one that every short summary of the method must cover, because of what else was found.
#![tactic(auto)]

mod add;
mod callers;
mod calls_seen;
mod crowd;
mod fail;
mod found;
mod gather;
mod index;
mod keep;
mod least;
pub mod needs;
mod opened;
mod rows;
mod spread;
mod summary;
mod widen;

pub use fail::InferFail;
pub use least::{infer, infer_each};
pub use summary::{EachNeeds, Needs};
