//! Copies of frames and of whole states, and whether two states are alike: whether they differ in nothing that can still matter to a
//! run.
//!
//! A frame may have memory reserved for one more child. A copy has none reserved, and a comparison leaves this out. In a state that a
//! run without a fault has come to none is reserved, so the copy of such a state is that state.
#![tactic(auto)]

mod frames;
mod links;
mod rows;
mod states;

pub use frames::{copy_frame, same_frame, same_ints};
pub use states::{are_alike, copy_state};
