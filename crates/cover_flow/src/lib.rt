//! A dataflow analysis: which futures may be out, and which surely are, at each point of a body. It is exact for the
//! control paths to the point, which `specs/` defines. It follows 128 futures at once, with a bit for each. The rules on
//! effects, which use it, are left to others.
#![tactic(auto)]

mod answers;
mod facts;
mod laws;
mod mark;
mod transfer;
mod turns;

pub use answers::{Points, flow};
pub use facts::FUTURES_AT_ONCE;
pub use laws::control_paths_go_step_by_step;
