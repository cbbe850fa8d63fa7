//! The sequential execution of a task, carried out with a stack of its own: however deep the spawns are nested, it does not recurse.
//! `determinism_laws::elision` defines it. The crate does not say that a run with a scheduler gives the same result.
#![tactic(auto)]

mod execution;
mod fail;
mod turn;

pub use determinism_laws::elision::Progress;
pub use execution::{Elided, elide};
pub use fail::ElideFail;
