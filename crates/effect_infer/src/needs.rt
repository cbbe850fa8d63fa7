//! What the bodies of methods need: reads, writes and calls as the rules on effects see them.
//!
//! `specs/` defines the needs of a method, by finite chains of calls, and the summary that they make. The code collects the
//! steps of a body. The laws say what a choice of summaries must cover so that no method fails its rule.

mod collect;
mod collect_body;
mod laws;
mod need;

pub use collect_body::steps_of_body;
pub use laws::{
    accepted_choices_cover_needs, covering_choices_are_accepted,
    covering_choices_keep_programs_accepted,
};
pub use need::{BodyStep, Need, Steps};
