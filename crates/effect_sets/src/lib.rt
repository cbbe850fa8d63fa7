//! Effects of tasks and methods: reads and writes of regions, and the summary of a declaration.
#![tactic(auto)]

mod cover;
mod effects;
mod interference;
mod laws;

pub use cover::covers;
pub use effects::{Effect, Effects, Summary};
pub use interference::{interferes, summaries_interfere};
pub use laws::{
    cover_is_of_accesses, filling_of_effects_is_sound, interference_is_of_accesses,
    written_tests_are_sound,
};
