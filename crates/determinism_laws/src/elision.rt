//! The sequential execution of a task, as a definition: each spawn runs the child in full where it stands.
//!
//! `specs/elision/Elision.antt` defines it over the meaning of a segment, so the language has no second meaning here. `seq_elide` carries it
//! out. The module does not say that a run with a scheduler gives the same result.

mod laws;
mod progress;

pub use laws::{executions_are_made_of_segments, larger_bounds_give_the_same};
pub use progress::Progress;
