//! The evaluator of segments. It is proved to have the meaning that `seg_meaning` defines, over any implementation of `Cells`.
//!
//! In `steps` it is a machine with a stack of its own, which goes in small steps. In `strides` it makes several steps at once. It
//! recurses only over expressions that call no method, so that no program makes it recurse deeply.
#![tactic(auto)]

mod arithmetic;
mod body;
mod elements;
mod entry;
mod segment;
mod snapshot;
mod steps;
mod strides;

pub use entry::{effects_at, entry_frame};
pub use segment::{run_segment, run_segment_over_list};
pub use snapshot::{FaultSnapshot, fault_snapshot};
