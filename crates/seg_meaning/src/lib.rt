//! Segments: what a task executes from where it stands up to its next task operation or its end.
//!
//! `specs/` defines the meaning of a segment by cases on the text of a body. Here are also the types that it speaks of: the frame of a
//! task, how a segment stops, and what an implementation of the cells of a program has to be. `seg_exec` has the evaluator, which is
//! proved to have this meaning. The crate does not say what a stop does to the state of a run.
#![tactic(auto)]

mod active;
mod cells;
mod children;
mod fault;
mod frame;
mod give;
mod laws;
mod operation;
mod short_list;
mod stop;

pub use active::ActiveCall;
pub use cells::Cells;
pub use children::Children;
pub use fault::FaultCause;
pub use frame::{Frame, Next, OpenBody, Position};
pub use laws::{
    a_segment_is_determined_by_its_reads, a_spawn_has_room, accesses_are_of_the_program,
    larger_bounds_change_nothing, over_a_list_it_is_the_segment,
};
pub use operation::Operation;
pub use short_list::ShortList;
pub use stop::Stop;
