//! Runs by workers on the floor. Between rounds a run lies still: moves are taken one by one, and tasks that may be admitted are
//! admitted, as long as no two tasks may run beside each other whose segments may be long. A round puts the run on a floor with
//! the nodes of the program's tree, on which workers admit tasks and run segments at the same time, and takes it back.
#![tactic(auto)]

mod account;
mod ahead;
mod alone;
mod at_rest;
mod body_place;
mod brief;
mod crew;
mod ended_tasks;
mod going_on;
mod ground;
mod held_tasks;
mod located;
mod look_queue;
mod on_floor;
mod outlook_at_rest;
mod quiet;
mod room;
mod round;
mod round_setup;
mod round_worker;
mod rounds;
mod runnable;
mod splitting;
mod task_book;
mod until_long;
mod waiters;

pub use crew::FloorCrew;
pub use rounds::run_on_floor;
