//! Workers of a floor, who serve one task after another: a worker admits a task, or it runs the next segment of a
//! task, draws its entry and leaves it. Which task it serves next is left to the crates above.

mod admission;
mod admitting;
mod taking;
mod worker;
mod working;
mod workshop;

pub use admission::Admission;
pub use task_floor::steps::Served;
pub use worker::TreeWorker;
pub use workshop::Workshop;
