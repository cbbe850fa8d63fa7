//! What each step of a worker on a floor comes to, as its seat on the floor's table knows it: taking and giving the turn of a
//! task, carrying out a segment, drawing its entry, leaving the task, and laying out and reading the words and the slots of
//! tasks. Definitions and laws, and the types of what calls answer; the calls are those of the floor.

mod busy;
mod laws;
mod readiness;
mod rest;
mod served;

pub use busy::Busy;
pub use laws::an_end_says_the_status;
pub use readiness::Readiness;
pub use rest::Rest;
pub use served::Served;
