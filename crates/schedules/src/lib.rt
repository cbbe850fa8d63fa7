//! Schedules of weighted entries on several processors, with an order between them: laws on how long every schedule takes, and
//! every greedy one, and a timetable that is found for a run. What the entries stand for is left to the crates above.
#![tactic(auto)]

mod bound_laws;
mod graph;
mod pacing;
mod times;

pub use bound_laws::{
    a_greedy_schedule_exists, a_greedy_schedule_is_short, a_paced_timetable_is_short,
    no_schedule_is_shorter, one_after_another_takes_the_work,
};
pub use graph::Graph;
pub use pacing::{PacedJob, paced_time};
pub use times::least_time;
