//! The sequential scheduler: at each step it takes the move of the lowest-numbered task that has a legal move. If a
//! run is stuck, the cycle of tasks that keep one another from going on says why.
#![tactic(auto)]

mod books;
mod ending;
mod groups;
mod held;
mod laws;
mod lists;
mod looking;
mod lookout;
mod lowest_run;
mod noting;
mod passing;
mod ready;
mod stuck;

pub use ending::{RunEnd, WholeRun, run_end};
pub use held::held_by;
pub use laws::{one_stuck_cycle, stuck_cycles_have_true_edges};
pub use lookout::Lookout;
pub use lowest_run::{run_lowest, run_lowest_while};
pub use passing::is_made;
pub use stuck::stuck_cycle;
pub use twe_machine::lowest;
