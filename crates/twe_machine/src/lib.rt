//! The sequential machine: it carries out a move, finds which moves are legal, and replays lists of moves. `machine_state` defines
//! what these are. Which move is taken next is left to the schedulers above.
#![tactic(auto)]

mod bars;
mod book;
mod enabled_tasks;
mod first_state;
mod legal;
mod listed_bars;
mod listed_moves;
mod lowest_move;
mod making;
mod new_task;
mod one_move;
mod outcomes;
mod queue;
mod queue_bars;
mod replaying;
mod running;
mod settling;
mod storing;
mod taken_joins;
mod task_end;

pub use bars::{bar, is_enabled};
pub use book::{NodeTasks, TaskBook};
pub use enabled_tasks::EnabledTasks;
pub use first_state::start;
pub use legal::may;
pub use lowest_move::{lowest, lowest_from};
pub use machine_state::{
    FirstFault, Outcome, ReplayFail, State, TaskRow, TaskStatus, Why, segment_laws,
};
pub use making::{note_child, set_future};
pub use new_task::parent_of;
pub use one_move::step;
pub use outcomes::outcome;
pub use queue::{Queue, Queued};
pub use replaying::{replay, replay_journal};
pub use running::{awaited_value, take_ready};
pub use seg_meaning::{Frame, Next, OpenBody, Position, Stop};
pub use settling::settle;
pub use storing::awaited;
