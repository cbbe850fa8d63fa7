//! What makes runs deterministic: the segments of a task and of the tasks below it that make conflicting accesses are in
//! the order in which sequential code would execute them, and no other task meddles with a deterministic one.
//!
//! A run is any journal that `machine_state` allows. The laws here stand on those of `isolation_laws`. `elision` defines the sequential
//! execution of a task.
//!
//! How runs end if `main` is deterministic, and how sequential executions of deterministic declarations end, stands beside it.
#![tactic(auto)]

pub mod elision;
mod endings;
mod executions;
mod finishing;
mod independence;
mod laws;
pub mod numbering;
pub mod results;
pub mod theorem;

pub use endings::{
    deterministic_runs_are_never_stuck, ended_runs_have_one_result,
    runs_of_a_faulty_main_end_with_a_fault,
};
pub use executions::{
    deterministic_executions_never_stray, results_count_the_tasks_below,
    sequential_executions_of_main_are_runs,
};
pub use finishing::{
    ended_runs_end_as_the_execution, moves_keep_runs_able_to_finish, runs_finish_if_one_does,
};
pub use independence::{other_moves_keep_the_next_segment, whole_runs_were_never_near_a_fault};
pub use laws::{
    conflicts_keep_the_elision_order, deterministic_tasks_execute_in_rank_order,
    deterministic_tasks_fork_and_join, deterministic_tasks_keep_the_elision_order,
    done_deterministic_tasks_execute_alike, done_tasks_are_executed_whole,
    orders_that_agree_on_conflicts_give_the_same_values, ranks_order_the_segments,
    rows_stay_between_segments, segments_start_from_the_frames_left,
};
