//! Who waits for whom among tasks, who yields to whom, and the cycle in which stuck tasks hold one another up.
//!
//! A task waits for the task whose value or end it asks for next, and a spawned task has the task that spawned it as
//! its parent. This crate keeps these links alone. The machine above decides when a task may be admitted or run, and
//! who holds whom. It also keeps the links in step with its tasks: it sets a wait if a task's next operation is one,
//! and removes the wait when a task ends.
#![tactic(auto)]

mod chains;
mod graph;
mod laws;
mod stuck;
mod tasks;
mod walk;

pub use graph::Links;
pub use laws::{
    a_chain_goes_on_by_a_wait, a_done_task_is_not_waited_for,
    a_done_task_that_waited_for_nobody_ends_no_other_chain, a_stuck_cycle_goes_round,
    a_task_without_children_is_no_ancestor, a_wait_set_where_none_was_keeps_chains, adding_a_task,
    an_added_task, chains_are_ordered, chains_compose, chains_do_not_fork, setting_a_task_done,
    setting_a_task_joined, setting_a_wait, waiting_for_nobody, yielding_follows_chains,
};
pub use stuck::{Cycle, Edge};
pub use tasks::Link;
