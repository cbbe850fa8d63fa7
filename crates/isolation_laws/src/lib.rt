//! What makes runs safe: tasks of an accepted program that may run at the same time make no conflicting accesses.
//!
//! A run is any journal that `machine_state` allows, and the rules on effects are those of `effect_check`.
//! The laws here connect the two.
#![tactic(auto)]

mod laws;
pub mod soundness;

pub use laws::{
    accepted_runs_are_isolated, beginnings_of_legal_journals_are_legal,
    children_stay_within_and_apart, states_are_fit_for_admission, tasks_keep_to_their_declarations,
    tasks_that_may_run_do_not_conflict,
};
