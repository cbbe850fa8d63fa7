//! The rule on nodes: what holds of the locks of the tree's nodes, of the records that lie at them and of what each worker
//! knows of them, between any two atomic steps. The nodes here are plain data, beside those of the floor, and there are no
//! threads.
//!
//! Each step on a node is one event of the core of admission, whatever the other workers did before. So what the core
//! promises holds for every number of workers: a task all of whose records stand may be admitted.

mod fact_laws;
mod floor_laws;
mod lock_laws;
mod record_laws;
mod start_laws;
mod taking_laws;

pub use fact_laws::{
    a_node_has_what_its_worker_has_placed, a_placed_task_is_legal_to_admit,
    following_a_wait_keeps_the_rule, not_finding_a_record_keeps_the_rule,
    records_stand_at_their_places, what_is_in_the_way_forbids_the_admission,
};
pub use floor_laws::{
    admissions_keep_the_rules, cells_and_phases_leave_the_nodes, entries_keep_the_nodes,
    giving_a_first_turn_keeps_the_nodes, giving_a_turn_keeps_the_nodes, seats_keep_the_nodes,
    taking_a_turn_keeps_the_nodes, the_next_task_has_no_record,
};
pub use lock_laws::{
    a_bare_node_may_be_passed_by, a_finished_node_may_be_unlocked, a_node_below_may_be_locked,
    a_node_may_be_given_back, a_node_on_the_way_may_be_locked, a_parent_may_be_unlocked,
    an_activity_may_end, an_activity_may_stop, the_root_may_be_locked,
};
pub use record_laws::{
    a_childs_record_may_be_placed, a_record_may_be_placed, a_record_may_be_removed,
};
pub use start_laws::{
    nodes_start_by_the_rule, nodes_wake_by_the_rule, quiet_nodes_show_the_enabled_tasks,
};
pub use taking_laws::{a_turn_may_be_given_as_it_was_taken, taking_a_turn_tells_of_the_nodes};
