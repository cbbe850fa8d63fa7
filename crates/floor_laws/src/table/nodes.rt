//! The floor with the nodes of the tree as one table of atomic words and slots: where each word and slot lies, and the rules of
//! the floor and of the nodes as a rule of the table. Each law says that one atomic step of a seat keeps that rule, whatever the
//! table is when the step happens. It is what `atomic_table` asks of whoever calls that step.

mod activity;
mod brand;
mod content;
mod content_laws;
mod entry_laws;
mod floor_laws;
mod follow_laws;
mod lock_laws;
mod quiet_laws;
mod record;
mod record_laws;
mod rule;
mod same_effect;
mod seat_laws;
mod slot;
mod start_laws;
mod turn_laws;
mod view;

pub use activity::NodeActivity;
pub use content::NodeContent;
pub use content_laws::what_is_found_is_there;
pub use entry_laws::{an_admission_may_be_drawn, an_entry_may_be_drawn_beside_nodes};
pub use floor_laws::{
    a_cell_may_be_loaded_beside_nodes, a_cell_may_be_stored_beside_nodes,
    a_phase_may_be_stored_beside_nodes,
};
pub use follow_laws::a_wait_may_be_followed;
pub use lock_laws::{
    a_lock_may_be_tried, a_node_may_be_left, a_node_may_be_passed_by, a_seat_may_stop,
};
pub use quiet_laws::a_closed_tree_table_shows_the_rest;
pub use record::{KnownWait, NodeRecord};
pub use record_laws::{
    a_decider_may_be_looked_up, a_node_may_be_marked_clear,
    a_record_beyond_the_tasks_may_be_marked_placed, a_record_may_be_marked_placed,
    a_record_may_be_marked_removed, the_others_are_left,
};
pub use rule::{
    BothTreeSeats, DrawAdmission, DrawTreeEntry, FollowWait, GiveTreeTurn, GoOn, LoadTreeCell,
    LookUpDecider, MarkClear, MarkPlaced, MarkRemoved, NextTreeSeat, PassNode, Planted, StopAt,
    StoreTreeCell, StoreTreePhase, TreeLaw, TreeStart, TryNode, TryTreeTurn,
};
pub use seat_laws::{a_tree_seat_may_be_split, tree_seats_may_be_joined};
pub use slot::{Errand, ErrandKind, TreeSlot};
pub use start_laws::a_tree_table_may_be_opened;
pub use turn_laws::{
    a_taken_turn_may_be_given_again, a_turn_may_be_given_beside_nodes,
    a_turn_may_be_tried_beside_nodes,
};
pub use view::{ContentChange, Look, TreeView};
