//! The floor as one table of atomic words and slots: where each word lies, what its number means, and the rule of the floor
//! as a rule of the table. Each law says that one atomic step of a seat keeps that rule, whatever the table is when the
//! step happens. It is what `atomic_table` asks of whoever calls that step.

mod brand;
mod kept_slot;
mod laws;
pub mod nodes;
mod quiet_laws;
mod rule;
mod view;

pub use kept_slot::{KeptSlot, SlotRoom};
pub use laws::{
    a_cell_may_be_loaded, a_cell_may_be_stored, a_closed_table_shows_the_state,
    a_phase_may_be_loaded, a_phase_may_be_stored, a_seat_may_be_split, a_table_may_be_opened,
    a_turn_may_be_given, a_turn_may_be_tried, an_entry_may_be_drawn, seats_may_be_joined,
};
pub use quiet_laws::a_closed_table_shows_the_rest;
pub use rule::Named;
pub use view::{SeatKind, TurnChange, View};
