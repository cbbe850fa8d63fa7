//! The rule of the floor, on which workers run segments at the same time: what holds of its words, of the frames that lie
//! in its slots and of what each worker knows, between any two atomic steps. The floor here is plain data and has no
//! threads.
//!
//! Each law takes one kind of step. Whatever the other workers did before, the step keeps the rule if the worker that takes
//! it knows enough. So the rule holds for every number of workers and every order of their steps.

mod laws;
pub mod nodes;
mod shown_laws;
mod touch_laws;
mod view;

pub use laws::{
    a_floor_starts_by_the_rule, a_seat_may_draw_one_entry, done_frames_have_values,
    entries_keep_the_rule, free_turns_can_be_taken, giving_a_turn_keeps_the_rule,
    joining_seats_keeps_the_rule, loads_find_the_values_of_the_state, open_segments_stay_apart,
    phases_say_the_truth, quiet_floors_show_the_state, segments_may_make_their_accesses,
    splitting_a_seat_keeps_the_rule, stores_keep_the_rule, storing_a_phase_keeps_the_rule,
};
pub use shown_laws::{journals_show_the_first_fault, slots_and_phases_show_the_rows};
pub use touch_laws::loads_find_what_was_touched_last;
pub use view::{DoneFact, HeldTurn, OpenSegment, Phase, TaskSlot, Touch};
