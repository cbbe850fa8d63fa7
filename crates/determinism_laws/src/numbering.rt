//! Laws of the numbers of tasks: segments do the same whatever the numbers of the tasks are.

mod laws;
mod played;

pub use laws::{
    frames_keep_their_numbers, segments_do_not_see_numbers, segments_do_the_same_on_what_they_read,
};
pub use played::{lists_give_numberings, what_was_played_is_elided};
