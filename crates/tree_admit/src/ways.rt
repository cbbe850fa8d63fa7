//! Ways through the effect tree: which node comes next on the way down to a place, and what lies below a place. The crates above
//! lock the nodes of a way, and put records at its end.

mod laws;
mod reach;
mod way;
mod wild;

pub use laws::{room_below_shrinks, siblings_lie_apart, the_test_of_effects_is_safe};
pub(crate) use reach::has_children;
pub use reach::reached_below;
pub use way::next_toward;
pub use wild::is_solid;
