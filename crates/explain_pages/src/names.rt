//! What each rule says, for people; and what is said of a rule of names that fails: what is needed at its place and what is
//! there, and where the name is declared.

mod declared;
mod named;
mod needed;
mod sentences;
mod variables;

pub use declared::stands_before;
pub use named::named_explanation;
pub use needed::push_most;
pub use sentences::{asked, wrong};
pub use variables::{VariableNames, is_same_place, variables_at};
