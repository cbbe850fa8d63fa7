//! What is said of places of a text: notes at places, the word at a place, and how the line of a place is shown to people.

mod excerpt;
mod note;
mod word;

pub use excerpt::{push_excerpt, push_shown};
pub use note::{Explanation, Note};
pub use word::word_at;
