//! The tree and the program of a text, whatever the rules on effects say of it, and texts of its paths and effects.

mod effect_text;
mod path_text;
mod read;

pub use effect_text::{push_effect, push_effects};
pub use path_text::{push_parameter, push_path, push_starred_path};
pub use read::{Meaning, read_meaning};
