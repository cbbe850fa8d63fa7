//! The layout of a text: what stands between each two of its tokens and comments.
//!
//! It is a function of the pieces of the text. A text that was laid out stays as it is if it is laid out again.
#![tactic(auto)]

mod classes;
mod fitting;
mod format;
mod gap;
mod laws;
mod state;
mod writing;

pub use format::lay_out;
pub use gap::Gap;
pub use laws::{layout_stays, pieces_stay};
pub use state::LayoutState;
pub use writing::layout_text;
