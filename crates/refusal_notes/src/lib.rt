//! What is said of a text: that it is accepted, or why it is refused, with edits that mend it.
#![tactic(auto)]

mod all_failures;
mod answering;
mod early;
mod edits;
mod effects;
mod explanation;
mod later_mends;
mod meetings;
mod mends;
mod ruled;
mod spots;
mod tokens;
mod unclosed;
mod ways;

pub use all_failures::explain_as;
pub use answering::explain_text;
