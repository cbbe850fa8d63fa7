//! Why a text is refused, as data: what the rule that fails needs at its place, and what is there.
//!
//! Each failure of a rule on effects has a cause, which comes with a clause that it is true of the text. The causes of the rules
//! of the text are in `text_rules`.
//!
//! Control paths are witnesses of causes that speak of a future: one to a point of a body after which it is out, or one after
//! which it is not, by the places of what the path carries out. Which futures may be out is `cover_flow`'s.
#![tactic(auto)]

mod alone;
mod answer;
mod barring;
mod cause;
mod explained;
mod found;
mod group;
mod laws;
mod listing;
mod needing;
mod next_tokens;
mod ordering;
mod places;
mod reaching;
mod searching;
mod showing;
pub mod text_rules;
mod tracing;
mod way;
mod ways;

pub use answer::way_to;
pub use cause::RuleCause;
pub use explained::{Explained, explain};
pub use found::CausedFailure;
pub use laws::trails_are_control_paths;
pub use listing::all_causes;
pub use next_tokens::{NextToken, NextTokens, is_of_end};
pub use places::{Four, KeptPlaces};
pub use way::{Begins, ControlWay};
