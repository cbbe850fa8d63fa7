//! What methods and tasks declare beside what they need.
//!
//! A body needs what it reads and writes, what the methods need that it calls, and what the tasks declare that it spawns. A
//! declared summary is compared with the widest of these needs: it may have effects that nothing needs, and effects that
//! could be smaller.
//!
//! To what a method needs leads a chain of calls, and then an access. The search for it goes from the method through the methods
//! that it calls, with what their parameters stand for there, until an access stands for the need. Only values that the need has
//! are told apart, so that each method comes up in few states.
#![tactic(auto)]

mod bodies;
mod chain;
mod chain_laws;
mod chain_lines;
mod comparing;
mod comparison;
mod counted;
mod covering;
mod differing;
mod effect_order;
mod explaining;
mod first_calls;
mod laws;
mod lines;
mod named;
mod needed;
mod said;
mod said_match;
mod same_effect;
mod search;
mod seen;
mod sources;
mod spawned;
mod standing;
mod states;
mod walk;
mod widest;

pub use bodies::{Bodies, BodySteps, Places, bodies_of, body_of};
pub use chain::NeedChain;
pub use chain_laws::{chains_lead_to_needs, steps_are_at_their_places};
pub use comparison::Comparison;
pub use explaining::explain_lines;
pub use laws::idle_effects_can_be_left_out;
pub use lines::{CompareLines, compare_lines};
pub use search::find_chain;
