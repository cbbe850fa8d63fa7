//! Laws of a text and its layout: if the one is refused, the other is refused by the same rule, at the place of the same token.
#![tactic(auto)]

mod laws;

pub use laws::{layouts_keep_refusals, same_tokens_are_refused_alike};
