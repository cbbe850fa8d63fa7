//! Texts into which summaries of methods are pasted: when they stay accepted.

mod laws;
pub mod places;

pub use laws::{
    inferred_summaries_can_be_pasted, pasted_trees_keep_names,
    texts_with_these_summaries_are_accepted,
};
