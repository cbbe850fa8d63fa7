//! Laws of trees and programs whose places are moved: they fail the same rules, each at the place that was moved.
#![tactic(auto)]

mod laws;

pub use laws::{
    effect_rules_move_with_places, name_rules_move_with_places,
    trees_mean_programs_with_their_places,
};
