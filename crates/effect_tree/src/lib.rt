//! The effect tree of a program: one node for each place where cells lie, and for each path the deepest node above
//! everything that it stands for.
//!
//! If two paths have a region in common, the place of one of them is above that of the other. So whoever goes down the
//! tree to the place of a path meets everything that is placed above it. What tasks put at the nodes is left to the
//! crates above.
#![tactic(auto)]

mod children;
mod growth;
mod laws;
mod parts;
mod shape;
#[cfg(test)]
mod tests;

pub use laws::{
    a_place_is_one, an_inner_path_is_placed_below, meeting_paths_are_placed_above_one_another,
    what_meets_a_solid_path_is_placed_above,
};
pub use shape::Shape;
