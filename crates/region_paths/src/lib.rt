//! Paths of regions as programs write them. `specs/` defines the set of concrete paths of a written path. The code has
//! the two tests on written paths: whether one is inside another, and whether two are apart.
#![tactic(auto)]

mod disjointness;
mod elements;
mod inclusion;
mod laws;
mod paths;

pub use disjointness::disjoint;
pub use elements::{Elem, Elems};
pub use inclusion::{elements_are_within, includes, is_within};
pub use laws::{
    apart_is_sound, filled_tests_are_exact, filling_is_sound, filling_with_numbers_is_a_valuation,
    inside_is_sound,
};
pub use paths::{Path, fill_one};
