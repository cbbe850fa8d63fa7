//! Laws of texts whose tokens have the same kinds: they have the same tree, but for places. So the layout of a text keeps its tree.
#![tactic(auto)]

mod laws;

pub use laws::{
    layout_keeps_the_tree, one_layout, only_memory_stops_a_cut, same_kinds_fail_alike,
    same_kinds_same_tree,
};
