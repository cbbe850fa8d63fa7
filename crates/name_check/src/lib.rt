//! The rules of names: the binding of a name at a place of a text, and where a tree fails one of the rules.
//!
//! A tree that fails none of them has a meaning, which the crate above gives. How a text becomes a tree is left to the
//! crates of the text.
#![tactic(auto)]

mod binding;
mod body_scope;
pub mod cell_limits;
mod check_body;
mod check_decl;
mod check_expr;
mod check_path;
mod check_simple;
mod declared;
mod ends;
mod firsts;
mod limits;
mod look;
mod names;
mod rule;
mod scope;
mod types;
mod uses;
mod whole;

pub use binding::{Binding, Global, Local, NameUse};
pub use check_simple::is_void;
pub use limits::{
    cell_element_over_limit, element_over_limit, is_star, parameter_over_limit, second_star,
};
pub use look::look_up;
pub use names::{GlobalName, Globals};
pub use rule::NRule;
pub use scope::{BodyScope, LocalName, Locals};
pub use types::{
    are_numbers, binary_type, call_type, element_type, is_type, left_need, name_type, right_need,
    unary_type,
};
pub use whole::{CheckedNames, check_names, first_failure};
