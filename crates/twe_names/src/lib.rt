//! The resolver: a tree becomes its program, in which names are numbers, or its first failure of a rule of names.
#![tactic(auto)]

mod cells;
mod declaring;
mod decls;
mod expressions;
mod fail;
mod laws;
mod nodes;
mod numbers;
mod paths;
mod program;
mod resolver;
mod simple;
mod statements;

pub use fail::NameFail;
pub use laws::meaning_is_well_formed;
pub use resolver::resolve;
