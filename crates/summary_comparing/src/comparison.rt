//! How a declaration compares with what it needs.

use effect_sets::Effects;

/// What a method or a task declares, beside what it needs.
#[derive(Debug, Drop)]
pub enum Comparison {
    /// Each declared effect is needed, and is within what is needed.
    Exact,
    /// What it declares is wider than what it needs.
    Wider {
        /// The effects that it declares, in the order of the text.
        declares: Effects,
        /// The effects that its body needs and that no other such effect covers.
        needed: Effects,
        /// The same of what its spawned children declare.
        children: Effects,
        /// The declared effects that nothing needs.
        idle: Effects,
    },
    /// Its body needs more than 8 effects that no other covers, or its spawned children do.
    TooMany,
}
