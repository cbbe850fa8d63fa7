//! What holds on the floor, on which workers run segments at the same time: what admission asks for, the rule of the floor between any
//! two atomic steps, and the floor as one table of atomic words. All of it is laws and the types that they speak of; no code here runs.
#![tactic(auto)]

pub mod admission;
pub mod rule;
pub mod table;
