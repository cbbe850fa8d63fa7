//! The cause of a failure.

use crate::way::ControlWay;
use effect_sets::{Effect, Summary};
use twe_base::Place;

/// Why a rule fails at its place.
#[derive(Debug, Drop)]
pub enum RuleCause {
    /// An effect is needed that no declared one includes.
    Undeclared {
        /// The effect that is needed.
        need: Effect,
        /// The effects that the task or the method declares.
        declared: Summary,
        /// The place of the name of the task or the method.
        decl_place: Place,
    },
    /// An effect is needed that interferes with one that a spawned task has, whose future may be out.
    Out {
        /// The effect that is needed.
        need: Effect,
        /// The effect that the spawned task has.
        other: Effect,
        /// The place of the future's name, where the task is spawned.
        future_place: Place,
        /// A way on which the future is out, if ways are wanted.
        way: Option<ControlWay>,
        /// The place of the name of the task that needs the effect.
        decl_place: Place,
    },
    /// On some control path to a join its future is not out.
    NotOut {
        /// The place of the future's name, where its task is made. `None` says that it is made nowhere.
        future_place: Option<Place>,
        /// A way on which the future is not out, if ways are wanted.
        way: Option<ControlWay>,
    },
    /// On some control path to a spawn its future is out already.
    OutAgain {
        /// A way on which the future is out, if ways are wanted.
        way: Option<ControlWay>,
    },
    /// A deterministic task does something whose order is open.
    OrderOpen {
        /// Whether it makes a task by `executeLater`, and does not wait for one by `getValue`.
        makes: bool,
        /// The place of the name of the deterministic task.
        decl_place: Place,
    },
    /// A deterministic task spawns one that was not declared deterministic.
    NotDeterministic {
        /// The place of the name of the deterministic task.
        decl_place: Place,
    },
}
