//! What a round on a floor stands on.

use effect_tree::Shape;
use std::alloc::Global;
use twe_base::Limits;
use twe_program::Prog;

/// What a round needs: what each move of its run needs, the shape of the program's tree, and the workers with their gate.
#[derive(Drop)]
pub(crate) struct RoundSetup<'a, G> {
    /// Where memory comes from.
    pub alloc: Global,
    /// The program that is run.
    pub p: &'a Prog,
    /// Its limits, in this round.
    pub lim: Limits,
    /// The shape of its tree.
    pub shape: &'a Shape,
    /// How many workers there are.
    pub workers: u32,
    /// Where a worker passes before each segment, and which is told of each access to a cell.
    pub gate: &'a G,
}
