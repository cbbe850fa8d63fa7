//! Where the evaluator goes on after some steps.

/// What comes next after some steps. A block that comes next, and how the run has ended, stand in the machine, so that the steps
/// return no more than this.
#[derive(Clone, Copy, Debug)]
pub(crate) enum Onward {
    /// The continuation frame on top.
    Below,
    /// What is left of the machine's open block, and then the continuation frame on top.
    Enter,
    /// Nothing: the run has ended as the machine says.
    End,
}
