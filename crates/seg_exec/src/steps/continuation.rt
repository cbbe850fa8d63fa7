//! Continuation frames: what the evaluator still has to do, one frame for each thing.
ghost use Rattle.std.specs.Prelude.{◌≡◌, ℤ, List};
ghost use Rattle.seg_meaning.specs.declared.active.ActiveCall.{ActiveCall};
ghost use Rattle.seg_exec.specs.inner.steps.Calls.{calls_above, calls_with};
ghost use Rattle.seg_exec.specs.inner.steps.Continuations as continuations;
ghost use Rattle.seg_exec.specs.inner.steps.Steps.{recovered_from};
ghost use Rattle.seg_exec.specs.inner.steps.Views.{callers_below, callers_past, calls_past, continuation_of, recovery_of};
ghost use Rattle.seg_exec.specs.inner.steps.Views.{returning_below, returning_past};

use crate::steps::held::Held;
use seg_meaning::{ActiveCall, Operation, Position};
use twe_base::{Ints, Place, Stack};
use twe_program::{Arm, BinOp, Block, Expr, Stmt};

/// What arguments are evaluated for.
#[derive(Clone, Copy, Debug)]
pub(crate) enum Goal {
    /// A method is called.
    Enter {
        /// The number of the method.
        method: u32,
        /// The place of its name.
        place: Place,
    },
    /// A task is made.
    Make {
        /// The number of the future that is to stand for it.
        future: u32,
        /// The number of the task's declaration.
        task: u32,
        /// Whether it is made by `spawn` rather than by `executeLater`.
        spawned: bool,
        /// The place of the task's name.
        place: Place,
    },
}

/// Arguments of which some have values.
#[derive(Debug, Drop)]
pub(crate) struct Gathering<'a> {
    /// The values of the first arguments.
    pub(crate) taken: Ints,
    /// The arguments after them, or after the one whose value is the latest.
    pub(crate) args: &'a [Expr],
    /// What they are for.
    pub(crate) goal: Goal,
}

/// A stop at a task operation.
#[derive(Debug, Drop)]
pub(crate) struct Suspension {
    /// The operation.
    pub(crate) operation: Operation,
    /// The positions of the blocks that are closed already, the outermost on top.
    pub(crate) positions: Stack<Position>,
}

/// What is done with the latest value of the operand stack.
#[derive(Clone, Copy, Debug)]
pub(crate) enum ValueUse<'a> {
    /// Execute the body of an arm if it is true, and try the arms after it otherwise.
    Chosen {
        /// The number of the arm.
        block: usize,
        /// The number of the next arm.
        next: usize,
        /// Its body.
        body: &'a Block,
        /// The arms that have a condition.
        arms: &'a [Arm],
        /// The block of the last `else`, if there is one.
        last: &'a Option<Block>,
    },
    /// Make a turn of a loop if it is true, and end the loop otherwise.
    Turn {
        /// The loop.
        again: &'a Stmt,
        /// Its body.
        body: &'a Block,
        /// The place of the word `while`.
        place: Place,
    },
    /// Compute the negative of a number.
    Negate,
    /// Compute the negation of a truth value.
    Invert,
    /// Evaluate the right operand, unless the value of the left one decides.
    Right {
        /// The operator.
        op: BinOp,
        /// The right operand.
        right: &'a Expr,
        /// The place of the operator.
        place: Place,
    },
    /// Apply an operator to two values.
    Apply {
        /// The operator.
        op: BinOp,
        /// Its place.
        place: Place,
    },
    /// Read an element of an array, whose index is the latest value.
    ReadElement {
        /// The number of the array's declaration.
        array: u32,
        /// The place of its name.
        place: Place,
    },
    /// Read an element of a grid, whose row and column are the two latest values.
    ReadGridElement {
        /// The number of the grid's declaration.
        array: u32,
        /// The place of its name.
        place: Place,
    },
    /// Assign the latest value to a variable.
    GiveVar(u32),
    /// Assign the latest value to a cell.
    GiveCell(u32),
    /// Assign the latest value to an element of an array.
    GiveElement {
        /// The number of the array's declaration.
        array: u32,
        /// The place of its name.
        place: Place,
    },
    /// Assign the latest value to an element of a grid.
    GiveGridElement {
        /// The number of the grid's declaration.
        array: u32,
        /// The place of its name.
        place: Place,
    },
    /// Print the latest value.
    PrintValue(Place),
    /// Drop the latest value.
    Discard,
    /// Return the latest value from the body.
    Unwind,
}

/// A continuation frame: one thing that is still to be done. Each value is pushed onto the operand stack.
#[derive(Debug, Drop)]
pub(crate) enum Continuation<'a> {
    /// Evaluate an expression.
    Evaluate(&'a Expr),
    /// Execute a statement.
    Execute(&'a Stmt),
    /// Execute the statements of a block from the one at `at` on.
    Rest {
        /// The number of the block.
        block: usize,
        /// The index of the next statement in the block.
        at: usize,
        /// The statements of the block.
        stmts: &'a [Stmt],
    },
    /// Try the arms of an `if` from the one numbered `block` on.
    Choose {
        /// The number of the next arm.
        block: usize,
        /// The arms that have a condition.
        arms: &'a [Arm],
        /// The block of the last `else`, if there is one.
        last: &'a Option<Block>,
    },
    /// Use the latest value.
    UseValue(ValueUse<'a>),
    /// Evaluate the right operand, unless the value of the left one decides, and return the value of the operator from the body.
    RightThenReturn {
        /// The operator.
        op: BinOp,
        /// The right operand.
        right: &'a Expr,
        /// The place of the operator.
        place: Place,
    },
    /// Apply an operator to two values, and return its value from the body.
    ApplyThenReturn {
        /// The operator.
        op: BinOp,
        /// Its place.
        place: Place,
    },
    /// Evaluate the arguments that have no value yet.
    Gather(Box<Gathering<'a>>),
    /// Use the value of an argument, then evaluate those after it.
    Take(Box<Gathering<'a>>),
    /// Stop the segment at a task operation.
    Suspend(Held),
    /// Return 0 from a method to its caller.
    Leave {
        /// How many variables the caller has, the last of those of the callers.
        count: usize,
        /// The active call of the method.
        call: ActiveCall,
    },
}

/// What is left of a block.
#[derive(Clone, Copy, Debug)]
pub(crate) struct OpenBlock<'a> {
    /// The number of the block.
    pub(crate) block: usize,
    /// The index of the next statement in the block.
    pub(crate) at: usize,
    /// The statements of the block.
    pub(crate) stmts: &'a [Stmt],
}

/// What unwinding recovers from a continuation frame.
#[derive(Debug, Drop)]
pub(crate) enum Recovered {
    /// The caller of a method.
    Caller {
        /// How many variables it has.
        count: usize,
        /// The call, which is active no more.
        call: ActiveCall,
    },
    /// The position of an open block.
    Block(Position),
    /// A return from the body, which was to come next.
    Return,
    /// Nothing.
    Nothing,
}

impl Continuation<'_> {
    /// The active call that this frame leaves, if it leaves one.
    #[inline(always)]
    pub(crate) fn call(&self) -> Option<ActiveCall>
        ensures { (calls : List ActiveCall) → calls_with result calls ≡ calls_above self.now calls }
    {
        match self {
            Continuation::Leave { call, .. } => Some(*call),
            Continuation::Evaluate(_) => None,
            Continuation::Execute(_) => None,
            Continuation::Rest { .. } => None,
            Continuation::Choose { .. } => None,
            Continuation::UseValue(_) => None,
            Continuation::RightThenReturn { .. } => None,
            Continuation::ApplyThenReturn { .. } => None,
            Continuation::Gather(_) => None,
            Continuation::Take(_) => None,
            Continuation::Suspend(_) => None,
        }
    }

    /// What unwinding recovers from this frame.
    #[inline(always)]
    pub(crate) fn recovered(self) -> Recovered
        ensures recovery { (callers : List ℤ) → recovery_of callers result ≡ recovered_from (continuation_of callers self.entry) }
        ensures returning { (others : List continuations.Continuation)
            → returning_past result others ≡ returning_below self.entry others }
        ensures callers { (callers : List ℤ) → callers_past result callers ≡ callers_below self.entry callers }
        ensures calls { (calls : List ActiveCall) → calls_past result calls ≡ calls_above self.entry calls }
    {
        match self {
            Continuation::Leave { count, call } => Recovered::Caller { count, call },
            Continuation::Rest { block, at, .. } => Recovered::Block(Position { block, after: at }),
            Continuation::Evaluate(_) => Recovered::Nothing,
            Continuation::Execute(_) => Recovered::Nothing,
            Continuation::Choose { .. } => Recovered::Nothing,
            Continuation::UseValue(_) => Recovered::Nothing,
            Continuation::RightThenReturn { .. } => Recovered::Return,
            Continuation::ApplyThenReturn { .. } => Recovered::Return,
            Continuation::Gather(_) => Recovered::Nothing,
            Continuation::Take(_) => Recovered::Nothing,
            Continuation::Suspend(_) => Recovered::Nothing,
        }
    }
}
