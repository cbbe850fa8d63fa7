//! Statements. Contracts see a statement as a `Statement`, a plain tree.

use crate::expr::{Args, Expr};
use std::marker::Model;
use twe_base::Place;

/// A statement.
#[cycle(stmt)]
#[derive(Debug, Drop)]
pub struct Stmt {
    /// The number of the point just before the statement.
    pub point: u32,
    /// What the statement is.
    pub kind: StmtKind,
}

/// The statements of a block, in order.
#[cycle(stmt)]
#[derive(Debug, Drop)]
pub struct Block {
    /// The statements.
    pub stmts: Vec<Stmt>,
}

/// One arm of an `if`.
#[cycle(stmt)]
#[derive(Debug, Drop)]
pub struct Arm {
    /// The condition.
    pub condition: Expr,
    /// The statements that run if this is the first condition that is true.
    pub body: Block,
}

/// The arms of an `if`, in order.
#[cycle(stmt)]
#[derive(Debug, Drop)]
pub struct Arms {
    /// The arms with a condition.
    pub arms: Vec<Arm>,
    /// The last `else`, if there is one.
    pub last: Option<Block>,
}

/// What a statement is.
#[cycle(stmt)]
#[derive(Debug, Drop)]
pub enum StmtKind {
    /// A block.
    Block(Block),
    /// The declaration of a local with its initial value.
    Let {
        /// The number of the local.
        var: u32,
        /// The value.
        value: Expr,
    },
    /// The assignment of a value to a local.
    Set {
        /// The number of the local.
        var: u32,
        /// The value.
        value: Expr,
    },
    /// The assignment of a value to a cell.
    SetCell {
        /// The number of the cell's declaration.
        cell: u32,
        /// The value.
        value: Expr,
        /// The place of the cell's name.
        place: Place,
    },
    /// The assignment of a value to an element of an array or a grid.
    SetAt {
        /// The number of the declaration of the array or the grid.
        array: u32,
        /// The index, or the row.
        index: Expr,
        /// The column, for a grid.
        second: Option<Expr>,
        /// The value.
        value: Expr,
        /// The place of the array's name.
        place: Place,
    },
    /// An `if`.
    If(Arms),
    /// A loop.
    While {
        /// The condition, which is tested before each iteration.
        condition: Expr,
        /// The body of the loop.
        body: Block,
        /// The place of the word `while`.
        place: Place,
    },
    /// A `return`, with its value if it has one.
    Return(Option<Expr>),
    /// The printing of a number.
    Print {
        /// The number.
        value: Expr,
        /// The place of the word `print`.
        place: Place,
    },
    /// The call of a method. Its value, if it has one, is dropped.
    Call {
        /// The number of the method.
        method: u32,
        /// The arguments.
        args: Args,
        /// The place of the method's name.
        place: Place,
    },
    /// The making of a task.
    Make {
        /// The number of the future that holds the task.
        future: u32,
        /// The number of the task's declaration.
        task: u32,
        /// The arguments.
        args: Args,
        /// Whether it is a `spawn`. If not, it is an `executeLater`.
        spawned: bool,
        /// The place of the future's name.
        future_place: Place,
        /// The place of the task's name.
        place: Place,
    },
    /// The wait for a task.
    Wait {
        /// The number of the future that holds the task.
        future: u32,
        /// Whether it is a `join`. If not, it is a `getValue`.
        join: bool,
        /// The local that takes the task's value, if there is one.
        into: Option<u32>,
        /// The place of the future's name.
        place: Place,
    },
}

impl Model for Stmt {
    ghost use Rattle.twe_program.specs.Statement.{Statement};
    ghost use Rattle.twe_program.specs.inner.StatementCode.{statement_code};
    ghost use Rattle.twe_program.specs.inner.StatementSize.{depth};

    ghost Value = { Statement };

    ghost coded = { statement_code };

    ghost use Rattle.twe_program.specs.inner.StatementView.{statement_of};

    ghost view = { λ s. statement_of s.point s.kind };

    ghost size = { depth };
}

impl Model for Block {
    ghost use Rattle.twe_program.specs.Statement.{Statements, statements_of};
    ghost use Rattle.twe_program.specs.inner.StatementCode.{statements_code};
    ghost use Rattle.twe_program.specs.inner.StatementSize.{depth_of_all};

    ghost Value = { Statements };

    ghost coded = { statements_code };

    ghost view = { λ block. statements_of block.stmts.items };

    ghost size = { depth_of_all };

    ghost use Rattle.std.proofs.Common.{arith};
    ghost use Rattle.twe_program.specs.inner.StatementsSize.{most_deep};

    ghost size_decreases = { λ block h. Prim.omega (arith, most_deep block.stmts.items) };
}

impl Model for Arms {
    ghost use Rattle.twe_program.specs.Statement.{Arms as Choice};
    ghost use Rattle.twe_program.specs.inner.StatementCode.{arms_code};
    ghost use Rattle.twe_program.specs.inner.StatementSize.{depth_of_arms};

    ghost Value = { Choice };

    ghost coded = { arms_code };

    ghost use Rattle.twe_program.specs.inner.StatementView.{arms_of};

    ghost view = { λ a. arms_of a.arms.items a.last };

    ghost size = { depth_of_arms };

    ghost use Rattle.twe_program.specs.inner.ArmsSize.{less_deep};

    ghost size_decreases = { λ a h. less_deep a };
}
