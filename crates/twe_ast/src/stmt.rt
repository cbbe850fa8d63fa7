//! Statements and blocks. Contracts see a block as `Statements`, which end with the place of the closing brace.

use crate::expr::{Args, Expr};
use crate::name::Name;
use std::marker::Model;
use twe_base::Place;

/// A statement.
#[cycle(stmt)]
#[derive(Debug, Drop)]
pub struct Stmt {
    /// The kind of the statement, with its parts.
    pub kind: StmtKind,
}

/// A block: its statements, in order, and the place of its closing brace.
#[cycle(stmt)]
#[derive(Debug, Drop)]
pub struct Block {
    /// The statements.
    pub stmts: Vec<Stmt>,
    /// The place of the closing brace.
    pub close: Place,
}

/// One arm of an `if`.
#[cycle(stmt)]
#[derive(Debug, Drop)]
pub struct Arm {
    /// The condition.
    pub condition: Expr,
    /// The block that runs if the condition is true.
    pub body: Block,
}

/// The arms of an `if`: the first, one for each `else if`, and the last `else`.
#[cycle(stmt)]
#[derive(Debug, Drop)]
pub struct Arms {
    /// The arms that have a condition, in order; at least one.
    pub arms: Vec<Arm>,
    /// The block of the last `else`, if there is one.
    pub last: Option<Block>,
}

/// The declared type of a local.
#[derive(Clone, Copy, Debug, PartialEq, Eq)]
pub enum LocalType {
    /// `int`
    Int,
    /// `boolean`
    Boolean,
}

/// A wait for a task: `f.getValue()` or `f.join()`.
#[derive(Debug, Drop)]
pub struct WaitCall {
    /// The name of the future.
    pub future: Name,
    /// Whether it is `join` rather than `getValue`.
    pub join: bool,
}

/// The kind of a statement, with its parts.
#[cycle(stmt)]
#[derive(Debug, Drop)]
pub enum StmtKind {
    /// A block.
    Block(Block),
    /// The declaration of a local by an expression.
    Let {
        /// Whether it is `final`.
        is_final: bool,
        /// The type.
        local_type: LocalType,
        /// The name.
        name: Name,
        /// The initial value.
        value: Expr,
    },
    /// The assignment to a local or to a cell.
    Set {
        /// The name.
        name: Name,
        /// The value.
        value: Expr,
    },
    /// The assignment to an element of an array or of a grid.
    SetAt {
        /// The name of the array or grid.
        array: Name,
        /// The index, or the row.
        index: Expr,
        /// The column, if it is an element of a grid.
        second: Option<Expr>,
        /// The value.
        value: Expr,
    },
    /// An `if`.
    If(Arms),
    /// A `while`.
    While {
        /// The place of the word `while`.
        place: Place,
        /// The condition.
        condition: Expr,
        /// The block.
        body: Block,
    },
    /// A `return`.
    Return {
        /// The place of the word `return`.
        place: Place,
        /// The value, if there is one.
        value: Option<Expr>,
    },
    /// A `print`.
    Print {
        /// The place of the word `print`.
        place: Place,
        /// The number.
        value: Expr,
    },
    /// The call of a method.
    Call {
        /// The name of the method.
        method: Name,
        /// The arguments.
        args: Args,
    },
    /// The declaration of a future, which makes a task.
    Make {
        /// The name of the future.
        future: Name,
        /// The name of the task.
        task: Name,
        /// Whether the task is made by `spawn` rather than `executeLater`.
        spawned: bool,
        /// The arguments.
        args: Args,
    },
    /// A wait for a task whose value is not used.
    Wait(WaitCall),
    /// The declaration of an `int` local whose initial value is that of a task.
    LetWait {
        /// Whether it is `final`.
        is_final: bool,
        /// The name of the local.
        name: Name,
        /// The wait.
        wait: WaitCall,
    },
}

impl Model for Stmt {
    ghost use Rattle.twe_ast.specs.Statement.{Statement};
    ghost use Rattle.twe_ast.specs.inner.StatementCode.{statement_code};
    ghost use Rattle.twe_ast.specs.inner.StatementSize.{depth};

    ghost Value = { Statement };

    ghost coded = { statement_code };

    ghost use Rattle.twe_ast.specs.inner.StatementView.{statement_of};

    ghost view = { λ s. statement_of s.kind };

    ghost size = { depth };
}

impl Model for Block {
    ghost use Rattle.twe_ast.specs.Statement.{Statements};
    ghost use Rattle.twe_ast.specs.inner.StatementCode.{statements_code};
    ghost use Rattle.twe_ast.specs.inner.StatementSize.{depth_of_all};

    ghost Value = { Statements };

    ghost coded = { statements_code };

    ghost use Rattle.twe_ast.specs.inner.StatementView.{statements_of};

    ghost view = { λ block. statements_of block.stmts.items block.close };

    ghost size = { depth_of_all };

    ghost use Rattle.std.proofs.Common.{arith};
    ghost use Rattle.twe_ast.specs.inner.StatementsSize.{most_deep};

    ghost size_decreases = { λ block h. Prim.omega (arith, most_deep block.stmts.items block.close) };
}

impl Model for Arms {
    ghost use Rattle.twe_ast.specs.Statement.{Arms as Choice};
    ghost use Rattle.twe_ast.specs.inner.StatementCode.{arms_code};
    ghost use Rattle.twe_ast.specs.inner.StatementSize.{depth_of_arms};

    ghost Value = { Choice };

    ghost coded = { arms_code };

    ghost use Rattle.twe_ast.specs.inner.StatementView.{arms_of};

    ghost view = { λ a. arms_of a.arms.items a.last };

    ghost size = { depth_of_arms };

    ghost use Rattle.twe_ast.specs.inner.ArmsSize.{less_deep};

    ghost size_decreases = { λ a h. less_deep a };
}
