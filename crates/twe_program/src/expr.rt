//! Expressions. Contracts see an expression as an `Expression`, a plain tree.
ghost use Rattle.std.specs.Prelude.{◌≡◌, IfOk};
ghost use Rattle.twe_program.specs.Expression.{Literal, CellValue, Binary, is_plain};
ghost use Rattle.twe_program.specs.inner.ExpressionView.{expression_of};

use std::alloc::Global;
use std::marker::Model;
use twe_ast::BinOp;
use twe_base::{Memory, Place};

/// An expression.
#[cycle(expr)]
#[derive(Debug, Drop)]
pub struct Expr {
    /// What the expression is.
    pub kind: ExprKind,
    // Whether it calls no method.
    plain: bool,
}

/// The arguments of a call, from left to right.
#[cycle(expr)]
#[derive(Debug, Drop)]
pub struct Args {
    /// The expressions.
    pub items: Vec<Expr>,
}

/// What an expression is.
#[cycle(expr)]
#[derive(Debug, Drop)]
pub enum ExprKind {
    /// An integer literal.
    Lit(i32),
    /// `true` or `false`.
    Truth(bool),
    /// The value of a parameter or a local.
    Var {
        /// The number of the variable.
        var: u32,
        /// Whether it is a parameter or a `final int` local.
        fixed: bool,
    },
    /// The value of a cell.
    Cell {
        /// The number of the cell's declaration.
        cell: u32,
        /// The place of the cell's name.
        place: Place,
    },
    /// The value of an element of an array or a grid.
    At {
        /// The number of the declaration of the array or the grid.
        array: u32,
        /// The index, or the row.
        index: Box<Expr>,
        /// The column, for a grid.
        second: Option<Box<Expr>>,
        /// The place of the array's name.
        place: Place,
    },
    /// The value that a method returns.
    Call {
        /// The number of the method.
        method: u32,
        /// The arguments.
        args: Args,
        /// The place of the method's name.
        place: Place,
    },
    /// The negative of a number. It wraps in 32 bits.
    Neg(Box<Expr>),
    /// The negation of a truth value.
    Not(Box<Expr>),
    /// A binary operator and its operands.
    Bin {
        /// The operator.
        op: BinOp,
        /// The left operand.
        left: Box<Expr>,
        /// The right operand.
        right: Box<Expr>,
        /// The place of the operator.
        place: Place,
    },
}

impl Model for Expr {
    ghost use Rattle.twe_program.specs.Expression.{Expression};
    ghost use Rattle.twe_program.specs.inner.ExpressionCode.{expression_code};
    ghost use Rattle.twe_program.specs.inner.ExpressionSize.{depth};

    ghost Value = { Expression };

    ghost coded = { expression_code };

    ghost use Rattle.twe_program.specs.inner.ExpressionView.{expression_of};

    ghost view = { λ e. expression_of e.kind };

    ghost use Rattle.std.specs.Prelude.{◌≡◌};
    ghost use Rattle.twe_program.specs.Expression.{is_plain};

    ghost invariant = { λ e. e.plain ≡ is_plain (expression_of e.kind) };

    ghost size = { depth };
}

impl Model for Args {
    ghost use Rattle.twe_program.specs.Expression.{Arguments, arguments_of};
    ghost use Rattle.twe_program.specs.inner.ExpressionCode.{arguments_code};
    ghost use Rattle.twe_program.specs.inner.ExpressionSize.{depth_of_all};

    ghost Value = { Arguments };

    ghost coded = { arguments_code };

    ghost view = { λ args. arguments_of args.items.items };

    ghost size = { depth_of_all };

    ghost use Rattle.std.proofs.Common.{arith};
    ghost use Rattle.twe_program.specs.inner.ArgumentsSize.{most_deep};

    ghost size_decreases = { λ args h. Prim.omega (arith, most_deep args.items.items) };
}

/// Whether an expression of this kind calls no method.
fn is_plain(kind: &ExprKind) -> bool
    ensures { result ≡ is_plain (expression_of kind.now) }
{
    match kind {
        ExprKind::Lit(_) => true,
        ExprKind::Truth(_) => true,
        ExprKind::Var { .. } => true,
        ExprKind::Cell { .. } => true,
        ExprKind::At {
            index,
            second: None,
            ..
        } => index.is_plain(),
        ExprKind::At {
            index,
            second: Some(second),
            ..
        } => index.is_plain() && second.is_plain(),
        ExprKind::Call { .. } => false,
        ExprKind::Neg(operand) => operand.is_plain(),
        ExprKind::Not(operand) => operand.is_plain(),
        ExprKind::Bin { left, right, .. } => left.is_plain() && right.is_plain(),
    }
}

impl Expr {
    /// The expression of this kind.
    pub fn new(kind: ExprKind) -> Expr
        ensures { result ≡ expression_of kind }
    {
        let plain = is_plain(&kind);
        Expr { kind, plain }
    }

    /// Whether it calls no method.
    #[inline(always)]
    pub fn is_plain(&self) -> bool
        ensures { result ≡ is_plain self.now }
    {
        self.plain
    }

    /// An integer literal.
    pub fn literal(value: i32) -> Expr
        ensures { result ≡ Literal value }
    {
        Expr::new(ExprKind::Lit(value))
    }

    /// The value of a cell.
    pub fn cell(cell: u32, place: Place) -> Expr
        ensures { result ≡ CellValue cell place }
    {
        Expr::new(ExprKind::Cell { cell, place })
    }

    /// A binary operator with its operands.
    pub fn binary(
        alloc: Global,
        op: BinOp,
        left: Expr,
        right: Expr,
        place: Place,
    ) -> Result<Expr, Memory>
        ensures { IfOk result (λ e. e ≡ Binary op left right place) }
    {
        let left = Box::new(alloc, left)?;
        let right = Box::new(alloc, right)?;
        let kind = ExprKind::Bin {
            op,
            left,
            right,
            place,
        };
        Ok(Expr::new(kind))
    }
}
