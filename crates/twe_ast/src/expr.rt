//! Expressions. Contracts see one as an `Expression`: a place, and what the expression is.

ghost use Rattle.std.specs.Prelude.{◌≡◌, ◌≤◌};
ghost use Rattle.twe_ast.specs.Precedence.{level_of};

use crate::name::Name;
use std::marker::Model;
use twe_base::Place;

/// An operator with two operands.
#[derive(Clone, Copy, Debug, PartialEq, Eq)]
pub enum BinOp {
    /// `||`
    Or,
    /// `&&`
    And,
    /// `==`
    Equal,
    /// `!=`
    NotEqual,
    /// `<`
    Less,
    /// `<=`
    LessEqual,
    /// `>`
    Greater,
    /// `>=`
    GreaterEqual,
    /// `+`
    Add,
    /// `-` between two operands.
    Sub,
    /// `*`
    Mul,
    /// `/`
    Div,
    /// `%`
    Rem,
}

impl BinOp {
    /// The precedence of the operator, from 0 for `||` to 5 for `*`: a higher level binds more tightly.
    pub fn level(self) -> u8
        ensures level { result ≡ level_of self }
        ensures small { result ≤ 5 }
    {
        match self {
            BinOp::Or => 0,
            BinOp::And => 1,
            BinOp::Equal | BinOp::NotEqual => 2,
            BinOp::Less | BinOp::LessEqual | BinOp::Greater | BinOp::GreaterEqual => 3,
            BinOp::Add | BinOp::Sub => 4,
            BinOp::Mul | BinOp::Div | BinOp::Rem => 5,
        }
    }
}

/// An expression.
#[cycle(expr)]
#[derive(Debug, Drop)]
pub struct Expr {
    /// The kind of the expression, with its parts.
    pub kind: ExprKind,
    /// The place of its first token, which may be a parenthesis that encloses it.
    pub place: Place,
}

/// The arguments of a call, from left to right.
#[cycle(expr)]
#[derive(Debug, Drop)]
pub struct Args {
    /// The expressions.
    pub items: Vec<Expr>,
}

/// The kind of an expression, with its parts.
#[cycle(expr)]
#[derive(Debug, Drop)]
pub enum ExprKind {
    /// An integer literal: from 0 to 2147483647, or -2147483648 for `-` followed by 2147483648.
    Lit(i32),
    /// `true` or `false`.
    Truth(bool),
    /// The name of a local, a parameter or a cell.
    Name(Name),
    /// An element of an array or of a grid.
    At {
        /// The name of the array or grid.
        array: Name,
        /// The index, or the row.
        index: Box<Expr>,
        /// The column, if it is an element of a grid.
        second: Option<Box<Expr>>,
    },
    /// The call of a method.
    Call {
        /// The name of the method.
        method: Name,
        /// The arguments.
        args: Args,
    },
    /// `-` and its operand. `-` followed by 2147483648 is a literal instead.
    Neg(Box<Expr>),
    /// `!` and its operand.
    Not(Box<Expr>),
    /// An operator and its two operands.
    Bin {
        /// The operator.
        op: BinOp,
        /// The left operand.
        left: Box<Expr>,
        /// The right operand.
        right: Box<Expr>,
        /// The place of the operator.
        place: Place,
    },
}

impl Model for Expr {
    ghost use Rattle.twe_ast.specs.Expression.{Expression, expression};
    ghost use Rattle.twe_ast.specs.inner.ExpressionCode.{expression_code};
    ghost use Rattle.twe_ast.specs.inner.ExpressionSize.{depth};

    ghost Value = { Expression };

    ghost coded = { expression_code };

    ghost use Rattle.twe_ast.specs.inner.ExpressionView.{shape_of};

    ghost view = { λ e. expression e.place (shape_of e.kind) };

    ghost size = { depth };
}

impl Model for Args {
    ghost use Rattle.twe_ast.specs.Expression.{Arguments};
    ghost use Rattle.twe_ast.specs.inner.ExpressionCode.{arguments_code};
    ghost use Rattle.twe_ast.specs.inner.ExpressionSize.{depth_of_all};

    ghost Value = { Arguments };

    ghost coded = { arguments_code };

    ghost use Rattle.twe_ast.specs.inner.ExpressionView.{arguments_of};

    ghost view = { λ args. arguments_of args.items.items };

    ghost size = { depth_of_all };

    ghost use Rattle.std.proofs.Common.{arith};
    ghost use Rattle.twe_ast.specs.inner.ArgumentsSize.{most_deep};

    ghost size_decreases = { λ args h. Prim.omega (arith, most_deep args.items.items) };
}
