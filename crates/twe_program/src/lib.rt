//! The resolved program: the syntax tree with each name replaced by a number.
//!
//! The resolver of names makes it; the checker of effects and the evaluator read it. Reading a text is left to the
//! crates below the resolver.
#![tactic(auto)]

mod expr;
mod program;
mod stmt;

pub use expr::{Args, Expr, ExprKind};
pub use program::{Body, CellDecl, Decl, Dims, Prog};
pub use stmt::{Arm, Arms, Block, Stmt, StmtKind};
pub use twe_ast::BinOp;
