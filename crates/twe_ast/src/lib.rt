//! The syntax tree of a program. Names are texts, and each has its place.
//!
//! What the names mean is left to the crates above. The tree does not record parentheses, except in the place of the
//! expression that they enclose. Contracts see expressions as `Expression` and blocks as `Statements`, and everything
//! else as the records and variants that are declared here.
#![tactic(auto)]

mod expr;
mod item;
mod name;
mod path;
mod stmt;

pub use expr::{Args, BinOp, Expr, ExprKind};
pub use item::{Ast, CellDecl, CellShape, Clause, Decl, Initial, Item, ReturnType};
pub use name::Name;
pub use path::{CellElem, CellElemKind, CellPath, Path, PathElem, PathElemKind};
pub use stmt::{Arm, Arms, Block, LocalType, Stmt, StmtKind, WaitCall};
