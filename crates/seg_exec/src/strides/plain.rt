//! Blocks that return the value of an expression that calls no method at once.
ghost use Rattle.std.specs.Prelude.{IfSome};
ghost use Rattle.twe_program.specs.Statement.{statements_of};
ghost use Rattle.seg_exec.specs.inner.strides.Plainly.{ReturnsPlain};

use twe_program::{Expr, Stmt, StmtKind};

/// The expression whose value a block returns at once, if there is one and it calls no method.
#[inline(always)]
pub(crate) fn plain_return<'a>(stmts: &'a [Stmt]) -> Option<&'a Expr>
    ensures { IfSome result (λ value. ReturnsPlain (statements_of stmts.now) value.now) }
{
    if stmts.is_empty() {
        return None;
    }
    let first = &stmts[0];
    match &first.kind {
        StmtKind::Return(Some(value)) => { if value.is_plain() { Some(value) } else { None } }
        _ => None,
    }
}
