//! Collects what is done to evaluate an expression.
ghost use Rattle.std.specs.Prelude.{◌≡◌, ◌∷◌, [], ◌++◌, IfOk, OnOk, slice_get};
ghost use Rattle.effect_check.specs.Standing.{element_of_index, elements_from, elements_of, path_at};
ghost use Rattle.effect_check.specs.Acts.{acts_of, acts_of_all, call, filled_summary, is_deterministic, touch};

use crate::act::{Act, ActKind, Acts, add_touch};
use effect_sets::{Effects, Summary};
use region_paths::{Elem, Elems, Path};
use std::alloc::Global;
use twe_base::{Memory, Place};
use twe_program::{Args, CellDecl, Decl, Expr, ExprKind, Prog};

/// An index or an argument as the rules see it: a literal, a parameter and a `final int` local as itself, and everything
/// else as any index.
pub fn element_of_index(expr: &Expr) -> Elem
    ensures { result ≡ element_of_index expr.now }
{
    match &expr.kind {
        ExprKind::Lit(value) => Elem::Index(*value),
        ExprKind::Var { var, fixed: true } => Elem::Var(*var),
        _ => Elem::AnyIndex,
    }
}

/// The arguments as the rules see them.
pub fn elements_of(alloc: Global, args: &Args) -> Result<Elems, Memory>
    ensures { IfOk result (λ elems. elems ≡ elements_of args.now) }
{
    let mut elems = Elems::new(alloc);
    for arg in args.items.as_slice() {
        elems.push(element_of_index(arg))?;
    }
    Ok(elems)
}

/// The path of a declaration of cells.
fn declared_elements(alloc: Global, cells: &[CellDecl], cell: u32) -> Result<Elems, Memory>
    ensures { IfOk result (λ elems. elems ≡ elements_from (slice_get cells.now cell)) }
{
    match cells.get(cell as usize) {
        None => Ok(Elems::new(alloc)),
        Some(cell) => cell.path.elems().copy(alloc),
    }
}

/// The elements of the path of a cell, or of the element of an array or a grid at these indexes. There are none before the
/// indexes if no cell has this number.
pub fn accessed_elements(
    alloc: Global,
    cells: &[CellDecl],
    cell: u32,
    indexes: &[Elem],
) -> Result<Elems, Memory>
    ensures { IfOk result (λ elems. elems ≡ elements_from (slice_get cells.now cell) ++ indexes.now) }
{
    let mut elems = declared_elements(alloc, cells, cell)?;
    elems.push_all(indexes)?;
    Ok(elems)
}

/// The path of a cell, or of the element of an array or a grid at these indexes.
pub fn accessed_path(alloc: Global, p: &Prog, cell: u32, indexes: &[Elem]) -> Result<Path, Memory>
    ensures { IfOk result (λ path. path ≡ path_at p.now cell indexes.now) }
{
    let elems = accessed_elements(alloc, p.cells.as_slice(), cell, indexes)?;
    Ok(Path::new(elems, false, Elems::new(alloc)))
}

/// The summary of a declaration, filled with the arguments.
pub fn filled(alloc: Global, decls: &[Decl], number: u32, args: &Args) -> Result<Summary, Memory>
    ensures { IfOk result (λ summary. summary ≡ filled_summary (slice_get decls.now number) (elements_of args.now)) }
{
    match decls.get(number as usize) {
        None => Ok(Summary {
            effects: Effects::new(alloc),
        }),
        Some(decl) => {
            let args = elements_of(alloc, args)?;
            decl.summary.fill(alloc, args.as_slice())
        }
    }
}

/// Whether there is such a declaration, and it is deterministic.
pub fn deterministic(decls: &[Decl], number: u32) -> bool
    ensures { result ≡ is_deterministic (slice_get decls.now number) }
{
    match decls.get(number as usize) {
        None => false,
        Some(decl) => decl.deterministic,
    }
}

/// Adds a call of a method.
pub fn add_call(
    acts: &mut Acts,
    alloc: Global,
    p: &Prog,
    point: u32,
    method: u32,
    args: &Args,
    place: Place,
) -> Result<(), Memory>
    ensures { OnOk result (acts.new ≡ acts.old ++ call p.now point method args.now place ∷ []) }
{
    let effects = filled(alloc, p.methods.as_slice(), method, args)?;
    let kind = ActKind::Call { effects, place };
    acts.push(Act { point, kind })
}

/// Adds what is done at the point to evaluate the expression.
#[cycle(expr)]
pub fn add_expr(
    expr: &Expr,
    acts: &mut Acts,
    alloc: Global,
    p: &Prog,
    point: u32,
) -> Result<(), Memory>
    ensures { OnOk result (acts.new ≡ acts.old ++ acts_of p.now point expr.now) }
{
    match &expr.kind {
        ExprKind::Lit(_) | ExprKind::Truth(_) | ExprKind::Var { .. } => Ok(()),
        ExprKind::Cell { cell, place } => {
            let path = accessed_path(alloc, p, *cell, &[])?;
            add_touch(acts, point, false, path, *place)
        }
        ExprKind::At {
            array,
            index,
            second: None,
            place,
        } => {
            let path = accessed_path(alloc, p, *array, &[element_of_index(index)])?;
            add_touch(acts, point, false, path, *place)?;
            add_expr(index, acts, alloc, p, point)
        }
        ExprKind::At {
            array,
            index,
            second: Some(second),
            place,
        } => {
            let path = accessed_path(
                alloc,
                p,
                *array,
                &[element_of_index(index), element_of_index(second)],
            )?;
            add_touch(acts, point, false, path, *place)?;
            add_expr(index, acts, alloc, p, point)?;
            add_expr(second, acts, alloc, p, point)
        }
        ExprKind::Call {
            method,
            args,
            place,
        } => {
            add_call(acts, alloc, p, point, *method, args, *place)?;
            add_args(args, acts, alloc, p, point)
        }
        ExprKind::Neg(operand) | ExprKind::Not(operand) => add_expr(operand, acts, alloc, p, point),
        ExprKind::Bin { left, right, .. } => {
            add_expr(left, acts, alloc, p, point)?;
            add_expr(right, acts, alloc, p, point)
        }
    }
}

/// Adds what is done at the point to evaluate the arguments.
#[cycle(expr)]
pub fn add_args(
    args: &Args,
    acts: &mut Acts,
    alloc: Global,
    p: &Prog,
    point: u32,
) -> Result<(), Memory>
    ensures { OnOk result (acts.new ≡ acts.old ++ acts_of_all p.now point args.now) }
{
    for arg in args.items.as_slice() {
        add_expr(arg, acts, alloc, p, point)?;
    }
    Ok(())
}
