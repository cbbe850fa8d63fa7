//! Collects what the statements of a body do.
ghost use Rattle.std.specs.Prelude.{◌≡◌, ◌∷◌, [], ◌++◌, IfOk, OnOk};
ghost use Rattle.effect_infer.specs.needs.Steps.{print, steps_in, steps_in_all, steps_in_one, steps_of_value};
ghost use Rattle.effect_infer.specs.needs.inner.Parts.{simple_steps, store_steps};

use crate::needs::collect::{add_args, add_call, add_expr};
use crate::needs::need::{Steps, add_touch};
use effect_check::{accessed_elements, element_of_index};
use region_paths::{Elem, Elems};
use std::alloc::Global;
use twe_base::Memory;
use twe_program::{Arms, Block, CellDecl, Expr, Stmt, StmtKind};

/// Adds a print, which writes the region `Console`.
fn add_print(steps: &mut Steps, alloc: Global) -> Result<(), Memory>
    ensures { OnOk result (steps.new ≡ steps.old ++ print ∷ []) }
{
    let elems = Elems::from_slice(alloc, &[Elem::Name(0)])?;
    add_touch(steps, true, elems)
}

/// Adds what is done to evaluate the value that is returned, if there is one.
fn add_value(
    value: &Option<Expr>,
    steps: &mut Steps,
    alloc: Global,
    cells: &[CellDecl],
) -> Result<(), Memory>
    ensures { OnOk result (steps.new ≡ steps.old ++ steps_of_value cells.now value.now) }
{
    match value {
        None => Ok(()),
        Some(value) => add_expr(value, steps, alloc, cells),
    }
}

/// Adds what a statement does that stores into a cell.
fn add_store(
    stmt: &Stmt,
    steps: &mut Steps,
    alloc: Global,
    cells: &[CellDecl],
) -> Result<(), Memory>
    ensures { OnOk result (steps.new ≡ steps.old ++ store_steps cells.now stmt.now) }
{
    match &stmt.kind {
        StmtKind::SetCell { cell, value, .. } => {
            let elems = accessed_elements(alloc, cells, *cell, &[])?;
            add_touch(steps, true, elems)?;
            add_expr(value, steps, alloc, cells)
        }
        StmtKind::SetAt {
            array,
            index,
            second: None,
            value,
            ..
        } => {
            let elems = accessed_elements(alloc, cells, *array, &[element_of_index(index)])?;
            add_touch(steps, true, elems)?;
            add_expr(index, steps, alloc, cells)?;
            add_expr(value, steps, alloc, cells)
        }
        StmtKind::SetAt {
            array,
            index,
            second: Some(second),
            value,
            ..
        } => {
            let elems = accessed_elements(
                alloc,
                cells,
                *array,
                &[element_of_index(index), element_of_index(second)],
            )?;
            add_touch(steps, true, elems)?;
            add_expr(index, steps, alloc, cells)?;
            add_expr(second, steps, alloc, cells)?;
            add_expr(value, steps, alloc, cells)
        }
        _ => Ok(()),
    }
}

/// Adds what a statement does that has no others inside it. In a method no statement makes a task or waits for one.
fn add_simple(
    stmt: &Stmt,
    steps: &mut Steps,
    alloc: Global,
    cells: &[CellDecl],
) -> Result<(), Memory>
    ensures { OnOk result (steps.new ≡ steps.old ++ simple_steps cells.now stmt.now) }
{
    match &stmt.kind {
        StmtKind::Let { value, .. } | StmtKind::Set { value, .. } => {
            add_expr(value, steps, alloc, cells)
        }
        StmtKind::Return(value) => add_value(value, steps, alloc, cells),
        StmtKind::Print { value, .. } => {
            add_print(steps, alloc)?;
            add_expr(value, steps, alloc, cells)
        }
        StmtKind::Call { method, args, .. } => {
            add_call(steps, alloc, *method, args)?;
            add_args(args, steps, alloc, cells)
        }
        StmtKind::Make { args, .. } => add_args(args, steps, alloc, cells),
        StmtKind::Wait { .. } => Ok(()),
        _ => add_store(stmt, steps, alloc, cells),
    }
}

/// Adds what the statement does, in all of its parts.
#[cycle(body)]
fn add_stmt(stmt: &Stmt, steps: &mut Steps, alloc: Global, cells: &[CellDecl]) -> Result<(), Memory>
    ensures { OnOk result (steps.new ≡ steps.old ++ steps_in cells.now stmt.now) }
{
    match &stmt.kind {
        StmtKind::Block(body) => add_block(body, steps, alloc, cells),
        StmtKind::If(arms) => add_arms(arms, steps, alloc, cells),
        StmtKind::While {
            condition,
            body,
            ..
        } => {
            add_expr(condition, steps, alloc, cells)?;
            add_block(body, steps, alloc, cells)
        }
        _ => add_simple(stmt, steps, alloc, cells),
    }
}

/// Adds what the statements of a block do.
#[cycle(body)]
fn add_block(
    block: &Block,
    steps: &mut Steps,
    alloc: Global,
    cells: &[CellDecl],
) -> Result<(), Memory>
    ensures { OnOk result (steps.new ≡ steps.old ++ steps_in_all cells.now block.now) }
{
    for stmt in block.stmts.as_slice() {
        add_stmt(stmt, steps, alloc, cells)?;
    }
    Ok(())
}

/// Adds what the arms of an `if` do, conditions included.
#[cycle(body)]
fn add_arms(arms: &Arms, steps: &mut Steps, alloc: Global, cells: &[CellDecl]) -> Result<(), Memory>
    ensures { OnOk result (steps.new ≡ steps.old ++ steps_in_one cells.now arms.now) }
{
    for arm in arms.arms.as_slice() {
        add_expr(&arm.condition, steps, alloc, cells)?;
        add_block(&arm.body, steps, alloc, cells)?;
    }
    match &arms.last {
        Some(body) => add_block(body, steps, alloc, cells),
        None => Ok(()),
    }
}

/// The steps of a body, in the order of the text.
pub fn steps_of_body(alloc: Global, cells: &[CellDecl], block: &Block) -> Result<Steps, Memory>
    ensures { IfOk result (λ steps. steps ≡ steps_in_all cells.now block.now) }
{
    let mut steps = Steps::new(alloc);
    add_block(block, &mut steps, alloc, cells)?;
    Ok(steps)
}
