//! Collects what the statements of a body do.
ghost use Rattle.std.specs.Prelude.{◌≡◌, ◌∷◌, [], ◌++◌, true, IfOk, OnOk};
ghost use Rattle.effect_check.specs.Standing.{console_element};
ghost use Rattle.effect_check.specs.Acts.{acts_in, acts_in_all, acts_in_one, acts_of_value, make, touch, wait};
ghost use Rattle.effect_check.specs.inner.Parts.{simple_acts, store_acts};

use crate::act::{Act, ActKind, Acts, add_touch};
use crate::collect::{
    accessed_path, add_args, add_call, add_expr, deterministic, element_of_index, filled,
};
use region_paths::{Elem, Elems, Path};
use std::alloc::Global;
use twe_base::{Memory, Place};
use twe_program::{Args, Arms, Block, Expr, Prog, Stmt, StmtKind};

/// Adds a print, which writes the region `Console`.
fn add_print(acts: &mut Acts, alloc: Global, point: u32, place: Place) -> Result<(), Memory>
    ensures { OnOk result (acts.new ≡ acts.old ++ touch point true console_element place ∷ []) }
{
    let elems = Elems::from_slice(alloc, &[Elem::Name(0)])?;
    let path = Path::new(elems, false, Elems::new(alloc));
    add_touch(acts, point, true, path, place)
}

/// Adds what is done to evaluate the value that is returned, if there is one.
fn add_value(
    value: &Option<Expr>,
    acts: &mut Acts,
    alloc: Global,
    p: &Prog,
    point: u32,
) -> Result<(), Memory>
    ensures { OnOk result (acts.new ≡ acts.old ++ acts_of_value p.now point value.now) }
{
    match value {
        None => Ok(()),
        Some(value) => add_expr(value, acts, alloc, p, point),
    }
}

/// A task that is made: its future, whether it is spawned, and the places of the names.
#[derive(Clone, Copy)]
struct Making {
    future: u32,
    task: u32,
    spawned: bool,
    future_place: Place,
    place: Place,
}

/// Adds a statement that makes a task.
fn add_make(
    acts: &mut Acts,
    alloc: Global,
    p: &Prog,
    point: u32,
    making: Making,
    args: &Args,
) -> Result<(), Memory>
    ensures { OnOk result (acts.new ≡ acts.old
        ++ make p.now point making.future making.task args.now making.spawned making.future_place making.place ∷ []) }
{
    let effects = filled(alloc, p.tasks.as_slice(), making.task, args)?;
    let kind = ActKind::Make {
        future: making.future,
        spawned: making.spawned,
        deterministic: deterministic(p.tasks.as_slice(), making.task),
        effects,
        future_place: making.future_place,
        place: making.place,
    };
    acts.push(Act { point, kind })
}

/// Adds a statement that waits for a task.
fn add_wait(
    acts: &mut Acts,
    point: u32,
    future: u32,
    join: bool,
    place: Place,
) -> Result<(), Memory>
    ensures { OnOk result (acts.new ≡ acts.old ++ wait point future join place ∷ []) }
{
    let kind = ActKind::Wait {
        future,
        join,
        place,
    };
    acts.push(Act { point, kind })
}

/// Adds what a statement does that stores into a cell.
fn add_store(stmt: &Stmt, acts: &mut Acts, alloc: Global, p: &Prog) -> Result<(), Memory>
    ensures { OnOk result (acts.new ≡ acts.old ++ store_acts p.now stmt.now) }
{
    let point = stmt.point;
    match &stmt.kind {
        StmtKind::SetCell { cell, value, place } => {
            let path = accessed_path(alloc, p, *cell, &[])?;
            add_touch(acts, point, true, path, *place)?;
            add_expr(value, acts, alloc, p, point)
        }
        StmtKind::SetAt {
            array,
            index,
            second: None,
            value,
            place,
        } => {
            let path = accessed_path(alloc, p, *array, &[element_of_index(index)])?;
            add_touch(acts, point, true, path, *place)?;
            add_expr(index, acts, alloc, p, point)?;
            add_expr(value, acts, alloc, p, point)
        }
        StmtKind::SetAt {
            array,
            index,
            second: Some(second),
            value,
            place,
        } => {
            let path = accessed_path(
                alloc,
                p,
                *array,
                &[element_of_index(index), element_of_index(second)],
            )?;
            add_touch(acts, point, true, path, *place)?;
            add_expr(index, acts, alloc, p, point)?;
            add_expr(second, acts, alloc, p, point)?;
            add_expr(value, acts, alloc, p, point)
        }
        _ => Ok(()),
    }
}

/// Adds what a statement does that has no others inside it.
fn add_simple(stmt: &Stmt, acts: &mut Acts, alloc: Global, p: &Prog) -> Result<(), Memory>
    ensures { OnOk result (acts.new ≡ acts.old ++ simple_acts p.now stmt.now) }
{
    let point = stmt.point;
    match &stmt.kind {
        StmtKind::Let { value, .. } | StmtKind::Set { value, .. } => {
            add_expr(value, acts, alloc, p, point)
        }
        StmtKind::Return(value) => add_value(value, acts, alloc, p, point),
        StmtKind::Print { value, place } => {
            add_print(acts, alloc, point, *place)?;
            add_expr(value, acts, alloc, p, point)
        }
        StmtKind::Call {
            method,
            args,
            place,
        } => {
            add_call(acts, alloc, p, point, *method, args, *place)?;
            add_args(args, acts, alloc, p, point)
        }
        StmtKind::Make {
            future,
            task,
            args,
            spawned,
            future_place,
            place,
        } => {
            let making = Making {
                future: *future,
                task: *task,
                spawned: *spawned,
                future_place: *future_place,
                place: *place,
            };
            add_make(acts, alloc, p, point, making, args)?;
            add_args(args, acts, alloc, p, point)
        }
        StmtKind::Wait {
            future,
            join,
            place,
            ..
        } => add_wait(acts, point, *future, *join, *place),
        _ => add_store(stmt, acts, alloc, p),
    }
}

/// Adds what the statement does, in all of its parts.
#[cycle(body)]
fn add_stmt(stmt: &Stmt, acts: &mut Acts, alloc: Global, p: &Prog) -> Result<(), Memory>
    ensures { OnOk result (acts.new ≡ acts.old ++ acts_in p.now stmt.now) }
{
    match &stmt.kind {
        StmtKind::Block(body) => add_block(body, acts, alloc, p),
        StmtKind::If(arms) => add_arms(arms, acts, alloc, p, stmt.point),
        StmtKind::While {
            condition,
            body,
            ..
        } => {
            add_expr(condition, acts, alloc, p, stmt.point)?;
            add_block(body, acts, alloc, p)
        }
        _ => add_simple(stmt, acts, alloc, p),
    }
}

/// Adds what the statements of a block do.
#[cycle(body)]
fn add_block(block: &Block, acts: &mut Acts, alloc: Global, p: &Prog) -> Result<(), Memory>
    ensures { OnOk result (acts.new ≡ acts.old ++ acts_in_all p.now block.now) }
{
    for stmt in block.stmts.as_slice() {
        add_stmt(stmt, acts, alloc, p)?;
    }
    Ok(())
}

/// Adds what the arms of an `if` do, whose conditions are evaluated at its point.
#[cycle(body)]
fn add_arms(arms: &Arms, acts: &mut Acts, alloc: Global, p: &Prog, point: u32) -> Result<(), Memory>
    ensures { OnOk result (acts.new ≡ acts.old ++ acts_in_one p.now point arms.now) }
{
    for arm in arms.arms.as_slice() {
        add_expr(&arm.condition, acts, alloc, p, point)?;
        add_block(&arm.body, acts, alloc, p)?;
    }
    match &arms.last {
        Some(body) => add_block(body, acts, alloc, p),
        None => Ok(()),
    }
}

/// What the statements of a body do, in the order of the text.
pub fn acts_of_body(alloc: Global, p: &Prog, block: &Block) -> Result<Acts, Memory>
    ensures { IfOk result (λ acts. acts ≡ acts_in_all p.now block.now) }
{
    let mut acts = Acts::new(alloc);
    add_block(block, &mut acts, alloc, p)?;
    Ok(acts)
}
