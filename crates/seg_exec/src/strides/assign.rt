//! Assignments whose expressions call no method, carried out at once.
ghost use Rattle.std.specs.Prelude.{◌≡◌, slice_set};
ghost use Rattle.seg_meaning.specs.Access.{ways_of};
ghost use Rattle.seg_exec.specs.inner.steps.Bodies.{with_active};
ghost use Rattle.seg_exec.specs.inner.strides.Assignments.{Does, MayDo, MayWriteAt, Stays, WritesAt, executing, to_element, to_target};

use crate::elements::{cell_number, element_number};
use crate::steps::variables::Variables;
use crate::strides::value::{Fault, value_of};
use seg_meaning::{Cells, FaultCause};
use twe_base::Place;
use twe_program::{Expr, Prog, Stmt, StmtKind};

/// What became of a statement.
#[derive(Clone, Copy, Debug)]
pub(crate) enum Carried {
    /// It is done.
    Done,
    /// It met a fault.
    Faulted(Fault),
    /// It was left alone, and nothing changed.
    Left,
}

/// Where the value of an expression is put.
#[derive(Clone, Copy, Debug)]
pub(crate) enum Target {
    /// In the variable of this number.
    Var(u32),
    /// In the cell of this number.
    Cell(u32),
}

/// Assigns a value to a variable, if there is such a variable.
fn put_var(vars: &mut Variables, var: u32, value: i32)
    ensures { vars.new ≡ with_active (slice_set vars.old.active var value) vars.old }
{
    let at = var as usize;
    if at < vars.len() {
        vars.set(at, value);
    }
}

/// Evaluates an expression and puts its value where it belongs.
#[inline(always)]
fn set<C: Cells>(
    target: Target,
    value: &Expr,
    p: &Prog,
    vars: &mut Variables,
    cells: &mut C,
) -> Carried
    requires { MayDo p.now (ways_of C.known C.may_read C.may_write C.rule)
        (to_target value.now target) vars.old.active cells.old }
    ensures does { Does p.now (ways_of C.known C.may_read C.may_write C.rule)
        (to_target value.now target) vars.old.active cells.old result vars.new.active cells.new }
    ensures callers { vars.new.callers ≡ vars.old.callers }
{
    if !value.is_plain() {
        return Carried::Left;
    }
    match value_of(value, p, vars.as_slice(), cells) {
        Err(fault) => Carried::Faulted(fault),
        Ok(value) => match target {
            Target::Var(var) => {
                put_var(vars, var, value);
                Carried::Done
            }
            Target::Cell(cell) => {
                cells.set(cell_number(p, cell), value);
                Carried::Done
            }
        },
    }
}

/// Writes an element. It is a fault with the cause `missing` if there is no such element.
#[inline(always)]
fn write<C: Cells>(
    cells: &mut C,
    cell: Option<u32>,
    missing: FaultCause,
    value: i32,
    place: Place,
) -> Carried
    requires { MayWriteAt (ways_of C.known C.may_read C.may_write C.rule) cells.old cell }
    ensures { WritesAt (ways_of C.known C.may_read C.may_write C.rule) cell missing value place cells.old result cells.new }
{
    match cell {
        None => Carried::Faulted(Fault {
            cause: missing,
            place,
        }),
        Some(cell) => {
            cells.set(cell, value);
            Carried::Done
        }
    }
}

/// Evaluates an index and an expression and assigns the value to an element of an array.
#[inline(always)]
fn set_element<C: Cells>(
    array: u32,
    index: &Expr,
    value: &Expr,
    place: Place,
    p: &Prog,
    vars: &mut Variables,
    cells: &mut C,
) -> Carried
    requires { MayDo p.now (ways_of C.known C.may_read C.may_write C.rule)
        (to_element index.now value.now array place) vars.old.active cells.old }
    ensures does { Does p.now (ways_of C.known C.may_read C.may_write C.rule)
        (to_element index.now value.now array place) vars.old.active cells.old result vars.new.active cells.new }
    ensures callers { vars.new.callers ≡ vars.old.callers }
{
    if !index.is_plain() {
        return Carried::Left;
    }
    if !value.is_plain() {
        return Carried::Left;
    }
    match value_of(index, p, vars.as_slice(), cells) {
        Err(fault) => Carried::Faulted(fault),
        Ok(index) => match value_of(value, p, vars.as_slice(), cells) {
            Err(fault) => Carried::Faulted(fault),
            Ok(value) => {
                let missing = FaultCause::Index(index);
                write(
                    cells,
                    element_number(p, array, index),
                    missing,
                    value,
                    place,
                )
            }
        },
    }
}

/// Executes an assignment to a variable, a cell or an element of an array, if its expressions call no method.
#[inline(always)]
pub(crate) fn assign<C: Cells>(
    stmt: &Stmt,
    p: &Prog,
    vars: &mut Variables,
    cells: &mut C,
) -> Carried
    requires { MayDo p.now (ways_of C.known C.may_read C.may_write C.rule) (executing stmt.now) vars.old.active cells.old }
    ensures does { Does p.now (ways_of C.known C.may_read C.may_write C.rule)
        (executing stmt.now) vars.old.active cells.old result vars.new.active cells.new }
    ensures callers { vars.new.callers ≡ vars.old.callers }
    ensures stays { Stays stmt.now result }
{
    match &stmt.kind {
        StmtKind::Let { var, value } => set(Target::Var(*var), value, p, vars, cells),
        StmtKind::Set { var, value } => set(Target::Var(*var), value, p, vars, cells),
        StmtKind::SetCell { cell, value, .. } => set(Target::Cell(*cell), value, p, vars, cells),
        StmtKind::SetAt {
            array,
            index,
            second: None,
            value,
            place,
        } => set_element(*array, index, value, *place, p, vars, cells),
        _ => Carried::Left,
    }
}
