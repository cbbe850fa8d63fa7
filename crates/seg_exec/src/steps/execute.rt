//! The execution of one statement: the continuation that carries it out.
ghost use Rattle.std.specs.Prelude.{◌≡◌, IfOk};
ghost use Rattle.seg_exec.specs.inner.steps.Steps.{assigning, executed};
ghost use Rattle.seg_exec.specs.inner.steps.Views.{config_of};

use crate::steps::continuation::{Continuation, ValueUse};
use crate::steps::machine::Machine;
use crate::steps::request::Request;
use std::alloc::Global;
use twe_base::{Memory, Place};
use twe_program::{Expr, Stmt, StmtKind};

impl<'a> Machine<'a> {
    /// Schedules an assignment to an element of an array or of a grid. The indexes are evaluated before the value.
    fn assign_element(
        &mut self,
        array: u32,
        index: &'a Expr,
        second: &'a Option<Expr>,
        value: &'a Expr,
        place: Place,
    ) -> Result<Request, Memory>
        ensures { IfOk result (λ request. (request, config_of self.new) ≡
            assigning array index.now second.now value.now place (config_of self.old)) }
    {
        match second {
            None => {
                let then = ValueUse::GiveElement { array, place };
                self.push(Continuation::UseValue(then))?;
                self.push(Continuation::Evaluate(value))?;
                self.push(Continuation::Evaluate(index))?;
            }
            Some(second) => {
                let then = ValueUse::GiveGridElement { array, place };
                self.push(Continuation::UseValue(then))?;
                self.push(Continuation::Evaluate(value))?;
                self.push(Continuation::Evaluate(second))?;
                self.push(Continuation::Evaluate(index))?;
            }
        }
        Ok(Request::Nothing)
    }

    /// Pushes the continuation that executes a statement.
    pub(crate) fn execute(&mut self, alloc: Global, stmt: &'a Stmt) -> Result<Request, Memory>
        ensures { IfOk result (λ request. (request, config_of self.new) ≡ executed stmt.now (config_of self.old)) }
    {
        match &stmt.kind {
            StmtKind::Block(body) => self.begin_block(body),
            StmtKind::Let { var, value } => self.evaluate_then(value, ValueUse::GiveVar(*var)),
            StmtKind::Set { var, value } => self.evaluate_then(value, ValueUse::GiveVar(*var)),
            StmtKind::SetCell { cell, value, .. } => self.evaluate_then(
                value,
                ValueUse::GiveCell(*cell),
            ),
            StmtKind::SetAt {
                array,
                index,
                second,
                value,
                place,
            } => self.assign_element(*array, index, second, value, *place),
            StmtKind::If(arms) => self.begin_if(arms),
            StmtKind::While {
                condition,
                body,
                place,
            } => self.begin_loop(stmt, condition, body, *place),
            StmtKind::Return(value) => self.begin_return(value),
            StmtKind::Print { value, place } => self.evaluate_then(
                value,
                ValueUse::PrintValue(*place),
            ),
            StmtKind::Call {
                method,
                args,
                place,
            } => self.call_alone(alloc, *method, args, *place),
            StmtKind::Make {
                future,
                task,
                args,
                spawned,
                place,
                ..
            } => self.make(alloc, *future, *task, args, *spawned, *place),
            StmtKind::Wait {
                future,
                join,
                into,
                place,
            } => self.wait(alloc, *future, *join, *into, *place),
        }
    }
}
