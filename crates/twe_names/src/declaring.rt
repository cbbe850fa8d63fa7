//! The resolver, for statements that declare a local or a future.
ghost use Rattle.std.specs.Prelude.{◌≡◌, true, IfOk, OnOk};
ghost use Rattle.name_check.specs.BodyScope.{after};
ghost use Rattle.name_check.specs.inner.Room.{HasRoom};
ghost use Rattle.twe_names.specs.BodyMeaning.{statement_of};
ghost use Rattle.twe_names.specs.inner.Kinds.{declares};

use crate::expressions::{arguments, expression};
use crate::numbers::task_number;
use crate::simple::waiting;
use name_check::{BodyScope, Globals, look_up};
use std::alloc::Global;
use twe_ast::{LocalType, Stmt as Written, StmtKind as Kind};
use twe_base::Memory;
use twe_program::{Stmt, StmtKind};

/// The meaning of a statement that declares a local or a future. Advances the scope past it.
pub fn declaring_statement(
    written: &Written,
    alloc: Global,
    globals: &Globals,
    scope: &mut BodyScope,
) -> Result<Stmt, Memory>
    requires kind { declares written.now ≡ true }
    requires room { HasRoom scope.old 1 }
    ensures meant { IfOk result (λ s. s ≡ statement_of globals.now scope.old written.now) }
    ensures walked { OnOk result (scope.new ≡ after globals.now scope.old written.now) }
{
    let point = scope.points;
    match &written.kind {
        Kind::Let {
            is_final,
            local_type,
            name,
            value,
        } => {
            let value = expression(value, alloc, globals, &scope.locals)?;
            let var = scope.vars;
            scope.count();
            scope.declare_variable(alloc, &name.text, *local_type, *is_final)?;
            let kind = StmtKind::Let { var, value };
            Ok(Stmt { point, kind })
        }
        Kind::Make {
            future,
            task,
            spawned,
            args,
        } => {
            let kind = StmtKind::Make {
                future: scope.futures,
                task: task_number(look_up(globals, &scope.locals, &task.text)),
                args: arguments(args, alloc, globals, &scope.locals)?,
                spawned: *spawned,
                future_place: future.place,
                place: task.place,
            };
            scope.count();
            scope.declare_future(alloc, globals, &future.text, &task.text, *spawned)?;
            Ok(Stmt { point, kind })
        }
        Kind::LetWait {
            is_final,
            name,
            wait,
        } => {
            let stmt = waiting(globals, &scope.locals, point, wait, Some(scope.vars));
            scope.count();
            scope.declare_variable(alloc, &name.text, LocalType::Int, *is_final)?;
            Ok(stmt)
        }
        _ => unreachable!(),
    }
}
