//! How the scope changes along a body.
ghost use Rattle.std.specs.Prelude.{◌≡◌, ◌+◌, ◌<◌, ◌^◌, IfOk, OnOk, length, take};
ghost use Rattle.name_check.specs.BodyScope.{counted_binding, is_void as names_void_task, with_future, with_variable};
ghost use Rattle.name_check.specs.Sites.{at_body};

use crate::binding::{Binding, Global, Local};
use crate::look::look_up;
use crate::names::Globals;
use crate::scope::{BodyScope, Locals};
use std::alloc;
use twe_ast::{Decl, LocalType, ReturnType};
use twe_base::{Memory, Word};

/// Whether a name is bound to a task that returns nothing.
fn is_void(binding: Option<Binding>) -> bool
    ensures { result ≡ names_void_task binding }
{
    match binding {
        Some(
            Binding::Global(
                Global::Task {
                    returns: ReturnType::Void,
                    ..
                },
            ),
        ) => true,
        _ => false,
    }
}

impl BodyScope {
    /// The scope at the start of a body: its parameters.
    pub fn at_body(alloc: alloc::Global, decl: &Decl) -> Result<Self, Memory>
        requires { length decl.now.params < 2 ^ 32 }
        ensures { IfOk result (λ scope. scope ≡ at_body decl.now) }
    {
        let mut locals = Locals::new(alloc);
        let mut number = 0;
        for name in decl.params.as_slice() {
            locals.push_parameter(alloc, &name.text, number)?;
            number += 1;
        }
        Ok(BodyScope {
            locals,
            points: 0,
            vars: number,
            futures: 0,
        })
    }

    /// Advances past one statement.
    pub fn count(&mut self)
        requires { self.old.points + 1 < 2 ^ 32 }
        ensures { self.new ≡ counted_binding self.old }
    {
        self.points += 1;
    }

    /// Binds a name to a new parameter or local. If it fails, nothing has changed.
    pub fn declare_variable(
        &mut self,
        alloc: alloc::Global,
        text: &Word,
        local_type: LocalType,
        constant: bool,
    ) -> Result<(), Memory>
        requires { self.old.vars + 1 < 2 ^ 32 }
        ensures { OnOk result (self.new ≡ with_variable self.old text.now local_type constant) }
    {
        let local = Local::Variable {
            number: self.vars,
            local_type,
            constant,
        };
        self.locals.push(alloc, text, local)?;
        self.vars += 1;
        Ok(())
    }

    /// Binds a name to a new future, of a task of this name.
    pub fn declare_future(
        &mut self,
        alloc: alloc::Global,
        globals: &Globals,
        text: &Word,
        task: &Word,
        spawned: bool,
    ) -> Result<(), Memory>
        requires { self.old.futures + 1 < 2 ^ 32 }
        ensures { OnOk result (self.new ≡ with_future globals.now self.old text.now task.now spawned) }
    {
        let local = Local::Future {
            number: self.futures,
            spawned,
            void: is_void(look_up(globals, &self.locals, task)),
        };
        self.locals.push(alloc, text, local)?;
        self.futures += 1;
        Ok(())
    }

    /// The number of names in scope. `leave` takes this number as it was when the block was entered.
    pub fn mark(&self) -> usize
        ensures { result ≡ length self.now.locals }
    {
        self.locals.len()
    }

    /// Leaves a block: only the first `mark` names stay in scope.
    pub fn leave(&mut self, mark: usize)
        ensures { self.new ≡ record self.old { locals = take mark self.old.locals } }
    {
        self.locals.keep(mark);
    }
}
