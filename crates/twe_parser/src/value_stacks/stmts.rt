//! The semantic actions that make statements.
ghost use Rattle.std.specs.Prelude.{◌≡◌, OnOk};
ghost use Rattle.twe_ast.specs.inner.StatementView.{statement_of};
ghost use Rattle.twe_parser.specs.declared.symbol.StmtAction.TheVariants as actions;
ghost use Rattle.twe_parser.specs.inner.StmtActions.{perform_stmt};
ghost use Rattle.twe_parser.specs.inner.ValueStacks.{with_statement};

use crate::symbol::{StmtAction, WaitKind};
use crate::value_stacks::{ValueStacks, nameless, no_block, nothing, nowhere};
use std::alloc::Global;
use twe_ast::{Args, Arm, Arms, Block, LocalType, Stmt, StmtKind, WaitCall};
use twe_base::{List, Memory};

impl ValueStacks {
    /// Performs a semantic action that makes a statement.
    pub(crate) fn perform_stmt(&mut self, alloc: Global, action: StmtAction) -> Result<(), Memory>
        ensures { OnOk result (self.new ≡ perform_stmt action self.old) }
    {
        match action {
            StmtAction::NewBlock => self.open_block(alloc),
            StmtAction::CloseBlock => self.close_block(alloc),
            StmtAction::BlockStatement => self.block_statement(alloc),
            StmtAction::Let(is_final, local_type) => self.let_local(alloc, is_final, local_type),
            StmtAction::Set => self.set(alloc),
            StmtAction::SetArray => self.set_array(alloc),
            StmtAction::SetGrid => self.set_grid(alloc),
            StmtAction::NewArms => self.arms.push(List::new(alloc)),
            StmtAction::KeepArm => self.keep_arm(alloc),
            StmtAction::CloseIf => self.close_if(alloc),
            StmtAction::CloseIfElse => self.close_if_else(alloc),
            StmtAction::While => self.while_turns(alloc),
            StmtAction::Return => self.return_value(alloc),
            StmtAction::ReturnNothing => self.return_nothing(alloc),
            StmtAction::Print => self.print(alloc),
            StmtAction::CallStatement => self.call_statement(alloc),
            StmtAction::Make(spawned) => self.make(alloc, spawned),
            StmtAction::Wait(kind) => self.wait(alloc, kind),
            StmtAction::LetWait(is_final, kind) => self.let_wait(alloc, is_final, kind),
        }
    }

    /// Appends a statement to the innermost open block.
    fn push_stmt(&mut self, alloc: Global, kind: StmtKind) -> Result<(), Memory>
        ensures { OnOk result (self.new ≡ with_statement (statement_of kind) self.old) }
    {
        let mut stmts = self.lists.pop_or(List::new(alloc));
        stmts.push(Stmt { kind })?;
        self.lists.push(stmts)
    }

    /// Opens a block with room for one statement, since blocks of one statement are nested deepest.
    fn open_block(&mut self, alloc: Global) -> Result<(), Memory>
        ensures { OnOk result (self.new ≡ perform_stmt actions.NewBlock self.old) }
    {
        self.lists.push(List::with_capacity(alloc, 1)?)
    }

    fn close_block(&mut self, alloc: Global) -> Result<(), Memory>
        ensures { OnOk result (self.new ≡ perform_stmt actions.CloseBlock self.old) }
    {
        let close = self.places.pop_or(nowhere());
        let stmts = self.lists.pop_or(List::new(alloc)).into_vec();
        self.blocks.push(Block { stmts, close })
    }

    fn block_statement(&mut self, alloc: Global) -> Result<(), Memory>
        ensures { OnOk result (self.new ≡ perform_stmt actions.BlockStatement self.old) }
    {
        let body = self.blocks.pop_or(no_block(alloc));
        self.push_stmt(alloc, StmtKind::Block(body))
    }

    fn let_local(
        &mut self,
        alloc: Global,
        is_final: bool,
        local_type: LocalType,
    ) -> Result<(), Memory>
        ensures { OnOk result (self.new ≡ perform_stmt (actions.Let is_final local_type) self.old) }
    {
        let name = self.names.pop_or(nameless(alloc));
        let value = self.exprs.pop_or(nothing());
        self.push_stmt(
            alloc,
            StmtKind::Let {
                is_final,
                local_type,
                name,
                value,
            },
        )
    }

    fn set(&mut self, alloc: Global) -> Result<(), Memory>
        ensures { OnOk result (self.new ≡ perform_stmt actions.Set self.old) }
    {
        let name = self.names.pop_or(nameless(alloc));
        let value = self.exprs.pop_or(nothing());
        self.push_stmt(alloc, StmtKind::Set { name, value })
    }

    fn set_array(&mut self, alloc: Global) -> Result<(), Memory>
        ensures { OnOk result (self.new ≡ perform_stmt actions.SetArray self.old) }
    {
        let array = self.names.pop_or(nameless(alloc));
        let value = self.exprs.pop_or(nothing());
        let index = self.exprs.pop_or(nothing());
        self.push_stmt(
            alloc,
            StmtKind::SetAt {
                array,
                index,
                second: None,
                value,
            },
        )
    }

    fn set_grid(&mut self, alloc: Global) -> Result<(), Memory>
        ensures { OnOk result (self.new ≡ perform_stmt actions.SetGrid self.old) }
    {
        let array = self.names.pop_or(nameless(alloc));
        let value = self.exprs.pop_or(nothing());
        let column = self.exprs.pop_or(nothing());
        let row = self.exprs.pop_or(nothing());
        self.push_stmt(
            alloc,
            StmtKind::SetAt {
                array,
                index: row,
                second: Some(column),
                value,
            },
        )
    }

    fn keep_arm(&mut self, alloc: Global) -> Result<(), Memory>
        ensures { OnOk result (self.new ≡ perform_stmt actions.KeepArm self.old) }
    {
        let condition = self.exprs.pop_or(nothing());
        let body = self.blocks.pop_or(no_block(alloc));
        let mut arms = self.arms.pop_or(List::new(alloc));
        arms.push(Arm { condition, body })?;
        self.arms.push(arms)
    }

    fn close_if(&mut self, alloc: Global) -> Result<(), Memory>
        ensures { OnOk result (self.new ≡ perform_stmt actions.CloseIf self.old) }
    {
        let arms = self.arms.pop_or(List::new(alloc)).into_vec();
        self.push_stmt(alloc, StmtKind::If(Arms { arms, last: None }))
    }

    fn close_if_else(&mut self, alloc: Global) -> Result<(), Memory>
        ensures { OnOk result (self.new ≡ perform_stmt actions.CloseIfElse self.old) }
    {
        let body = self.blocks.pop_or(no_block(alloc));
        let arms = self.arms.pop_or(List::new(alloc)).into_vec();
        self.push_stmt(
            alloc,
            StmtKind::If(Arms {
                arms,
                last: Some(body),
            }),
        )
    }

    fn while_turns(&mut self, alloc: Global) -> Result<(), Memory>
        ensures { OnOk result (self.new ≡ perform_stmt actions.While self.old) }
    {
        let place = self.places.pop_or(nowhere());
        let condition = self.exprs.pop_or(nothing());
        let body = self.blocks.pop_or(no_block(alloc));
        self.push_stmt(
            alloc,
            StmtKind::While {
                place,
                condition,
                body,
            },
        )
    }

    fn return_value(&mut self, alloc: Global) -> Result<(), Memory>
        ensures { OnOk result (self.new ≡ perform_stmt actions.Return self.old) }
    {
        let place = self.places.pop_or(nowhere());
        let value = self.exprs.pop_or(nothing());
        self.push_stmt(
            alloc,
            StmtKind::Return {
                place,
                value: Some(value),
            },
        )
    }

    fn return_nothing(&mut self, alloc: Global) -> Result<(), Memory>
        ensures { OnOk result (self.new ≡ perform_stmt actions.ReturnNothing self.old) }
    {
        let place = self.places.pop_or(nowhere());
        self.push_stmt(alloc, StmtKind::Return { place, value: None })
    }

    fn print(&mut self, alloc: Global) -> Result<(), Memory>
        ensures { OnOk result (self.new ≡ perform_stmt actions.Print self.old) }
    {
        let place = self.places.pop_or(nowhere());
        let value = self.exprs.pop_or(nothing());
        self.push_stmt(alloc, StmtKind::Print { place, value })
    }

    fn call_statement(&mut self, alloc: Global) -> Result<(), Memory>
        ensures { OnOk result (self.new ≡ perform_stmt actions.CallStatement self.old) }
    {
        let method = self.names.pop_or(nameless(alloc));
        let items = self.args.pop_or(List::new(alloc)).into_vec();
        self.push_stmt(
            alloc,
            StmtKind::Call {
                method,
                args: Args { items },
            },
        )
    }

    fn make(&mut self, alloc: Global, spawned: bool) -> Result<(), Memory>
        ensures { OnOk result (self.new ≡ perform_stmt (actions.Make spawned) self.old) }
    {
        let task = self.names.pop_or(nameless(alloc));
        let future = self.names.pop_or(nameless(alloc));
        let items = self.args.pop_or(List::new(alloc)).into_vec();
        self.push_stmt(
            alloc,
            StmtKind::Make {
                future,
                task,
                spawned,
                args: Args { items },
            },
        )
    }

    fn wait(&mut self, alloc: Global, kind: WaitKind) -> Result<(), Memory>
        ensures { OnOk result (self.new ≡ perform_stmt (actions.Wait kind) self.old) }
    {
        let future = self.names.pop_or(nameless(alloc));
        let join = kind.is_join();
        self.push_stmt(alloc, StmtKind::Wait(WaitCall { future, join }))
    }

    fn let_wait(&mut self, alloc: Global, is_final: bool, kind: WaitKind) -> Result<(), Memory>
        ensures { OnOk result (self.new ≡ perform_stmt (actions.LetWait is_final kind) self.old) }
    {
        let future = self.names.pop_or(nameless(alloc));
        let name = self.names.pop_or(nameless(alloc));
        let join = kind.is_join();
        let wait = WaitCall { future, join };
        self.push_stmt(
            alloc,
            StmtKind::LetWait {
                is_final,
                name,
                wait,
            },
        )
    }
}
