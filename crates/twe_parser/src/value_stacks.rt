//! The stacks of semantic values: the names, numbers and trees that are not yet part of a larger tree.
//!
//! No semantic action finds a stack that it pops empty. If one did, it would use a dummy value.
ghost use Rattle.std.specs.Prelude.{◌≡◌, OnOk, IfOk};
ghost use Rattle.twe_parser.specs.inner.ValueStacks.{nowhere, nothing, nameless, no_block, no_values, kept};
ghost use Rattle.twe_parser.specs.inner.Actions.{performed};

use crate::symbol::Action;
use std::alloc::Global;
use twe_ast::{Arm, Block, CellElem, Clause, Expr, ExprKind, Item, Name, Path, PathElem, Stmt};
use twe_base::{List, Memory, Place, Stack, Word};
use twe_lexer::{Token, TokenKind};

mod exprs;
mod items;
mod stmts;

/// The semantic values that are not yet part of a larger tree.
#[derive(Drop)]
pub(crate) struct ValueStacks {
    /// Names.
    pub(crate) names: Stack<Name>,
    /// The values of literals.
    pub(crate) numbers: Stack<u32>,
    /// The places of tokens that an action will use.
    pub(crate) places: Stack<Place>,
    /// Expressions.
    pub(crate) exprs: Stack<Expr>,
    /// The arguments of the calls that are open, the innermost on top.
    pub(crate) args: Stack<List<Expr>>,
    /// The statements of the blocks that are open, the innermost on top.
    pub(crate) lists: Stack<List<Stmt>>,
    /// Blocks that are closed.
    pub(crate) blocks: Stack<Block>,
    /// The arms of each `if` that is open, the innermost on top.
    pub(crate) arms: Stack<List<Arm>>,
    /// The names of a declaration of regions, or of the parameters.
    pub(crate) listed: List<Name>,
    /// The elements of the path of a cell.
    pub(crate) cell_elems: List<CellElem>,
    /// The elements of a path of a clause.
    pub(crate) elems: List<PathElem>,
    /// The paths of a clause.
    pub(crate) paths: List<Path>,
    /// The clauses of a method or a task.
    pub(crate) clauses: List<Clause>,
    /// The declarations so far.
    pub(crate) items: List<Item>,
}

/// The dummy place.
fn nowhere() -> Place
    ensures { result ≡ nowhere }
{
    Place { line: 0, col: 0 }
}

/// The dummy expression.
fn nothing() -> Expr
    ensures { result ≡ nothing }
{
    Expr {
        kind: ExprKind::Lit(0),
        place: Place { line: 0, col: 0 },
    }
}

/// The dummy name.
fn nameless(alloc: Global) -> Name
    ensures { result ≡ nameless }
{
    Name {
        text: Word::new(alloc),
        place: Place { line: 0, col: 0 },
    }
}

/// The dummy block.
fn no_block(alloc: Global) -> Block
    ensures { result ≡ no_block }
{
    Block {
        stmts: Vec::new(alloc),
        close: Place { line: 0, col: 0 },
    }
}

impl ValueStacks {
    /// No values. It allocates nothing.
    pub(crate) fn new(alloc: Global) -> Self
        ensures { result ≡ no_values }
    {
        ValueStacks {
            names: Stack::new(alloc),
            numbers: Stack::new(alloc),
            places: Stack::new(alloc),
            exprs: Stack::new(alloc),
            args: Stack::new(alloc),
            lists: Stack::new(alloc),
            blocks: Stack::new(alloc),
            arms: Stack::new(alloc),
            listed: List::new(alloc),
            cell_elems: List::new(alloc),
            elems: List::new(alloc),
            paths: List::new(alloc),
            clauses: List::new(alloc),
            items: List::new(alloc),
        }
    }

    /// Pushes the value of a token, if it is a name or a literal, and its place if `mark` is set.
    pub(crate) fn keep(&mut self, token: Token, mark: bool) -> Result<(), Memory>
        ensures { OnOk result (self.new ≡ kept token mark self.old) }
    {
        let Token { kind, place } = token;
        if mark {
            self.places.push(place)?;
        }
        match kind {
            TokenKind::Name(text) => self.names.push(Name { text, place }),
            TokenKind::Literal(value) => self.numbers.push(value),
            TokenKind::Fixed(_) | TokenKind::Stray => Ok(()),
        }
    }

    /// Performs a semantic action.
    pub(crate) fn perform(&mut self, alloc: Global, action: Action) -> Result<(), Memory>
        ensures { OnOk result (self.new ≡ performed action self.old) }
    {
        match action {
            Action::Nothing => Ok(()),
            Action::Expr(action) => self.perform_expr(alloc, action),
            Action::Stmt(action) => self.perform_stmt(alloc, action),
            Action::Item(action) => self.perform_item(alloc, action),
        }
    }
}
