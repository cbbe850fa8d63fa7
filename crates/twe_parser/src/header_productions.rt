//! The productions of parameters, effects and their paths.
ghost use Rattle.std.specs.Prelude.{◌≡◌};
ghost use Rattle.twe_parser.specs.inner.Productions.{effects_production, elem_production, index_production, more_params_production, params_production, path_rest_production, path_production};

use crate::production::{Production, marked, plain};
use crate::symbol::Action::{Item, Stmt};
use crate::symbol::Symbol::{Expand, Name, Perform, Token};
use crate::symbol::{Access, ItemAction, Nonterminal, StmtAction, Terminal};
use twe_lexer::Fixed;

/// After the `(` of parameters.
pub(crate) fn params(next: Terminal) -> Option<Production>
    ensures { result ≡ params_production next }
{
    match next {
        Terminal::Fixed(Fixed::CloseParen) => plain(&[]),
        Terminal::Fixed(Fixed::Int) => plain(&[
            Name,
            Perform(Item(ItemAction::KeepName)),
            Expand(Nonterminal::MoreParams),
        ]),
        _ => None,
    }
}

/// After a parameter.
pub(crate) fn more_params(next: Terminal) -> Option<Production>
    ensures { result ≡ more_params_production next }
{
    match next {
        Terminal::Fixed(Fixed::CloseParen) => plain(&[]),
        Terminal::Fixed(Fixed::Comma) => plain(&[
            Token(Fixed::Int),
            Name,
            Perform(Item(ItemAction::KeepName)),
            Expand(Nonterminal::MoreParams),
        ]),
        _ => None,
    }
}

/// The effects of a method or a task.
pub(crate) fn effects(in_task: bool, next: Terminal) -> Option<Production>
    ensures { result ≡ effects_production in_task next }
{
    match next {
        Terminal::Fixed(Fixed::Pure) => plain(&[
            Token(Fixed::OpenBrace),
            Perform(Stmt(StmtAction::NewBlock)),
            Expand(Nonterminal::Statements(in_task)),
        ]),
        Terminal::Fixed(Fixed::Reads) => plain(&[Expand(Nonterminal::Path(
            in_task,
            Access::Reads,
        ))]),
        Terminal::Fixed(Fixed::Writes) => plain(&[Expand(Nonterminal::Path(
            in_task,
            Access::Writes,
        ))]),
        _ => None,
    }
}

/// The beginning of a path of a clause.
pub(crate) fn path(in_task: bool, access: Access, next: Terminal) -> Option<Production>
    ensures { result ≡ path_production in_task access next }
{
    match next {
        Terminal::Fixed(Fixed::Root) => marked(&[Expand(Nonterminal::PathRest(in_task, access))]),
        Terminal::Name => marked(&[
            Perform(Item(ItemAction::ElemName)),
            Expand(Nonterminal::PathRest(in_task, access)),
        ]),
        _ => None,
    }
}

/// After an element of a path of a clause.
pub(crate) fn path_rest(in_task: bool, access: Access, next: Terminal) -> Option<Production>
    ensures { result ≡ path_rest_production in_task access next }
{
    match next {
        Terminal::Fixed(Fixed::Colon) => plain(&[
            Expand(Nonterminal::Elem),
            Expand(Nonterminal::PathRest(in_task, access)),
        ]),
        Terminal::Fixed(Fixed::Comma) => plain(&[
            Perform(Item(ItemAction::KeepPath)),
            Expand(Nonterminal::Path(in_task, access)),
        ]),
        Terminal::Fixed(Fixed::Reads) => plain(&[
            Perform(Item(ItemAction::KeepPath)),
            Perform(Item(ItemAction::KeepClause(access))),
            Expand(Nonterminal::Path(in_task, Access::Reads)),
        ]),
        Terminal::Fixed(Fixed::Writes) => plain(&[
            Perform(Item(ItemAction::KeepPath)),
            Perform(Item(ItemAction::KeepClause(access))),
            Expand(Nonterminal::Path(in_task, Access::Writes)),
        ]),
        Terminal::Fixed(Fixed::OpenBrace) => plain(&[
            Perform(Item(ItemAction::KeepPath)),
            Perform(Item(ItemAction::KeepClause(access))),
            Perform(Stmt(StmtAction::NewBlock)),
            Expand(Nonterminal::Statements(in_task)),
        ]),
        _ => None,
    }
}

/// An element of a path of a clause, after `:`.
pub(crate) fn elem(next: Terminal) -> Option<Production>
    ensures { result ≡ elem_production next }
{
    match next {
        Terminal::Name => plain(&[Perform(Item(ItemAction::ElemName))]),
        Terminal::Fixed(Fixed::OpenBracket) => marked(&[Expand(Nonterminal::Index)]),
        Terminal::Fixed(Fixed::Star) => marked(&[Perform(Item(ItemAction::ElemStar))]),
        _ => None,
    }
}

/// After the `[` of an element of a path.
pub(crate) fn index(next: Terminal) -> Option<Production>
    ensures { result ≡ index_production next }
{
    match next {
        Terminal::Literal => plain(&[
            Token(Fixed::CloseBracket),
            Perform(Item(ItemAction::ElemIndex)),
        ]),
        Terminal::Name => plain(&[
            Token(Fixed::CloseBracket),
            Perform(Item(ItemAction::ElemVariable)),
        ]),
        Terminal::Fixed(Fixed::Question) => plain(&[
            Token(Fixed::CloseBracket),
            Perform(Item(ItemAction::ElemAny)),
        ]),
        _ => None,
    }
}
