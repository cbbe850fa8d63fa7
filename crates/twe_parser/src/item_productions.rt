//! The productions of declarations.
ghost use Rattle.std.specs.Prelude.{◌≡◌};
ghost use Rattle.twe_parser.specs.inner.Productions.{after_int_production, after_length_production, cell_elem_production, cell_path_production, cell_rest_production, initial_production, items_production, more_regions_production, task_returns_production};

use crate::production::{Production, marked, plain};
use crate::symbol::Action::Item;
use crate::symbol::Symbol::{Expand, Literal, Name, Perform, Token};
use crate::symbol::{CellKind, ItemAction, Nonterminal, Terminal};
use twe_ast::ReturnType;
use twe_lexer::Fixed;

/// The declarations that are left, up to the end of the text.
pub(crate) fn items(next: Terminal) -> Option<Production>
    ensures { result ≡ items_production next }
{
    match next {
        Terminal::Fixed(Fixed::Region) => plain(&[
            Name,
            Perform(Item(ItemAction::KeepName)),
            Expand(Nonterminal::MoreRegions),
            Expand(Nonterminal::Items),
        ]),
        Terminal::Fixed(Fixed::Int) => plain(&[
            Name,
            Expand(Nonterminal::AfterInt),
            Expand(Nonterminal::Items),
        ]),
        Terminal::Fixed(Fixed::Void) => plain(&[
            Name,
            Token(Fixed::OpenParen),
            Expand(Nonterminal::Params),
            Expand(Nonterminal::Effects(false)),
            Perform(Item(ItemAction::Method(ReturnType::Void))),
            Expand(Nonterminal::Items),
        ]),
        Terminal::Fixed(Fixed::Task) => plain(&[
            Expand(Nonterminal::TaskReturns(false)),
            Expand(Nonterminal::Items),
        ]),
        Terminal::Fixed(Fixed::Deterministic) => plain(&[
            Token(Fixed::Task),
            Expand(Nonterminal::TaskReturns(true)),
            Expand(Nonterminal::Items),
        ]),
        _ => None,
    }
}

/// After the name of a region.
pub(crate) fn more_regions(next: Terminal) -> Option<Production>
    ensures { result ≡ more_regions_production next }
{
    match next {
        Terminal::Fixed(Fixed::Comma) => plain(&[
            Name,
            Perform(Item(ItemAction::KeepName)),
            Expand(Nonterminal::MoreRegions),
        ]),
        Terminal::Fixed(Fixed::Semicolon) => plain(&[Perform(Item(ItemAction::Regions))]),
        _ => None,
    }
}

/// After `int` and a name, at the top of a program.
pub(crate) fn after_int(next: Terminal) -> Option<Production>
    ensures { result ≡ after_int_production next }
{
    match next {
        Terminal::Fixed(Fixed::In) => plain(&[Expand(Nonterminal::CellPath(CellKind::Scalar))]),
        Terminal::Fixed(Fixed::OpenBracket) => plain(&[
            Literal,
            Token(Fixed::CloseBracket),
            Expand(Nonterminal::AfterLength),
        ]),
        Terminal::Fixed(Fixed::OpenParen) => plain(&[
            Expand(Nonterminal::Params),
            Expand(Nonterminal::Effects(false)),
            Perform(Item(ItemAction::Method(ReturnType::Int))),
        ]),
        _ => None,
    }
}

/// After the length of an array.
pub(crate) fn after_length(next: Terminal) -> Option<Production>
    ensures { result ≡ after_length_production next }
{
    match next {
        Terminal::Fixed(Fixed::In) => plain(&[Expand(Nonterminal::CellPath(CellKind::Array))]),
        Terminal::Fixed(Fixed::OpenBracket) => plain(&[
            Literal,
            Token(Fixed::CloseBracket),
            Token(Fixed::In),
            Expand(Nonterminal::CellPath(CellKind::Grid)),
        ]),
        _ => None,
    }
}

/// The beginning of the path of a cell.
pub(crate) fn cell_path(kind: CellKind, next: Terminal) -> Option<Production>
    ensures { result ≡ cell_path_production kind next }
{
    match next {
        Terminal::Fixed(Fixed::Root) => marked(&[Expand(Nonterminal::CellRest(kind))]),
        Terminal::Name => marked(&[
            Perform(Item(ItemAction::CellElemName)),
            Expand(Nonterminal::CellRest(kind)),
        ]),
        _ => None,
    }
}

/// After an element of the path of a cell.
pub(crate) fn cell_rest(kind: CellKind, next: Terminal) -> Option<Production>
    ensures { result ≡ cell_rest_production kind next }
{
    match next {
        Terminal::Fixed(Fixed::Colon) => plain(&[
            Expand(Nonterminal::CellElem),
            Expand(Nonterminal::CellRest(kind)),
        ]),
        Terminal::Fixed(Fixed::Semicolon) => plain(&[Perform(Item(ItemAction::Cell(kind)))]),
        Terminal::Fixed(Fixed::Assign) if matches!(kind, CellKind::Scalar) => plain(&[Expand(
            Nonterminal::Initial,
        )]),
        _ => None,
    }
}

/// An element of the path of a cell.
pub(crate) fn cell_elem(next: Terminal) -> Option<Production>
    ensures { result ≡ cell_elem_production next }
{
    match next {
        Terminal::Name => plain(&[Perform(Item(ItemAction::CellElemName))]),
        Terminal::Fixed(Fixed::OpenBracket) => marked(&[
            Literal,
            Token(Fixed::CloseBracket),
            Perform(Item(ItemAction::CellElemIndex)),
        ]),
        _ => None,
    }
}

/// The initial value of a cell, after `=`.
pub(crate) fn initial(next: Terminal) -> Option<Production>
    ensures { result ≡ initial_production next }
{
    match next {
        Terminal::Fixed(Fixed::Minus) => plain(&[
            Literal,
            Token(Fixed::Semicolon),
            Perform(Item(ItemAction::CellInitial(true))),
        ]),
        Terminal::Literal => plain(&[
            Token(Fixed::Semicolon),
            Perform(Item(ItemAction::CellInitial(false))),
        ]),
        _ => None,
    }
}

/// After `task`.
pub(crate) fn task_returns(deterministic: bool, next: Terminal) -> Option<Production>
    ensures { result ≡ task_returns_production deterministic next }
{
    match next {
        Terminal::Fixed(Fixed::Int) => plain(&[
            Name,
            Token(Fixed::OpenParen),
            Expand(Nonterminal::Params),
            Expand(Nonterminal::Effects(true)),
            Perform(Item(ItemAction::Task(deterministic, ReturnType::Int))),
        ]),
        Terminal::Fixed(Fixed::Void) => plain(&[
            Name,
            Token(Fixed::OpenParen),
            Expand(Nonterminal::Params),
            Expand(Nonterminal::Effects(true)),
            Perform(Item(ItemAction::Task(deterministic, ReturnType::Void))),
        ]),
        _ => None,
    }
}
