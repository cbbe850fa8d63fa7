//! The productions of waits and of the making of tasks, and those of the initial value of an `int` local in a task.
ghost use Rattle.std.specs.Prelude.{◌≡◌, ◌∷◌, [], false, Some};
ghost use Rattle.twe_lexer.specs.declared.fixed.Fixed.TheVariants as fixed;
ghost use Rattle.twe_parser.specs.declared.symbol.Action.TheVariants as actions;
ghost use Rattle.twe_parser.specs.declared.symbol.ExprAction.TheVariants as exprs;
ghost use Rattle.twe_parser.specs.declared.symbol.Nonterminal.TheVariants as nonterminals;
ghost use Rattle.twe_parser.specs.declared.symbol.Symbol.TheVariants as symbols;
ghost use Rattle.twe_parser.specs.inner.Productions.{after_value_name_production, awaited_production, awaited_value_production, make_production, operator_after_name_production};
ghost use Rattle.twe_parser.specs.inner.Operators.{operator_of};

use crate::operator::operator_of;
use crate::production::{Production, marked, operand_then, plain};
use crate::symbol::Action::{Expr, Stmt};
use crate::symbol::Symbol::{Expand, Perform, Token};
use crate::symbol::{ExprAction, Nonterminal, StmtAction, Symbol, Terminal, WaitKind};
use twe_ast::LocalType;
use twe_lexer::Fixed;

/// In a task, after `int`, a name, `=` and a name.
pub(crate) fn after_value_name(is_final: bool, next: Terminal) -> Option<Production>
    ensures { result ≡ after_value_name_production is_final next }
{
    let take = Perform(Stmt(StmtAction::Let(is_final, LocalType::Int)));
    match next {
        Terminal::Fixed(Fixed::Dot) => plain(&[Expand(Nonterminal::AwaitedValue(is_final))]),
        Terminal::Fixed(Fixed::Semicolon) => plain(&[Perform(Expr(ExprAction::Variable)), take]),
        Terminal::Fixed(Fixed::OpenParen) => plain(&[
            Perform(Expr(ExprAction::NewArgs)),
            Expand(Nonterminal::Args),
            Perform(Expr(ExprAction::CallValue)),
            Expand(Nonterminal::Climb(0)),
            Token(Fixed::Semicolon),
            take,
        ]),
        Terminal::Fixed(Fixed::OpenBracket) => operand_then(&[
            Token(Fixed::CloseBracket),
            Expand(Nonterminal::SecondIndex),
            Expand(Nonterminal::Climb(0)),
            Token(Fixed::Semicolon),
            take,
        ]),
        _ => operator_after_name(next, take),
    }
}

/// An operator after the name that the initial value begins with.
fn operator_after_name(next: Terminal, take: Symbol) -> Option<Production>
    ensures { result ≡ operator_after_name_production (operator_of next) take }
{
    match operator_of(next) {
        Some(op) => marked(&[
            Perform(Expr(ExprAction::Variable)),
            Expand(Nonterminal::Unary),
            Expand(Nonterminal::Climb(op.level() + 1)),
            Perform(Expr(ExprAction::Binary(op))),
            Expand(Nonterminal::Climb(0)),
            Token(Fixed::Semicolon),
            take,
        ]),
        None => None,
    }
}

/// The production after `getValue` or `join`, which ends with this action.
fn awaits(action: StmtAction) -> Option<Production>
    ensures { result ≡ Some (record {
      mark = false;
      right_side =
          symbols.Token fixed.OpenParen ∷ symbols.Token fixed.CloseParen ∷ symbols.Token fixed.Semicolon
          ∷ symbols.Perform (actions.Stmt action) ∷ [];
    }) }
{
    plain(&[
        Token(Fixed::OpenParen),
        Token(Fixed::CloseParen),
        Token(Fixed::Semicolon),
        Perform(Stmt(action)),
    ])
}

/// The production after `spawn` or `executeLater`, which ends with this action.
fn makes(action: StmtAction) -> Option<Production>
    ensures { result ≡ Some (record {
      mark = false;
      right_side =
          symbols.Token fixed.OpenParen ∷ symbols.Perform (actions.Expr exprs.NewArgs) ∷ symbols.Expand nonterminals.Args
          ∷ symbols.Token fixed.Semicolon ∷ symbols.Perform (actions.Stmt action) ∷ [];
    }) }
{
    plain(&[
        Token(Fixed::OpenParen),
        Perform(Expr(ExprAction::NewArgs)),
        Expand(Nonterminal::Args),
        Token(Fixed::Semicolon),
        Perform(Stmt(action)),
    ])
}

/// After the `.` of a wait.
pub(crate) fn awaited(next: Terminal) -> Option<Production>
    ensures { result ≡ awaited_production next }
{
    match next {
        Terminal::Fixed(Fixed::GetValue) => awaits(StmtAction::Wait(WaitKind::GetValue)),
        Terminal::Fixed(Fixed::Join) => awaits(StmtAction::Wait(WaitKind::Join)),
        _ => None,
    }
}

/// After the `.` of a wait that initializes a local.
pub(crate) fn awaited_value(is_final: bool, next: Terminal) -> Option<Production>
    ensures { result ≡ awaited_value_production is_final next }
{
    match next {
        Terminal::Fixed(Fixed::GetValue) => awaits(StmtAction::LetWait(
            is_final,
            WaitKind::GetValue,
        )),
        Terminal::Fixed(Fixed::Join) => awaits(StmtAction::LetWait(is_final, WaitKind::Join)),
        _ => None,
    }
}

/// After the `.` of the making of a task.
pub(crate) fn make(next: Terminal) -> Option<Production>
    ensures { result ≡ make_production next }
{
    match next {
        Terminal::Fixed(Fixed::Spawn) => makes(StmtAction::Make(true)),
        Terminal::Fixed(Fixed::ExecuteLater) => makes(StmtAction::Make(false)),
        _ => None,
    }
}
