//! The productions of one statement and the statements after it, by the token that the statement begins with.
ghost use Rattle.std.specs.Prelude.{◌≡◌, [], ◌∷◌, false, true, Some};
ghost use Rattle.twe_lexer.specs.declared.fixed.Fixed.TheVariants as fixed;
ghost use Rattle.twe_parser.specs.declared.symbol.Nonterminal.TheVariants as nonterminals;
ghost use Rattle.twe_parser.specs.declared.symbol.Symbol.TheVariants as symbols;
ghost use Rattle.twe_parser.specs.declared.symbol.Terminal.TheVariants as terminals;
ghost use Rattle.twe_parser.specs.inner.Productions.{statements_production};

use crate::production::{Production, marked, plain};
use crate::symbol::Action::Stmt;
use crate::symbol::Symbol::{Expand, Name, Perform, Token};
use crate::symbol::{Nonterminal, StmtAction};
use twe_ast::LocalType;
use twe_lexer::Fixed;

/// A nonterminal for the rest of the statement, and the statements after it.
pub(crate) fn statement_then(nonterminal: Nonterminal, in_task: bool) -> Option<Production>
    ensures { result ≡ Some (record {
      mark = false;
      right_side = symbols.Expand nonterminal ∷ symbols.Expand (nonterminals.Statements in_task) ∷ [];
    }) }
{
    plain(&[
        Expand(nonterminal),
        Expand(Nonterminal::Statements(in_task)),
    ])
}

/// A block.
pub(crate) fn block(in_task: bool) -> Option<Production>
    ensures { result ≡ statements_production in_task (terminals.Fixed fixed.OpenBrace) }
{
    plain(&[
        Perform(Stmt(StmtAction::NewBlock)),
        Expand(Nonterminal::Statements(in_task)),
        Perform(Stmt(StmtAction::BlockStatement)),
        Expand(Nonterminal::Statements(in_task)),
    ])
}

/// The declaration of an `int` local that is not `final`.
pub(crate) fn int_local(in_task: bool) -> Option<Production>
    ensures { result ≡ statements_production in_task (terminals.Fixed fixed.Int) }
{
    plain(&[
        Name,
        Token(Fixed::Assign),
        Expand(Nonterminal::IntValue {
            in_task,
            is_final: false,
        }),
        Expand(Nonterminal::Statements(in_task)),
    ])
}

/// The declaration of a `boolean` local that is not `final`.
pub(crate) fn boolean_local(in_task: bool) -> Option<Production>
    ensures { result ≡ statements_production in_task (terminals.Fixed fixed.Boolean) }
{
    plain(&[
        Name,
        Token(Fixed::Assign),
        Expand(Nonterminal::Unary),
        Expand(Nonterminal::Climb(0)),
        Token(Fixed::Semicolon),
        Perform(Stmt(StmtAction::Let(false, LocalType::Boolean))),
        Expand(Nonterminal::Statements(in_task)),
    ])
}

/// An `if`.
pub(crate) fn if_statement(in_task: bool) -> Option<Production>
    ensures { result ≡ statements_production in_task (terminals.Fixed fixed.If) }
{
    plain(&[
        Perform(Stmt(StmtAction::NewArms)),
        Token(Fixed::OpenParen),
        Expand(Nonterminal::Unary),
        Expand(Nonterminal::Climb(0)),
        Token(Fixed::CloseParen),
        Token(Fixed::OpenBrace),
        Perform(Stmt(StmtAction::NewBlock)),
        Expand(Nonterminal::Statements(in_task)),
        Perform(Stmt(StmtAction::KeepArm)),
        Expand(Nonterminal::AfterArm(in_task)),
        Expand(Nonterminal::Statements(in_task)),
    ])
}

/// A `while`.
pub(crate) fn while_statement(in_task: bool) -> Option<Production>
    ensures { result ≡ statements_production in_task (terminals.Fixed fixed.While) }
{
    marked(&[
        Token(Fixed::OpenParen),
        Expand(Nonterminal::Unary),
        Expand(Nonterminal::Climb(0)),
        Token(Fixed::CloseParen),
        Token(Fixed::OpenBrace),
        Perform(Stmt(StmtAction::NewBlock)),
        Expand(Nonterminal::Statements(in_task)),
        Perform(Stmt(StmtAction::While)),
        Expand(Nonterminal::Statements(in_task)),
    ])
}

/// A `return`.
pub(crate) fn return_statement(in_task: bool) -> Option<Production>
    ensures { result ≡ statements_production in_task (terminals.Fixed fixed.Return) }
{
    marked(&[
        Expand(Nonterminal::ReturnValue),
        Expand(Nonterminal::Statements(in_task)),
    ])
}

/// A `print`.
pub(crate) fn print_statement(in_task: bool) -> Option<Production>
    ensures { result ≡ statements_production in_task (terminals.Fixed fixed.Print) }
{
    marked(&[
        Token(Fixed::OpenParen),
        Expand(Nonterminal::Unary),
        Expand(Nonterminal::Climb(0)),
        Token(Fixed::CloseParen),
        Token(Fixed::Semicolon),
        Perform(Stmt(StmtAction::Print)),
        Expand(Nonterminal::Statements(in_task)),
    ])
}

/// The making of a task, which is allowed only in tasks.
pub(crate) fn make_statement() -> Option<Production>
    ensures { result ≡ statements_production true (terminals.Fixed fixed.Future) }
{
    plain(&[
        Name,
        Token(Fixed::Assign),
        Name,
        Token(Fixed::Dot),
        Expand(Nonterminal::Make),
        Expand(Nonterminal::Statements(true)),
    ])
}
