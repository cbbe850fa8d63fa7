//! The productions of statements.
ghost use Rattle.std.specs.Prelude.{◌≡◌};
ghost use Rattle.twe_parser.specs.inner.Productions.{after_arm_production, after_index_production, after_name_production, else_body_production, int_value_production, local_type_production, return_value_production, statements_production};

use crate::expression_productions::unary_then;
use crate::production::{Production, marked, operand_then, plain};
use crate::statement_starts::{
    block, boolean_local, if_statement, int_local, make_statement, print_statement,
    return_statement, statement_then, while_statement,
};
use crate::symbol::Action::{Expr, Stmt};
use crate::symbol::Symbol::{Expand, Name, Perform, Token};
use crate::symbol::{ExprAction, Nonterminal, StmtAction, Terminal};
use twe_ast::LocalType;
use twe_lexer::Fixed;

/// The statements that are left in a block, and its `}`.
pub(crate) fn statements(in_task: bool, next: Terminal) -> Option<Production>
    ensures { result ≡ statements_production in_task next }
{
    match next {
        Terminal::Fixed(Fixed::CloseBrace) => marked(&[Perform(Stmt(StmtAction::CloseBlock))]),
        Terminal::Fixed(Fixed::OpenBrace) => block(in_task),
        Terminal::Fixed(Fixed::Final) => statement_then(Nonterminal::LocalType(in_task), in_task),
        Terminal::Fixed(Fixed::Int) => int_local(in_task),
        Terminal::Fixed(Fixed::Boolean) => boolean_local(in_task),
        Terminal::Name => statement_then(Nonterminal::AfterName(in_task), in_task),
        Terminal::Fixed(Fixed::If) => if_statement(in_task),
        Terminal::Fixed(Fixed::While) => while_statement(in_task),
        Terminal::Fixed(Fixed::Return) => return_statement(in_task),
        Terminal::Fixed(Fixed::Print) => print_statement(in_task),
        Terminal::Fixed(Fixed::Future) if in_task => make_statement(),
        _ => None,
    }
}

/// After `final`.
pub(crate) fn local_type(in_task: bool, next: Terminal) -> Option<Production>
    ensures { result ≡ local_type_production in_task next }
{
    match next {
        Terminal::Fixed(Fixed::Int) => plain(&[
            Name,
            Token(Fixed::Assign),
            Expand(Nonterminal::IntValue {
                in_task,
                is_final: true,
            }),
        ]),
        Terminal::Fixed(Fixed::Boolean) => plain(&[
            Name,
            Token(Fixed::Assign),
            Expand(Nonterminal::Unary),
            Expand(Nonterminal::Climb(0)),
            Token(Fixed::Semicolon),
            Perform(Stmt(StmtAction::Let(true, LocalType::Boolean))),
        ]),
        _ => None,
    }
}

/// The initial value of an `int` local.
pub(crate) fn int_value(in_task: bool, is_final: bool, next: Terminal) -> Option<Production>
    ensures { result ≡ int_value_production in_task is_final next }
{
    match next {
        Terminal::Name if in_task => plain(&[Expand(Nonterminal::AfterValueName(is_final))]),
        _ => unary_then(
            next,
            &[
                Expand(Nonterminal::Climb(0)),
                Token(Fixed::Semicolon),
                Perform(Stmt(StmtAction::Let(is_final, LocalType::Int))),
            ],
        ),
    }
}

/// After the name that a statement begins with.
pub(crate) fn after_name(in_task: bool, next: Terminal) -> Option<Production>
    ensures { result ≡ after_name_production in_task next }
{
    match next {
        Terminal::Fixed(Fixed::Assign) => operand_then(&[
            Token(Fixed::Semicolon),
            Perform(Stmt(StmtAction::Set)),
        ]),
        Terminal::Fixed(Fixed::OpenBracket) => operand_then(&[
            Token(Fixed::CloseBracket),
            Expand(Nonterminal::AfterIndex),
        ]),
        Terminal::Fixed(Fixed::OpenParen) => plain(&[
            Perform(Expr(ExprAction::NewArgs)),
            Expand(Nonterminal::Args),
            Token(Fixed::Semicolon),
            Perform(Stmt(StmtAction::CallStatement)),
        ]),
        Terminal::Fixed(Fixed::Dot) if in_task => plain(&[Expand(Nonterminal::Awaited)]),
        _ => None,
    }
}

/// After the index of an assignment.
pub(crate) fn after_index(next: Terminal) -> Option<Production>
    ensures { result ≡ after_index_production next }
{
    match next {
        Terminal::Fixed(Fixed::Assign) => operand_then(&[
            Token(Fixed::Semicolon),
            Perform(Stmt(StmtAction::SetArray)),
        ]),
        Terminal::Fixed(Fixed::OpenBracket) => operand_then(&[
            Token(Fixed::CloseBracket),
            Token(Fixed::Assign),
            Expand(Nonterminal::Unary),
            Expand(Nonterminal::Climb(0)),
            Token(Fixed::Semicolon),
            Perform(Stmt(StmtAction::SetGrid)),
        ]),
        _ => None,
    }
}

/// After a block of an `if`.
pub(crate) fn after_arm(in_task: bool, next: Terminal) -> Option<Production>
    ensures { result ≡ after_arm_production in_task next }
{
    match next {
        Terminal::Fixed(Fixed::Else) => plain(&[Expand(Nonterminal::ElseBody(in_task))]),
        _ => None,
    }
}

/// After `else`.
pub(crate) fn else_body(in_task: bool, next: Terminal) -> Option<Production>
    ensures { result ≡ else_body_production in_task next }
{
    match next {
        Terminal::Fixed(Fixed::If) => plain(&[
            Token(Fixed::OpenParen),
            Expand(Nonterminal::Unary),
            Expand(Nonterminal::Climb(0)),
            Token(Fixed::CloseParen),
            Token(Fixed::OpenBrace),
            Perform(Stmt(StmtAction::NewBlock)),
            Expand(Nonterminal::Statements(in_task)),
            Perform(Stmt(StmtAction::KeepArm)),
            Expand(Nonterminal::AfterArm(in_task)),
        ]),
        Terminal::Fixed(Fixed::OpenBrace) => plain(&[
            Perform(Stmt(StmtAction::NewBlock)),
            Expand(Nonterminal::Statements(in_task)),
            Perform(Stmt(StmtAction::CloseIfElse)),
        ]),
        _ => None,
    }
}

/// After `return`.
pub(crate) fn return_value(next: Terminal) -> Option<Production>
    ensures { result ≡ return_value_production next }
{
    match next {
        Terminal::Fixed(Fixed::Semicolon) => plain(&[Perform(Stmt(StmtAction::ReturnNothing))]),
        _ => unary_then(
            next,
            &[
                Expand(Nonterminal::Climb(0)),
                Token(Fixed::Semicolon),
                Perform(Stmt(StmtAction::Return)),
            ],
        ),
    }
}
