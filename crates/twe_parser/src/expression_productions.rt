//! The productions of expressions and arguments.
ghost use Rattle.std.specs.Prelude.{◌≡◌, ◌≤◌, length, IfSome};
ghost use Rattle.twe_parser.specs.inner.Productions.{after_minus_production, args_production, climb_production, more_args_production, second_index_production, suffix_production, unary_production, followed};
ghost use Rattle.twe_parser.specs.inner.Operators.{operator_of};

use crate::operator::operator_of;
use crate::production::{Production, marked, operand_then, plain};
use crate::symbol::Action::Expr;
use crate::symbol::Symbol::{Expand, Perform, Token};
use crate::symbol::{ExprAction, Nonterminal, Symbol, Terminal};
use twe_lexer::Fixed;

/// The productions of an operand. Each has at most four symbols after its first token.
pub(crate) fn unary(next: Terminal) -> Option<Production>
    ensures production { result ≡ unary_production next }
    ensures short { IfSome result (λ production. length production.right_side ≤ 4) }
{
    match next {
        Terminal::Literal => marked(&[Perform(Expr(ExprAction::Literal))]),
        Terminal::Fixed(Fixed::True) => marked(&[Perform(Expr(ExprAction::Truth(true)))]),
        Terminal::Fixed(Fixed::False) => marked(&[Perform(Expr(ExprAction::Truth(false)))]),
        Terminal::Name => plain(&[Expand(Nonterminal::Suffix)]),
        Terminal::Fixed(Fixed::OpenParen) => marked(&[
            Expand(Nonterminal::Unary),
            Expand(Nonterminal::Climb(0)),
            Token(Fixed::CloseParen),
            Perform(Expr(ExprAction::Enclose)),
        ]),
        Terminal::Fixed(Fixed::Minus) => marked(&[Expand(Nonterminal::AfterMinus)]),
        Terminal::Fixed(Fixed::Not) => marked(&[
            Expand(Nonterminal::Unary),
            Expand(Nonterminal::Climb(6)),
            Perform(Expr(ExprAction::Not)),
        ]),
        _ => None,
    }
}

/// After a `-` before an operand.
pub(crate) fn after_minus(next: Terminal) -> Option<Production>
    ensures { result ≡ after_minus_production next }
{
    match next {
        Terminal::Literal => marked(&[Perform(Expr(ExprAction::MinusLiteral))]),
        _ => unary_then(
            next,
            &[
                Expand(Nonterminal::Climb(6)),
                Perform(Expr(ExprAction::Negate)),
            ],
        ),
    }
}

/// After a name in an expression.
pub(crate) fn suffix(next: Terminal) -> Option<Production>
    ensures { result ≡ suffix_production next }
{
    match next {
        Terminal::Fixed(Fixed::OpenParen) => plain(&[
            Perform(Expr(ExprAction::NewArgs)),
            Expand(Nonterminal::Args),
            Perform(Expr(ExprAction::CallValue)),
        ]),
        Terminal::Fixed(Fixed::OpenBracket) => operand_then(&[
            Token(Fixed::CloseBracket),
            Expand(Nonterminal::SecondIndex),
        ]),
        _ => None,
    }
}

/// After the index of an element.
pub(crate) fn second_index(next: Terminal) -> Option<Production>
    ensures { result ≡ second_index_production next }
{
    match next {
        Terminal::Fixed(Fixed::OpenBracket) => operand_then(&[
            Token(Fixed::CloseBracket),
            Perform(Expr(ExprAction::GridElement)),
        ]),
        _ => None,
    }
}

/// After the `(` of arguments.
pub(crate) fn args(next: Terminal) -> Option<Production>
    ensures { result ≡ args_production next }
{
    match next {
        Terminal::Fixed(Fixed::CloseParen) => plain(&[]),
        _ => unary_then(
            next,
            &[
                Expand(Nonterminal::Climb(0)),
                Perform(Expr(ExprAction::KeepArg)),
                Expand(Nonterminal::MoreArgs),
            ],
        ),
    }
}

/// After an argument.
pub(crate) fn more_args(next: Terminal) -> Option<Production>
    ensures { result ≡ more_args_production next }
{
    match next {
        Terminal::Fixed(Fixed::CloseParen) => plain(&[]),
        Terminal::Fixed(Fixed::Comma) => operand_then(&[
            Perform(Expr(ExprAction::KeepArg)),
            Expand(Nonterminal::MoreArgs),
        ]),
        _ => None,
    }
}

/// After an operand: an operator of at least this precedence.
pub(crate) fn climb(level: u8, next: Terminal) -> Option<Production>
    ensures { result ≡ climb_production level next }
{
    match operator_of(next) {
        Some(op) if level <= op.level() => marked(&[
            Expand(Nonterminal::Unary),
            Expand(Nonterminal::Climb(op.level() + 1)),
            Perform(Expr(ExprAction::Binary(op))),
            Expand(Nonterminal::Climb(level)),
        ]),
        _ => None,
    }
}

/// The production of an operand, followed by more symbols, or `None` if no operand begins with this token.
pub(crate) fn unary_then(next: Terminal, more: &[Symbol]) -> Option<Production>
    requires { length more.now ≤ 8 }
    ensures { result ≡ followed (unary_production next) more.now }
{
    let production = unary(next)?;
    Some(Production {
        mark: production.mark,
        right_side: production.right_side.followed_by(more),
    })
}
