//! Operators with two operands, by their tokens.
ghost use Rattle.std.specs.Prelude.{◌≡◌};
ghost use Rattle.twe_parser.specs.inner.Operators.{operator_of};

use crate::symbol::Terminal;
use twe_ast::BinOp;
use twe_lexer::Fixed;

/// The operator that the token stands for between two operands, or `None` if it is no such operator.
pub(crate) fn operator_of(next: Terminal) -> Option<BinOp>
    ensures { result ≡ operator_of next }
{
    match next {
        Terminal::Fixed(Fixed::Or) => Some(BinOp::Or),
        Terminal::Fixed(Fixed::And) => Some(BinOp::And),
        Terminal::Fixed(Fixed::Equal) => Some(BinOp::Equal),
        Terminal::Fixed(Fixed::NotEqual) => Some(BinOp::NotEqual),
        Terminal::Fixed(Fixed::Less) => Some(BinOp::Less),
        Terminal::Fixed(Fixed::LessEqual) => Some(BinOp::LessEqual),
        Terminal::Fixed(Fixed::Greater) => Some(BinOp::Greater),
        Terminal::Fixed(Fixed::GreaterEqual) => Some(BinOp::GreaterEqual),
        Terminal::Fixed(Fixed::Plus) => Some(BinOp::Add),
        Terminal::Fixed(Fixed::Minus) => Some(BinOp::Sub),
        Terminal::Fixed(Fixed::Star) => Some(BinOp::Mul),
        Terminal::Fixed(Fixed::Slash) => Some(BinOp::Div),
        Terminal::Fixed(Fixed::Percent) => Some(BinOp::Rem),
        _ => None,
    }
}
