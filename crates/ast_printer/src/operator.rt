//! The tokens of operators with two operands.
ghost use Rattle.std.specs.Prelude.{◌≡◌};
ghost use Rattle.twe_parser.specs.OperatorTokens.{operator};

use twe_ast::BinOp;
use twe_lexer::Fixed;

/// The token of an operator.
pub(crate) fn operator_token(op: BinOp) -> Fixed
    ensures { result ≡ operator op }
{
    match op {
        BinOp::Or => Fixed::Or,
        BinOp::And => Fixed::And,
        BinOp::Equal => Fixed::Equal,
        BinOp::NotEqual => Fixed::NotEqual,
        BinOp::Less => Fixed::Less,
        BinOp::LessEqual => Fixed::LessEqual,
        BinOp::Greater => Fixed::Greater,
        BinOp::GreaterEqual => Fixed::GreaterEqual,
        BinOp::Add => Fixed::Plus,
        BinOp::Sub => Fixed::Minus,
        BinOp::Mul => Fixed::Star,
        BinOp::Div => Fixed::Slash,
        BinOp::Rem => Fixed::Percent,
    }
}
