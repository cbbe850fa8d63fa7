//! The limits on the tokens of a text.
ghost use Rattle.std.specs.Prelude.{◌≡◌, ◌≤◌, false};
ghost use Rattle.twe_base.specs.Language.{max_open_brackets, max_operators};
ghost use Rattle.twe_parser.specs.Limits.{opens, closes, is_operator, ends_statement, ends_operand, is_minus, sofar_after, limits_at_start, is_too_large, is_too_deep};

use twe_base::{MAX_LITERAL, MAX_OPEN_BRACKETS, MAX_OPERATORS};
use twe_lexer::{Fixed, TokenKind};

/// The counts for the limits, after the tokens so far.
#[derive(Clone, Copy, Debug, PartialEq, Eq)]
pub struct Sofar {
    /// How many brackets are open.
    pub open_brackets: u32,
    /// How many operators the statement has.
    pub operators: u32,
    /// Whether the last token can end an operand.
    pub operand_ended: bool,
    /// Whether the last token is a unary minus.
    pub unary_minus: bool,
}

/// Whether the token opens a bracket.
pub fn opens(kind: &TokenKind) -> bool
    ensures { result ≡ opens kind.now }
{
    matches!(
        kind,
        TokenKind::Fixed(Fixed::OpenBrace | Fixed::OpenParen | Fixed::OpenBracket)
    )
}

/// Whether the token closes a bracket.
fn closes(kind: &TokenKind) -> bool
    ensures { result ≡ closes kind.now }
{
    matches!(
        kind,
        TokenKind::Fixed(Fixed::CloseBrace | Fixed::CloseParen | Fixed::CloseBracket)
    )
}

/// Whether the token is an operator that is counted.
fn is_operator(kind: &TokenKind) -> bool
    ensures { result ≡ is_operator kind.now }
{
    match kind {
        TokenKind::Fixed(fixed) => matches!(
            fixed,
            Fixed::Or
                | Fixed::And
                | Fixed::Equal
                | Fixed::NotEqual
                | Fixed::Less
                | Fixed::LessEqual
                | Fixed::Greater
                | Fixed::GreaterEqual
                | Fixed::Plus
                | Fixed::Minus
                | Fixed::Star
                | Fixed::Slash
                | Fixed::Percent
                | Fixed::Not
        ),
        _ => false,
    }
}

/// Whether the count of operators restarts after the token.
fn ends_statement(kind: &TokenKind) -> bool
    ensures { result ≡ ends_statement kind.now }
{
    matches!(
        kind,
        TokenKind::Fixed(Fixed::Semicolon | Fixed::OpenBrace | Fixed::CloseBrace)
    )
}

/// Whether an operand can end with the token.
fn ends_operand(kind: &TokenKind) -> bool
    ensures { result ≡ ends_operand kind.now }
{
    match kind {
        TokenKind::Name(_) | TokenKind::Literal(_) => true,
        TokenKind::Fixed(fixed) => matches!(
            fixed,
            Fixed::True | Fixed::False | Fixed::CloseParen | Fixed::CloseBracket
        ),
        TokenKind::Stray => false,
    }
}

/// Whether the token is a `-`.
fn is_minus(kind: &TokenKind) -> bool
    ensures { result ≡ is_minus kind.now }
{
    matches!(kind, TokenKind::Fixed(Fixed::Minus))
}

impl Sofar {
    /// Before the first token.
    pub(crate) fn new() -> Self
        ensures { result ≡ limits_at_start }
    {
        Sofar {
            open_brackets: 0,
            operators: 0,
            operand_ended: false,
            unary_minus: false,
        }
    }

    /// Whether the token is a literal that is too large in this position.
    pub(crate) fn is_too_large(self, kind: &TokenKind) -> bool
        ensures { result ≡ is_too_large self kind.now }
    {
        match kind {
            TokenKind::Literal(value) => {
                *value > MAX_LITERAL && !(*value == MAX_LITERAL + 1 && self.unary_minus)
            }
            _ => false,
        }
    }

    /// Whether the token opens one bracket too many, or is one operator too many.
    pub(crate) fn is_too_deep(self, kind: &TokenKind) -> bool
        ensures { result ≡ is_too_deep self kind.now }
    {
        (opens(kind) && self.open_brackets >= MAX_OPEN_BRACKETS as u32)
            || (is_operator(kind)
                && self.open_brackets > 0
                && self.operators >= MAX_OPERATORS as u32)
    }

    /// How many brackets are open after the token.
    fn brackets_after(self, kind: &TokenKind) -> u32
        requires { self.open_brackets ≤ max_open_brackets }
        ensures { result ≡ (sofar_after self kind.now).open_brackets }
    {
        if opens(kind) {
            self.open_brackets + 1
        } else if closes(kind) {
            self.open_brackets.saturating_sub(1)
        } else {
            self.open_brackets
        }
    }

    /// How many operators the statement has after the token.
    fn operators_after(self, kind: &TokenKind) -> u32
        requires { self.operators ≤ max_operators }
        ensures { result ≡ (sofar_after self kind.now).operators }
    {
        if ends_statement(kind) {
            0
        } else if is_operator(kind) && self.open_brackets > 0 {
            self.operators + 1
        } else {
            self.operators
        }
    }

    /// The counts after one more token.
    pub(crate) fn after(self, kind: &TokenKind) -> Self
        requires brackets { self.open_brackets ≤ max_open_brackets }
        requires operators { self.operators ≤ max_operators }
        ensures { result ≡ sofar_after self kind.now }
    {
        Sofar {
            open_brackets: self.brackets_after(kind),
            operators: self.operators_after(kind),
            operand_ended: ends_operand(kind),
            unary_minus: is_minus(kind) && !self.operand_ended,
        }
    }
}
