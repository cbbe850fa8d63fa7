//! Tokens.
ghost use Rattle.std.specs.Prelude.{◌≡◌, IfOk, IsAscii};
ghost use Rattle.twe_lexer.specs.Kinds.{kind_of};
ghost use Rattle.twe_lexer.specs.Lexeme.{is_word, is_number};

use crate::bytes::{are_digits, are_word_bytes, is_letter};
use crate::fixed::{Fixed, spelled};
use crate::literal::literal_value;
use std::alloc::Global;
use twe_base::{Memory, Place, Word};

/// A token, and the place of its first byte.
#[derive(Debug, Drop)]
pub struct Token {
    /// Its kind, with the value of a name or a literal.
    pub kind: TokenKind,
    /// The place of its first byte.
    pub place: Place,
}

/// The kind of a token, with the value of a name or a literal.
#[derive(Debug, Drop)]
pub enum TokenKind {
    /// A name: a letter or `_`, then letters, digits and `_`. It is not a keyword.
    Name(Word),
    /// An integer literal: its value, or 2147483649 if it is above 2147483648.
    Literal(u32),
    /// A keyword or a symbol.
    Fixed(Fixed),
    /// One byte that begins no token of the language.
    Stray,
}

/// Whether the bytes are a letter or `_`, followed by letters, digits and `_`.
fn is_word(bytes: &[u8]) -> bool
    ensures { result ≡ is_word bytes.now }
{
    match bytes.split_first() {
        Some((first, others)) => is_letter(*first) && are_word_bytes(others),
        None => false,
    }
}

/// Whether the bytes are one or more digits.
fn is_number(bytes: &[u8]) -> bool
    ensures { result ≡ is_number bytes.now }
{
    match bytes.split_first() {
        Some((first, others)) => first.is_ascii_digit() && are_digits(others),
        None => false,
    }
}

impl TokenKind {
    /// The kind of the token that consists of these bytes.
    pub(crate) fn new(alloc: Global, bytes: &[u8]) -> Result<Self, Memory>
        requires { IsAscii bytes.now }
        ensures { IfOk result (λ kind. kind ≡ kind_of bytes.now) }
    {
        if is_number(bytes) {
            return Ok(TokenKind::Literal(literal_value(bytes)));
        }
        let Ok(text) = str::from_utf8(bytes) else {
            unreachable!()
        };
        if let Some(fixed) = spelled(text) {
            return Ok(TokenKind::Fixed(fixed));
        }
        if is_word(bytes) {
            return Ok(TokenKind::Name(Word::from_text(alloc, text)?));
        }
        Ok(TokenKind::Stray)
    }
}
