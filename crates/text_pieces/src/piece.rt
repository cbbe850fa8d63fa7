//! A piece of a text: a token or a comment.
ghost use Rattle.std.specs.Prelude.{◌≡◌, length, take, IfOk};
ghost use Rattle.std.specs.List.{suffix_len};
ghost use Rattle.twe_lexer.specs.Kinds.{token_kind};
ghost use Rattle.twe_lexer.specs.Lexeme.{is_blank};
ghost use Rattle.text_pieces.specs.Pieces.{is_white, is_line_feed, start_after, class_of_lexeme, kept_bytes, piece_of};

use std::alloc::Global;
use twe_base::{Bytes, Memory};
use twe_lexer::{Fixed, TokenKind};

/// Where a piece begins.
#[derive(Clone, Copy, Debug, PartialEq, Eq)]
pub enum PieceStart {
    /// On the line on which the piece before it ends. The first piece, too, if no line ends before it.
    Beside,
    /// On the next line.
    Below,
    /// After one empty line or several.
    Apart,
}

/// What a piece is.
#[derive(Clone, Copy, Debug, PartialEq, Eq)]
pub enum Class {
    /// A keyword or a symbol.
    Fixed(Fixed),
    /// A name.
    Name,
    /// An integer literal.
    Literal,
    /// One byte that begins no token of the language.
    Stray,
    /// A comment to the end of its line.
    LineComment,
    /// A comment with an end of its own.
    BlockComment,
}

/// A token or a comment.
#[derive(Debug, Drop)]
pub struct Piece {
    /// Its bytes, of a comment to the end of its line without the blanks at its end.
    pub bytes: Bytes,
    /// What it is.
    pub class: Class,
    /// Where it begins.
    pub start: PieceStart,
}

/// Whether the byte is white space.
fn is_blank(byte: u8) -> bool
    ensures { result ≡ is_blank byte }
{
    byte == b'\t' || byte == b'\n' || byte == b'\r' || byte == b' '
}

/// Whether a lexeme is white space.
pub(crate) fn is_white(bytes: &[u8]) -> bool
    ensures { result ≡ is_white bytes.now }
{
    bytes.len() == 1 && is_blank(bytes[0])
}

/// Where a piece begins after one more byte of white space.
pub(crate) fn start_after(start: PieceStart, white: &[u8]) -> PieceStart
    ensures { result ≡ start_after start white.now }
{
    if white.len() == 1 && white[0] == b'\n' {
        match start {
            PieceStart::Beside => PieceStart::Below,
            PieceStart::Below | PieceStart::Apart => PieceStart::Apart,
        }
    } else {
        start
    }
}

/// What a lexeme is that is not white space.
fn class_of_lexeme(bytes: &[u8], token: &Option<TokenKind>) -> Class
    requires { token.now ≡ token_kind bytes.now }
    ensures { result ≡ class_of_lexeme bytes.now }
{
    match token {
        Some(TokenKind::Name(_)) => Class::Name,
        Some(TokenKind::Literal(_)) => Class::Literal,
        Some(TokenKind::Fixed(fixed)) => Class::Fixed(*fixed),
        Some(TokenKind::Stray) => Class::Stray,
        None => {
            if bytes.starts_with(b"//") {
                Class::LineComment
            } else {
                Class::BlockComment
            }
        }
    }
}

/// How many blanks stand at the end.
fn last_blanks(bytes: &[u8]) -> usize
    ensures { result ≡ suffix_len is_blank bytes.now }
{
    bytes
        .iter()
        .rev()
        .take_while(|byte| is_blank(**byte))
        .count()
}

/// The bytes of a comment to the end of its line without the blanks at its end, and those of any other lexeme.
fn kept_bytes(bytes: &[u8]) -> &[u8]
    ensures { result.now ≡ kept_bytes bytes.now }
{
    if !bytes.starts_with(b"//") {
        return bytes;
    }
    let blanks = last_blanks(bytes);
    &bytes[..bytes.len() - blanks]
}

impl Piece {
    /// The piece that a lexeme is.
    pub(crate) fn new(
        alloc: Global,
        start: PieceStart,
        bytes: &[u8],
        token: &Option<TokenKind>,
    ) -> Result<Self, Memory>
        requires { token.now ≡ token_kind bytes.now }
        ensures { IfOk result (λ piece. piece ≡ piece_of start bytes.now) }
    {
        Ok(Piece {
            bytes: Bytes::from_slice(alloc, kept_bytes(bytes))?,
            class: class_of_lexeme(bytes, token),
            start,
        })
    }
}
