//! A text cut into its pieces.
ghost use Rattle.std.specs.Prelude.{◌≡◌, ℕ, List, ◌∷◌, ◌++◌, IfOk, IfErr};
ghost use Rattle.twe_lexer.specs.Kinds.{token_kind};
ghost use Rattle.text_pieces.specs.Pieces.{pieces_from, IsCutInto, StopsCut};

use crate::piece::{Piece, PieceStart, is_white, start_after};
use std::alloc::Global;
use twe_base::{List, Memory};
use twe_lexer::{LexemeFail, TokenKind, first_lexeme};

/// Adds the piece that a lexeme is, if it is one, and returns where the next one begins if it comes directly after. After an
/// `Err` the pieces are unspecified.
fn add_lexeme(
    alloc: Global,
    pieces: &mut List<Piece>,
    start: PieceStart,
    bytes: &[u8],
    token: &Option<TokenKind>,
) -> Result<PieceStart, Memory>
    requires { token.now ≡ token_kind bytes.now }
    ensures { IfOk result (λ next. (more : List (List ℕ)) →
        pieces.old ++ pieces_from start (bytes.now ∷ more) ≡ pieces.new ++ pieces_from next more) }
{
    if is_white(bytes) {
        return Ok(start_after(start, bytes));
    }
    pieces.push(Piece::new(alloc, start, bytes, token)?)?;
    Ok(PieceStart::Beside)
}

/// The tokens and comments of a text, in their order. It fails at the first lexeme that has a byte that is not allowed, or
/// that is a comment without an end; the number of a byte is counted from the beginning of that lexeme. It takes time and
/// memory linear in the length of the text.
pub fn cut_text(alloc: Global, text: &[u8]) -> Result<List<Piece>, LexemeFail>
    ensures pieces { IfOk result (λ pieces. IsCutInto text.now pieces) }
    ensures stops { IfErr result (λ fail. StopsCut fail text.now) }
{
    let mut pieces: List<Piece> = List::new(alloc);
    let mut start = PieceStart::Beside;
    let mut rest = text;
    while !rest.is_empty() {
        let lexeme = first_lexeme(alloc, rest)?;
        let (bytes, after) = rest.split_at(lexeme.len);
        start = add_lexeme(alloc, &mut pieces, start, bytes, &lexeme.token)?;
        rest = after;
    }
    Ok(pieces)
}
