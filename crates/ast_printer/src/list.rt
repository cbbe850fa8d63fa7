//! Lists with a keyword or a symbol between their pieces.
#![tactic(auto, using(crate::proofs::Texts::append_text, std::proofs::lemmas::Grind::common_steps))]

ghost use Rattle.std.specs.Prelude.{◌≡◌, ◌++◌, List, OnOk};
ghost use Rattle.twe_lexer.specs.declared.token.TokenKind.{TokenKind};
ghost use Rattle.ast_printer.specs.Text.{text_of};
ghost use Rattle.ast_printer.specs.inner.Listed.{listed};

use crate::token::push_when;
use twe_base::{Bytes, Memory};
use twe_lexer::Fixed;

/// What stands in a list.
pub(crate) trait Piece {
    /// The tokens that are written.
    ghost tokens: { Self → List TokenKind };

    /// Writes it.
    fn write(&self, text: &mut Bytes) -> Result<(), Memory>
        ensures { OnOk result (text.new ≡ text.old ++ text_of (tokens self.now)) };
}

/// Writes pieces with a separator between them. `later` is whether something comes before them.
pub(crate) fn push_list<P: Piece>(
    text: &mut Bytes,
    pieces: &[P],
    separator: Fixed,
    mut later: bool,
) -> Result<(), Memory>
    ensures { OnOk result (text.new ≡ text.old ++ text_of (listed P.tokens separator later pieces.now)) }
{
    for piece in pieces {
        push_when(text, later, separator)?;
        piece.write(text)?;
        later = true;
    }
    Ok(())
}
