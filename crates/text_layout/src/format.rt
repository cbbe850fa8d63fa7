//! A text in its layout.
ghost use Rattle.std.specs.Prelude.{IfOk, IfErr};
ghost use Rattle.text_pieces.specs.Pieces.{StopsCut};
ghost use Rattle.text_layout.specs.InLayout.{IsInLayout};

use crate::writing::layout_text;
use std::alloc::Global;
use text_pieces::cut_text;
use twe_base::Bytes;
use twe_lexer::LexemeFail;

/// The text in its layout: the same tokens and comments in the same order. What was laid out stays as it is. It fails as
/// `cut_text` does. It takes time and memory linear in the lengths of both texts.
pub fn lay_out(alloc: Global, text: &[u8]) -> Result<Bytes, LexemeFail>
    ensures laid_out { IfOk result (λ written. IsInLayout text.now written) }
    ensures stops { IfErr result (λ fail. StopsCut fail text.now) }
{
    let pieces = cut_text(alloc, text)?;
    Ok(layout_text(alloc, pieces.as_slice())?)
}
