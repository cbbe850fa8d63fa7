//! The next lexeme of a text that fails no rule.
ghost use Rattle.std.specs.Prelude.{ℕ, ◌<◌, length, IfOk};
ghost use Rattle.twe_lexer.specs.Front.{Opens, StopsAt};
ghost use Rattle.twe_lexer.specs.Lexeme.{IsUnclosedComment};

use std::alloc::Global;
use twe_base::Memory;
use twe_lexer::{Lexeme, LexemeFail, first_lexeme};

/// The first lexeme of a text in which each byte is allowed and each comment has an end.
pub(crate) fn next_lexeme(alloc: Global, text: &[u8]) -> Result<Lexeme, Memory>
    requires some { 0 < length text.now }
    requires allowed { (at : ℕ) → ¬ StopsAt at text.now }
    requires closed { ¬ IsUnclosedComment text.now }
    ensures { IfOk result (λ lexeme. Opens lexeme text.now) }
{
    match first_lexeme(alloc, text) {
        Ok(lexeme) => Ok(lexeme),
        Err(LexemeFail::OutOfMemory(memory)) => Err(memory),
        Err(LexemeFail::NotAllowed(_) | LexemeFail::Unclosed) => unreachable!(),
    }
}
