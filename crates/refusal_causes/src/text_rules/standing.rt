//! The token at a place.
ghost use Rattle.std.specs.Prelude.{◌≡◌, IfOk};
ghost use Rattle.twe_lexer.specs.Kinds.{kind_of};
ghost use Rattle.refusal_causes.specs.text_rules.inner.Standing.{StandsAt};

use crate::text_rules::behind::from_place;
use std::alloc::Global;
use twe_base::{Memory, Place};
use twe_lexer::{Lexeme, LexemeFail, TokenKind, first_lexeme};

/// The first lexeme of what stands at the place, if a token stands there.
fn lexeme_at(alloc: Global, text: &[u8], place: Place) -> Result<Lexeme, Memory>
    requires { StandsAt text.now place }
    ensures { IfOk result (λ lexeme. (stands : StandsAt text.now place) → lexeme.token ≡ Some (kind_of stands.bytes)) }
{
    match first_lexeme(alloc, from_place(text, place)) {
        Ok(lexeme) => Ok(lexeme),
        Err(LexemeFail::NotAllowed(_)) => unreachable!(),
        Err(LexemeFail::Unclosed) => unreachable!(),
        Err(LexemeFail::OutOfMemory(memory)) => Err(memory),
    }
}

/// The kind of the token at the place.
pub(crate) fn kind_at(alloc: Global, text: &[u8], place: Place) -> Result<TokenKind, Memory>
    requires { StandsAt text.now place }
    ensures { IfOk result (λ kind. (stands : StandsAt text.now place) → kind ≡ kind_of stands.bytes) }
{
    let lexeme = lexeme_at(alloc, text, place)?;
    match lexeme.token {
        Some(kind) => Ok(kind),
        None => unreachable!(),
    }
}
