//! One step of the parser: the next lexeme, and the token if it is one.
ghost use Rattle.std.specs.Prelude.{◌≡◌, ◌+◌, ◌<◌, ◌≤◌, ◌^◌, length, IfOk, IfErr};
ghost use Rattle.twe_lexer.specs.Front.{Opens};
ghost use Rattle.twe_parser.specs.inner.Parsing.{RefusesLexeme};

use crate::fail::{ParseFail, SRule};
use crate::limits::Sofar;
use crate::machine::Machine;
use std::alloc::Global;
use twe_base::{Memory, Place};
use twe_lexer::{Lexeme, LexemeFail, Token, TokenKind, first_lexeme, place_past};

/// The first lexeme of the rest of a text. `place` is where the rest begins.
pub(crate) fn lexeme_at(alloc: Global, rest: &[u8], place: Place) -> Result<Lexeme, ParseFail>
    requires some { 0 < length rest.now }
    requires lines { place.line + length rest.now < 2 ^ 32 }
    requires columns { place.col + length rest.now < 2 ^ 32 }
    ensures found { IfOk result (λ lexeme. Opens lexeme rest.now) }
    ensures refused { IfErr result (λ fail. RefusesLexeme fail rest.now place) }
{
    match first_lexeme(alloc, rest) {
        Ok(lexeme) => Ok(lexeme),
        Err(LexemeFail::NotAllowed(at)) => Err(ParseFail::Syntax {
            rule: SRule::S1,
            place: place_past(place, &rest[..at]),
        }),
        Err(LexemeFail::Unclosed) => Err(ParseFail::Syntax {
            rule: SRule::S6,
            place,
        }),
        Err(LexemeFail::OutOfMemory(memory)) => Err(ParseFail::OutOfMemory(memory)),
    }
}

/// The machine, and the counts for the limits after the tokens that it has read.
#[derive(Drop)]
pub(crate) struct Parser {
    /// The machine.
    pub(crate) machine: Machine,
    /// The counts for the limits.
    pub(crate) sofar: Sofar,
}

impl Parser {
    ghost use Rattle.std.specs.Prelude.{◌≡◌, ◌≤◌, IfOk, IfErr};
    ghost use Rattle.twe_base.specs.Language.{max_open_brackets, max_operators};
    ghost use Rattle.twe_parser.specs.inner.Machine.{start};
    ghost use Rattle.twe_parser.specs.inner.Taking.{Takes, RefusesToken};
    ghost use Rattle.twe_parser.specs.Limits.{limits_at_start};

    /// Before the first token.
    pub(crate) fn new(alloc: Global) -> Result<Self, Memory>
        ensures machine { IfOk result (λ parser. (parser.machine.stack, parser.machine.values) ≡ start) }
        ensures sofar { IfOk result (λ parser. parser.sofar ≡ limits_at_start) }
    {
        Ok(Parser {
            machine: Machine::new(alloc)?,
            sofar: Sofar::new(),
        })
    }

    /// Reads the next token, or returns the first rule that fails at it. After an `Err` the state of the parser is
    /// unspecified.
    pub(crate) fn take(
        &mut self,
        alloc: Global,
        kind: TokenKind,
        place: Place,
    ) -> Result<(), ParseFail>
        requires brackets { self.old.sofar.open_brackets ≤ max_open_brackets }
        requires operators { self.old.sofar.operators ≤ max_operators }
        ensures taken { IfOk result (λ _. Takes (record { kind = kind; place = place }) self.old self.new) }
        ensures refused { IfErr result (λ fail. RefusesToken fail (record { kind = kind; place = place }) self.old) }
    {
        let too_large = self.sofar.is_too_large(&kind);
        let too_deep = self.sofar.is_too_deep(&kind);
        let next = self.sofar.after(&kind);
        if !self.machine.take(alloc, Token { kind, place })? {
            return Err(ParseFail::Syntax {
                rule: SRule::S2,
                place,
            });
        }
        if too_large {
            return Err(ParseFail::Syntax {
                rule: SRule::S4,
                place,
            });
        }
        if too_deep {
            return Err(ParseFail::Syntax {
                rule: SRule::S5,
                place,
            });
        }
        self.sofar = next;
        Ok(())
    }
}
