//! The reading of a whole text.
ghost use Rattle.std.specs.Prelude.{◌≡◌, ◌+◌, ◌<◌, ◌^◌, [], length, IfOk, IfErr};
ghost use Rattle.twe_parser.specs.Fails.{Refuses};
ghost use Rattle.twe_parser.specs.Limits.{limits_at_start};
ghost use Rattle.twe_parser.specs.inner.Machine.{start};
ghost use Rattle.twe_parser.specs.inner.Reading.{HasRead, EndsEarly, EndsWhole};

use crate::fail::{ParseFail, SRule};
use crate::parser::{Parser, lexeme_at};
use std::alloc::Global;
use twe_ast::Ast;
use twe_base::Place;
use twe_lexer::{first_place, place_past};

impl Parser {
    /// Reads a text to its end and returns the place after its last byte. After an `Err` the state of the parser is
    /// unspecified.
    pub(crate) fn read(&mut self, alloc: Global, text: &[u8]) -> Result<Place, ParseFail>
        requires machine { (self.old.machine.stack, self.old.machine.values) ≡ start }
        requires sofar { self.old.sofar ≡ limits_at_start }
        requires short { length text.now + 1 < 2 ^ 32 }
        ensures read { IfOk result (λ end. HasRead text.now end [] self.new) }
        ensures refused { IfErr result (λ fail. Refuses fail text.now) }
    {
        let mut place = first_place();
        let mut rest = text;
        while !rest.is_empty() {
            let lexeme = lexeme_at(alloc, rest, place)?;
            let (bytes, later) = rest.split_at(lexeme.len);
            if let Some(kind) = lexeme.token {
                self.take(alloc, kind, place)?;
            }
            place = place_past(place, bytes);
            rest = later;
        }
        Ok(place)
    }

    /// The tree of the text that was read. Refuses a text that is not a whole program by S3.
    pub(crate) fn finish(self, alloc: Global, end: Place) -> Result<Ast, ParseFail>
        ensures whole { IfOk result (λ tree. EndsWhole tree end self) }
        ensures early { IfErr result (λ fail. EndsEarly fail end self) }
    {
        let Parser { machine, sofar: _ } = self;
        match machine.finish(alloc)? {
            Some(items) => Ok(Ast { items, end }),
            None => Err(ParseFail::Syntax {
                rule: SRule::S3,
                place: end,
            }),
        }
    }
}
