//! From the text of a program to its tree.
ghost use Rattle.std.specs.Prelude.{◌≡◌, ◌+◌, ◌<◌, ◌^◌, ℕ, List, [], length, IfOk, IfErr};
ghost use Rattle.twe_base.specs.declared.place.Place.{Place};
ghost use Rattle.twe_lexer.specs.declared.token.Token.{Token};
ghost use Rattle.twe_lexer.specs.Places.{place_after};
ghost use Rattle.twe_lexer.specs.Tokens.{BeginsWith};
ghost use Rattle.twe_parser.specs.declared.fail.SRule.{SRule};
ghost use Rattle.twe_parser.specs.Fails.{Fails, Refuses};
ghost use Rattle.twe_parser.specs.Writes.{Writes};

use crate::fail::ParseFail;
use crate::parser::Parser;
use std::alloc::Global;
use twe_ast::Ast;
use twe_base::Memory;

/// The tree of a text, or the first failure of a rule of the text in the order of its bytes. It takes time and memory
/// linear in the length of the text. A text of 2^32 - 1 bytes or more is refused by `OutOfMemory`, since its places
/// can't be counted.
pub fn parse(alloc: Global, text: &[u8]) -> Result<Ast, ParseFail>
    ensures tree { IfOk result (λ tree. (tokens : List Token) × BeginsWith text.now tokens [] × Writes tree tokens) }
    ensures end { IfOk result (λ tree. tree.end ≡ place_after text.now) }
    ensures accepted { IfOk result (λ tree. (rule : SRule) (place : Place) → ¬ Fails text.now rule place) }
    ensures countable { IfOk result (λ _. length text.now + 1 < 2 ^ 32) }
    ensures refused { IfErr result (λ fail. Refuses fail text.now) }
{
    if text.len() >= u32::MAX as usize {
        return Err(ParseFail::OutOfMemory(Memory::of_uncountable(text)));
    }
    let mut parser = Parser::new(alloc)?;
    let end = parser.read(alloc, text)?;
    parser.finish(alloc, end)
}
