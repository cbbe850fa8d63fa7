//! The walk through a text up to a place.
ghost use Rattle.std.specs.Prelude.{◌≡◌, ◌∷◌, ◌++◌, ◌+◌, ◌<◌, ◌^◌, [], ℕ, List as Codes, drop, length, take, true, IfOk, OnOk};
ghost use Rattle.twe_lexer.specs.Front.{Opens};
ghost use Rattle.refusal_causes.specs.text_rules.Open.{AreFoundAt};
ghost use Rattle.refusal_causes.specs.text_rules.inner.Walked.{HasWalked, IsFrontOf, IsOnItsWay};

use crate::text_rules::open::{OpenPlaces, take_if};
use std::alloc::Global;
use twe_base::{Memory, Place};
use twe_lexer::{Lexeme, LexemeFail, first_lexeme, first_place, place_past};

/// Where a walk has come to, and which brackets are open there.
#[derive(Debug, Drop)]
pub(crate) struct BracketWalk {
    /// The place of the next byte.
    pub place: Place,
    /// The places of the brackets that are open, the outermost first.
    pub places: OpenPlaces,
}

/// The first lexeme of a text, if it has one that may stand in a program.
fn front_of(alloc: Global, rest: &[u8]) -> Result<Option<Lexeme>, Memory>
    requires { 0 < length rest.now }
    ensures { IfOk result (IsFrontOf rest.now) }
{
    match first_lexeme(alloc, rest) {
        Ok(lexeme) => Ok(Some(lexeme)),
        Err(LexemeFail::NotAllowed(_)) => Ok(None),
        Err(LexemeFail::Unclosed) => Ok(None),
        Err(LexemeFail::OutOfMemory(memory)) => Err(memory),
    }
}

/// Goes on behind the first lexeme of what is left.
fn pass_lexeme(walk: &mut BracketWalk, rest: &[u8], lexeme: &Lexeme) -> Result<(), Memory>
    requires front { Opens lexeme.now rest.now }
    requires lines { walk.old.place.line + length rest.now < 2 ^ 32 }
    requires columns { walk.old.place.col + length rest.now < 2 ^ 32 }
    ensures { OnOk result ((text : Codes ℕ) (lexemes : Codes (Codes ℕ)) → HasWalked text rest.now lexemes walk.old
        → HasWalked text (drop lexeme.now.len rest.now) (lexemes ++ take lexeme.now.len rest.now ∷ []) walk.new) }
{
    let (bytes, _) = rest.split_at(lexeme.len);
    take_if(&mut walk.places, &lexeme.token, walk.place)?;
    walk.place = place_past(walk.place, bytes);
    Ok(())
}

/// Whether the walk has come to the place.
fn is_at(walk: &BracketWalk, place: Place) -> bool
    ensures here { result ≡ true → walk.now.place ≡ place }
    ensures elsewhere { walk.now.place ≡ place → result ≡ true }
{
    walk.place == place
}

/// A walk that has not begun.
fn first_walk(alloc: Global, text: &[u8]) -> BracketWalk
    ensures { HasWalked text.now text.now [] result }
{
    let _ = text;
    BracketWalk {
        place: first_place(),
        places: OpenPlaces::new(alloc),
    }
}

/// The places of the brackets that are open at a place of a text, the outermost first. Nothing is returned only if no lexeme ends
/// there, or a byte before it is not allowed, or a comment before it has no end.
pub fn open_at(alloc: Global, text: &[u8], place: Place) -> Result<Option<OpenPlaces>, Memory>
    requires { length text.now + 1 < 2 ^ 32 }
    ensures { IfOk result (AreFoundAt text.now place) }
{
    let mut walk = first_walk(alloc, text);
    let mut rest = text;
    while !rest.is_empty() {
        if is_at(&walk, place) {
            return Ok(Some(walk.places));
        }
        let Some(lexeme) = front_of(alloc, rest)? else {
            return Ok(None);
        };
        pass_lexeme(&mut walk, rest, &lexeme)?;
        rest = rest.split_at(lexeme.len).1;
    }
    if is_at(&walk, place) {
        Ok(Some(walk.places))
    } else {
        Ok(None)
    }
}
