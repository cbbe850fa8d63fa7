//! The tokens of a text, each with where it begins.
ghost use Rattle.std.specs.Prelude.{◌≡◌, ◌≤◌, ◌<◌, ◌+◌, ◌∷◌, ◌++◌, [], ℕ, List as Codes, length, slice_get, IfOk, OnOk};
ghost use Rattle.twe_base.specs.Language.{max_text_bytes};
ghost use Rattle.twe_lexer.specs.Kinds.{token_kind};
ghost use Rattle.refusal_notes.specs.Spots.{AreSpots, IsCut, begin_with_join, depth_past, token_is, mark_after, next_join, next_word, offset_of, spots_behind, spots_from};
ghost use Rattle.refusal_notes.specs.inner.Cutting.{IsFront};

use std::alloc::Global;
use twe_base::{Bytes, List, MAX_OPEN_BRACKETS, Memory, Place};
use twe_lexer::{Lexeme, LexemeFail, TokenKind, first_lexeme, first_place, place_past};

/// Where a byte of a text stands.
#[derive(Clone, Copy, Debug, PartialEq, Eq)]
pub struct Mark {
    /// How many bytes come before it.
    pub offset: usize,
    /// Its place.
    pub place: Place,
}

/// A token of a text.
#[derive(Debug, Drop)]
pub struct Spot {
    /// Where it begins.
    pub start: Mark,
    /// Its bytes.
    pub bytes: Bytes,
}

/// A text with its tokens.
#[derive(Debug, Drop)]
pub struct CutText {
    /// The text.
    pub bytes: Bytes,
    /// Its tokens, in their order.
    pub spots: List<Spot>,
}

/// A part of a text.
#[derive(Clone, Copy, Debug, PartialEq, Eq)]
pub struct Span {
    /// Where it begins.
    pub start: Mark,
    /// How many bytes come before its last one.
    pub last: usize,
}

/// The first lexeme of a text, if it has one that may stand in a program.
fn front_of(alloc: Global, rest: &[u8]) -> Result<Option<Lexeme>, Memory>
    requires { 0 < length rest.now }
    ensures { IfOk result (IsFront rest.now) }
{
    match first_lexeme(alloc, rest) {
        Ok(lexeme) => Ok(Some(lexeme)),
        Err(LexemeFail::NotAllowed(_)) => Ok(None),
        Err(LexemeFail::Unclosed) => Ok(None),
        Err(LexemeFail::OutOfMemory(memory)) => Err(memory),
    }
}

/// Adds the token that a lexeme is, if it is one.
fn add_lexeme(
    spots: &mut List<Spot>,
    alloc: Global,
    start: Mark,
    bytes: &[u8],
    token: &Option<TokenKind>,
) -> Result<(), Memory>
    requires { token.now ≡ token_kind bytes.now }
    ensures { OnOk result ((before : Codes ℕ) (more : Codes (Codes ℕ)) → start ≡ mark_after before
        → spots.old ++ spots_from before (bytes.now ∷ more) ≡ spots.new ++ spots_from (before ++ bytes.now) more) }
{
    match token {
        None => Ok(()),
        Some(_) => spots.push(Spot {
            start,
            bytes: Bytes::from_slice(alloc, bytes)?,
        }),
    }
}

/// Where the byte after these bytes stands, of which the first stands at `start`.
fn mark_past(start: Mark, bytes: &[u8]) -> Mark
    requires offset { start.offset + length bytes.now ≤ max_text_bytes }
    requires line { start.place.line ≤ 1 + start.offset }
    requires column { start.place.col ≤ 1 + start.offset }
    ensures { (before : Codes ℕ) → start ≡ mark_after before → result ≡ mark_after (before ++ bytes.now) }
{
    Mark {
        offset: start.offset + bytes.len(),
        place: place_past(start.place, bytes),
    }
}

/// Where the first byte of every text stands.
fn first_mark() -> Mark
    ensures { result ≡ mark_after [] }
{
    Mark {
        offset: 0,
        place: first_place(),
    }
}

/// The tokens of a text, up to a byte that is not allowed, or a comment without an end.
fn spots_of(alloc: Global, text: &[u8]) -> Result<List<Spot>, Memory>
    requires { length text.now ≤ max_text_bytes }
    ensures { IfOk result (AreSpots text.now) }
{
    let mut spots: List<Spot> = List::new(alloc);
    let mut start = first_mark();
    let mut rest = text;
    while !rest.is_empty() {
        let Some(lexeme) = front_of(alloc, rest)? else {
            return Ok(spots);
        };
        let (bytes, after) = rest.split_at(lexeme.len);
        add_lexeme(&mut spots, alloc, start, bytes, &lexeme.token)?;
        start = mark_past(start, bytes);
        rest = after;
    }
    Ok(spots)
}

/// The text with its tokens, up to a byte that is not allowed, or a comment without an end. It takes time and memory linear in the length
/// of the text.
pub(crate) fn cut_text(alloc: Global, text: &[u8]) -> Result<CutText, Memory>
    requires { length text.now ≤ max_text_bytes }
    ensures { IfOk result (IsCut text.now) }
{
    let spots = spots_of(alloc, text)?;
    let bytes = Bytes::from_slice(alloc, text)?;
    Ok(CutText { bytes, spots })
}

/// The tokens that do not begin before `from`.
pub(crate) fn spots_behind(spots: &[Spot], from: usize) -> &[Spot]
    ensures { result.now ≡ spots_behind from spots.now }
{
    let mut rest = spots;
    while let Some((spot, others)) = rest.split_first() {
        if spot.start.offset >= from {
            return rest;
        }
        rest = others;
    }
    rest
}

/// Where the first of these tokens begins that has these bytes, if one has.
pub(crate) fn next_word(word: &[u8], spots: &[Spot]) -> Option<Mark>
    ensures { result ≡ next_word word.now spots.now }
{
    for spot in spots {
        if spot.bytes.as_slice() == word {
            return Some(spot.start);
        }
    }
    None
}

/// Whether the token of this number has these bytes.
pub(crate) fn token_is(spots: &[Spot], number: usize, word: &[u8]) -> bool
    ensures { result ≡ token_is spots.now number word.now }
{
    match spots.get(number) {
        Some(spot) => spot.bytes.as_slice() == word,
        None => false,
    }
}

/// Whether the tokens begin with `f.join();`.
fn begin_with_join(name: &[u8], spots: &[Spot]) -> bool
    ensures { result ≡ begin_with_join name.now spots.now }
{
    token_is(spots, 0, name)
        && token_is(spots, 1, b".")
        && token_is(spots, 2, b"join")
        && token_is(spots, 3, b"(")
        && token_is(spots, 4, b")")
        && token_is(spots, 5, b";")
}

/// How many bytes come before the token of this number.
fn offset_of(spots: &[Spot], number: usize) -> usize
    ensures { result ≡ offset_of (slice_get spots.now number) }
{
    match spots.get(number) {
        Some(spot) => spot.start.offset,
        None => 0,
    }
}

/// How many braces are open after a token.
fn depth_past(depth: usize, bytes: &[u8]) -> usize
    ensures { result ≡ depth_past depth bytes.now }
{
    if bytes == b"{".as_slice() {
        depth.min(MAX_OPEN_BRACKETS - 1) + 1
    } else if bytes == b"}".as_slice() {
        depth.saturating_sub(1)
    } else {
        depth
    }
}

/// The first `f.join();` that does not begin before `from`, and comes before the end of the body in which `from` lies.
pub(crate) fn next_join(name: &[u8], from: usize, spots: &[Spot]) -> Option<Span>
    ensures { result ≡ next_join name.now from 0 spots.now }
{
    let mut depth = 0;
    let mut rest = spots;
    while let Some((spot, others)) = rest.split_first() {
        let after = depth_past(depth, spot.bytes.as_slice());
        if spot.start.offset >= from {
            if after == 0 {
                return None;
            }
            if begin_with_join(name, rest) {
                return Some(Span {
                    start: spot.start,
                    last: offset_of(rest, 5),
                });
            }
        }
        depth = after;
        rest = others;
    }
    None
}
