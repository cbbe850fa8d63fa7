//! The cause of a failure.
ghost use Rattle.std.specs.Prelude.{◌≡◌, ◌<◌, length, get_or, true, IfOk};
ghost use Rattle.twe_parser.specs.declared.fail.SRule.TheVariants.{S1, S4, S5, S6};
ghost use Rattle.twe_parser.specs.Fails.{Fails, IsSyntaxFailure};
ghost use Rattle.refusal_causes.specs.text_rules.Causes.{IsTextCause, has_cause};
ghost use Rattle.refusal_causes.specs.text_rules.inner.Standing.{is_next};

use crate::text_rules::behind::from_place;
use crate::text_rules::cause::TextCause;
use crate::text_rules::standing::kind_at;
use std::alloc::Global;
use twe_base::{MAX_LITERAL, Memory, Place};
use twe_lexer::TokenKind;
use twe_parser::{SRule, opens};

/// The first byte.
fn first_byte(bytes: &[u8]) -> u8
    requires { 0 < length bytes.now }
    ensures { result ≡ get_or bytes.now 0 0 }
{
    bytes[0]
}

/// The byte that is not allowed.
fn byte_cause(text: &[u8], place: Place) -> TextCause
    requires { Fails text.now S1 place }
    ensures { IsTextCause text.now S1 place result }
{
    TextCause::Byte(first_byte(from_place(text, place)))
}

/// Whether the token is the number after the largest one.
fn is_next(kind: &TokenKind) -> bool
    ensures { result ≡ is_next kind.now }
{
    match kind {
        TokenKind::Literal(value) => *value == MAX_LITERAL + 1,
        _ => false,
    }
}

/// Why the number at the place is too large.
fn number_cause(alloc: Global, text: &[u8], place: Place) -> Result<TextCause, Memory>
    requires { IsSyntaxFailure text.now S4 place }
    ensures { IfOk result (IsTextCause text.now S4 place) }
{
    let kind = kind_at(alloc, text, place)?;
    if is_next(&kind) {
        Ok(TextCause::NumberNotNegative)
    } else {
        Ok(TextCause::NumberTooLarge)
    }
}

/// Of what there is one too many at the place.
fn depth_cause(alloc: Global, text: &[u8], place: Place) -> Result<TextCause, Memory>
    requires { IsSyntaxFailure text.now S5 place }
    ensures { IfOk result (IsTextCause text.now S5 place) }
{
    let kind = kind_at(alloc, text, place)?;
    if opens(&kind) {
        Ok(TextCause::BracketTooMany)
    } else {
        Ok(TextCause::OperatorTooMany)
    }
}

/// The comment at the place.
fn comment_cause(text: &[u8], place: Place) -> TextCause
    requires { Fails text.now S6 place }
    ensures { IsTextCause text.now S6 place result }
{
    let _ = text;
    let _ = place;
    TextCause::CommentUnclosed
}

/// Why this rule of the text, which is the first to fail, fails at the place. The rules on tokens have no such cause.
pub fn text_cause(
    alloc: Global,
    text: &[u8],
    rule: SRule,
    place: Place,
) -> Result<TextCause, Memory>
    requires fails { IsSyntaxFailure text.now rule place }
    requires caused { has_cause rule ≡ true }
    ensures { IfOk result (IsTextCause text.now rule place) }
{
    match rule {
        SRule::S1 => Ok(byte_cause(text, place)),
        SRule::S2 | SRule::S3 => unreachable!(),
        SRule::S4 => number_cause(alloc, text, place),
        SRule::S5 => depth_cause(alloc, text, place),
        SRule::S6 => Ok(comment_cause(text, place)),
    }
}
