//! The tokens that may stand at a place of a text.
ghost use Rattle.std.specs.Prelude.{◌≡◌, ◌≤◌, ◌+◌, ◌<◌, ◌^◌, ◌++◌, ◌∷◌, [], List, length, take, IfNone, IfOk, IfSome, OnOk};
ghost use Rattle.twe_lexer.specs.Places.{place_after};
ghost use Rattle.refusal_causes.specs.NextTokens.{AreNextAmong, AreNextAt, Decides, every_token, token_text, tried};
ghost use Rattle.refusal_causes.specs.NextTokens as next;
ghost use Rattle.refusal_causes.specs.declared.next_tokens.NextToken.{NextToken as Token};
ghost use Rattle.twe_frontend.specs.Accepted.{IsTreeOf};
ghost use Rattle.twe_frontend.specs.Reads.{IsTextFailure};

use std::alloc::Global;
use twe_ast::Ast;
use twe_base::{Bytes, List, Memory, Place};
use twe_frontend::{FrontFail, Refusal, RuleName, read_tree};
use twe_lexer::{Fixed, first_place, place_past};
use twe_parser::SRule;

/// A token that may stand at a place.
#[derive(Clone, Copy, Debug, PartialEq, Eq)]
pub enum NextToken {
    /// A name.
    Name,
    /// A number.
    Number,
    /// This keyword or symbol.
    Fixed(Fixed),
}

/// Tokens that may stand at a place.
pub type NextTokens = List<NextToken>;

/// All tokens, names as one and numbers as one, in the order in which they are tried.
fn every_token() -> &'static [NextToken]
    ensures { result.now ≡ every_token }
{
    &[
        NextToken::Name,
        NextToken::Number,
        NextToken::Fixed(Fixed::Region),
        NextToken::Fixed(Fixed::Int),
        NextToken::Fixed(Fixed::Boolean),
        NextToken::Fixed(Fixed::Void),
        NextToken::Fixed(Fixed::Task),
        NextToken::Fixed(Fixed::Deterministic),
        NextToken::Fixed(Fixed::Reads),
        NextToken::Fixed(Fixed::Writes),
        NextToken::Fixed(Fixed::Pure),
        NextToken::Fixed(Fixed::Final),
        NextToken::Fixed(Fixed::Future),
        NextToken::Fixed(Fixed::If),
        NextToken::Fixed(Fixed::Else),
        NextToken::Fixed(Fixed::While),
        NextToken::Fixed(Fixed::Return),
        NextToken::Fixed(Fixed::Print),
        NextToken::Fixed(Fixed::True),
        NextToken::Fixed(Fixed::False),
        NextToken::Fixed(Fixed::In),
        NextToken::Fixed(Fixed::Root),
        NextToken::Fixed(Fixed::Spawn),
        NextToken::Fixed(Fixed::ExecuteLater),
        NextToken::Fixed(Fixed::GetValue),
        NextToken::Fixed(Fixed::Join),
        NextToken::Fixed(Fixed::OpenBrace),
        NextToken::Fixed(Fixed::CloseBrace),
        NextToken::Fixed(Fixed::OpenParen),
        NextToken::Fixed(Fixed::CloseParen),
        NextToken::Fixed(Fixed::OpenBracket),
        NextToken::Fixed(Fixed::CloseBracket),
        NextToken::Fixed(Fixed::Semicolon),
        NextToken::Fixed(Fixed::Comma),
        NextToken::Fixed(Fixed::Colon),
        NextToken::Fixed(Fixed::Dot),
        NextToken::Fixed(Fixed::Question),
        NextToken::Fixed(Fixed::Assign),
        NextToken::Fixed(Fixed::Equal),
        NextToken::Fixed(Fixed::NotEqual),
        NextToken::Fixed(Fixed::Less),
        NextToken::Fixed(Fixed::LessEqual),
        NextToken::Fixed(Fixed::Greater),
        NextToken::Fixed(Fixed::GreaterEqual),
        NextToken::Fixed(Fixed::Plus),
        NextToken::Fixed(Fixed::Minus),
        NextToken::Fixed(Fixed::Star),
        NextToken::Fixed(Fixed::Slash),
        NextToken::Fixed(Fixed::Percent),
        NextToken::Fixed(Fixed::Not),
        NextToken::Fixed(Fixed::And),
        NextToken::Fixed(Fixed::Or),
    ]
}

/// Appends the token as it is tried: a name as `name`, and a number as `0`.
fn push_token(text: &mut Bytes, token: NextToken) -> Result<(), Memory>
    ensures { OnOk result (text.new ≡ text.old ++ token_text token) }
{
    match token {
        NextToken::Name => text.push_all(b"name"),
        NextToken::Number => text.push_all(b"0"),
        NextToken::Fixed(fixed) => text.push_all(fixed.spelling().as_bytes()),
    }
}

/// The beginning of a text with the token on a new line behind it.
fn tried(alloc: Global, before: &[u8], token: NextToken) -> Result<Bytes, Memory>
    ensures { IfOk result (λ text. text ≡ tried before.now token) }
{
    let mut text = Bytes::from_slice(alloc, before)?;
    text.push(b'\n')?;
    push_token(&mut text, token)?;
    Ok(text)
}

/// Whether the rule is the one of texts that end too early.
pub fn is_of_end(rule: RuleName) -> bool
    ensures { result ≡ next.is_of_end rule }
{
    match rule {
        RuleName::Text(SRule::S3) => true,
        _ => false,
    }
}

/// Whether a text of which this rule fails first is the beginning of a program.
fn is_beginning(text: &[u8], refusal: Refusal) -> bool
    requires { IsTextFailure text.now refusal.rule refusal.place }
    ensures { Decides text.now result }
{
    let _ = text;
    is_of_end(refusal.rule)
}

/// A text with a tree is a program by the rules of the text.
fn is_whole(text: &[u8], tree: &Ast) -> bool
    requires { IsTreeOf text.now tree.now }
    ensures { Decides text.now result }
{
    let _ = text;
    let _ = tree;
    true
}

/// Whether the text is a program or the beginning of one.
fn begins_a_program(alloc: Global, text: &[u8]) -> Result<bool, Memory>
    ensures { IfOk result (Decides text.now) }
{
    match read_tree(alloc, text) {
        Ok(tree) => Ok(is_whole(text, &tree)),
        Err(FrontFail::Refused(refusal)) => Ok(is_beginning(text, refusal)),
        Err(FrontFail::OutOfMemory(memory)) => Err(memory),
    }
}

/// Whether the token may stand behind this beginning of a text.
fn may_follow(alloc: Global, before: &[u8], token: NextToken) -> Result<bool, Memory>
    ensures { IfOk result (Decides (tried before.now token)) }
{
    let text = tried(alloc, before, token)?;
    begins_a_program(alloc, text.as_slice())
}

/// Adds the token, if it may stand behind this beginning of a text.
fn add_if_it_may(
    found: &mut NextTokens,
    alloc: Global,
    before: &[u8],
    token: NextToken,
) -> Result<(), Memory>
    ensures { OnOk result ((tokens : List Token) → AreNextAmong before.now tokens found.old
        → AreNextAmong before.now (tokens ++ token ∷ []) found.new) }
{
    if may_follow(alloc, before, token)? {
        found.push(token)?;
    }
    Ok(())
}

/// The tokens that may stand behind this beginning of a text.
fn tokens_behind(alloc: Global, before: &[u8]) -> Result<NextTokens, Memory>
    ensures { IfOk result (AreNextAmong before.now every_token) }
{
    let mut found = NextTokens::new(alloc);
    for token in every_token() {
        add_if_it_may(&mut found, alloc, before, *token)?;
    }
    Ok(found)
}

/// How many bytes of the text come before the place; none if no byte of the text has it, nor its end.
fn length_before(text: &[u8], place: Place) -> Option<usize>
    requires { length text.now + 1 < 2 ^ 32 }
    ensures found { IfSome result (λ count. (count ≤ length text.now) × (place_after (take count text.now) ≡ place)) }
    ensures none { IfNone result (next.IsNowhere text.now place) }
{
    let mut now = first_place();
    let mut count = 0;
    for byte in text {
        if now == place {
            return Some(count);
        }
        now = place_past(now, &[*byte]);
        count += 1;
    }
    if now == place { Some(count) } else { None }
}

/// The tokens that may stand at a place of a text. None are given where more than 65,536 bytes come before it. `Memory` is also
/// returned for a text of 2^32 - 1 bytes or more, whose places can't be counted.
pub(crate) fn next_tokens(alloc: Global, text: &[u8], place: Place) -> Result<NextTokens, Memory>
    ensures { IfOk result (AreNextAt text.now place) }
{
    if text.len() >= u32::MAX as usize {
        return Err(Memory::of_uncountable(text));
    }
    match length_before(text, place) {
        None => Ok(NextTokens::new(alloc)),
        Some(count) => {
            if count > 65536 {
                return Ok(NextTokens::new(alloc));
            }
            let found = tokens_behind(alloc, &text[..count])?;
            Ok(found)
        }
    }
}
