//! The tokens that may stand at a place, as people read of them.
ghost use Rattle.std.specs.Prelude.{◌≡◌, ◌∷◌, ◌++◌, IfOk, OnOk};
ghost use Rattle.std.specs.List.{flat_map};
ghost use Rattle.refusal_notes.specs.Tokens.{behind_comma, stray_explanation, tokens_remark, token_words};

use crate::explanation::explanation_of;
use explain_pages::Explanation;
use refusal_causes::NextToken;
use std::alloc::Global;
use twe_base::{Bytes, Memory};
use twe_frontend::Refusal;

/// Appends what people read of a token.
fn push_token(text: &mut Bytes, token: NextToken) -> Result<(), Memory>
    ensures { OnOk result (text.new ≡ text.old ++ token_words token) }
{
    match token {
        NextToken::Name => text.push_all(b"a name"),
        NextToken::Number => text.push_all(b"a number"),
        NextToken::Fixed(fixed) => {
            text.push(b'`')?;
            text.push_all(fixed.spelling().as_bytes())?;
            text.push(b'`')
        }
    }
}

/// Appends a comma and a token.
fn push_behind_comma(text: &mut Bytes, token: NextToken) -> Result<(), Memory>
    ensures { OnOk result (text.new ≡ text.old ++ behind_comma token) }
{
    text.push_all(b", ")?;
    push_token(text, token)
}

/// Appends each of the tokens behind a comma.
fn push_others(text: &mut Bytes, tokens: &[NextToken]) -> Result<(), Memory>
    ensures { OnOk result (text.new ≡ text.old ++ flat_map behind_comma tokens.now) }
{
    for token in tokens {
        push_behind_comma(text, *token)?;
    }
    Ok(())
}

/// What is said of the tokens that may stand at the place.
fn tokens_remark(alloc: Global, first: NextToken, others: &[NextToken]) -> Result<Bytes, Memory>
    ensures { IfOk result (λ text. text ≡ tokens_remark first others.now) }
{
    let mut text = Bytes::from_slice(alloc, b"here may stand: ")?;
    push_token(&mut text, first)?;
    push_others(&mut text, others)?;
    Ok(text)
}

/// What is said of a token that may not stand at its place, or of an end that comes too early, if these tokens may stand there.
pub(crate) fn stray_explanation(
    alloc: Global,
    refusal: Refusal,
    tokens: &[NextToken],
) -> Result<Explanation, Memory>
    ensures { IfOk result (λ explanation. explanation ≡ stray_explanation refusal tokens.now) }
{
    let mut explanation = explanation_of(alloc, refusal)?;
    if let Some((first, others)) = tokens.split_first() {
        explanation
            .remarks
            .push(tokens_remark(alloc, *first, others)?)?;
    }
    Ok(explanation)
}
