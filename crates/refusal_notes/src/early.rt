//! What is said where a rule of the text fails at a byte, a number, a bracket, an operator or a comment.
ghost use Rattle.std.specs.Prelude.{◌≡◌, ◌++◌, IfOk, OnOk, codes};
ghost use Rattle.std.specs.Fmt.{decimal};
ghost use Rattle.explain_pages.specs.places.Excerpt.{shown_byte};
ghost use Rattle.refusal_notes.specs.Early.{count_words, early_explanation, text_caption};

use explain_pages::{Explanation, Note, asked, push_most, push_shown, wrong};
use itoa::Buffer;
use refusal_causes::text_rules::TextCause;
use std::alloc::Global;
use twe_base::{Bytes, List, MAX_LITERAL, MAX_OPEN_BRACKETS, MAX_OPERATORS, Memory};
use twe_frontend::Refusal;

/// Appends which byte it is.
fn push_byte_is(text: &mut Bytes, byte: u8) -> Result<(), Memory>
    ensures { OnOk result (text.new ≡ text.old ++ (codes "is the byte " ++ shown_byte byte)) }
{
    text.push_all(b"is the byte ")?;
    push_shown(text, &[byte])
}

/// Appends that the number is larger than this one.
fn push_more_than(text: &mut Bytes, most: u32) -> Result<(), Memory>
    ensures { OnOk result (text.new ≡ text.old ++ (codes "is more than " ++ decimal most)) }
{
    text.push_all(b"is more than ")?;
    text.push_all(Buffer::new().format(most).as_bytes())
}

/// Appends how many there are, and how many there may be.
fn push_count(text: &mut Bytes, words: &[u8], count: u64, most: u64) -> Result<(), Memory>
    ensures { OnOk result (text.new ≡ text.old ++ count_words words.now count most) }
{
    text.push_all(words)?;
    text.push_all(Buffer::new().format(count).as_bytes())?;
    push_most(text, most)
}

/// Appends what is said of the place.
fn push_text_caption(text: &mut Bytes, cause: TextCause) -> Result<(), Memory>
    ensures { OnOk result (text.new ≡ text.old ++ text_caption cause) }
{
    match cause {
        TextCause::Byte(byte) => push_byte_is(text, byte),
        TextCause::NumberTooLarge => push_more_than(text, MAX_LITERAL),
        TextCause::NumberNotNegative => {
            text.push_all(b"stands only directly after a minus sign of its own")
        }
        TextCause::BracketTooMany => {
            let most = MAX_OPEN_BRACKETS as u64;
            push_count(text, b"open brackets: ", most + 1, most)
        }
        TextCause::OperatorTooMany => {
            let most = MAX_OPERATORS as u64;
            push_count(text, b"operators of this statement: ", most + 1, most)
        }
        TextCause::CommentUnclosed => text.push_all(b"no */ comes after this"),
    }
}

/// What is said of the place.
fn text_caption(alloc: Global, cause: TextCause) -> Result<Bytes, Memory>
    ensures { IfOk result (λ caption. caption ≡ text_caption cause) }
{
    let mut caption = Bytes::new(alloc);
    push_text_caption(&mut caption, cause)?;
    Ok(caption)
}

/// The sentences of the rule, and what is said of the place.
pub(crate) fn early_explanation(
    alloc: Global,
    refusal: Refusal,
    cause: TextCause,
) -> Result<Explanation, Memory>
    ensures { IfOk result (λ explanation. explanation ≡ early_explanation refusal cause) }
{
    let mut notes = List::new(alloc);
    notes.push(Note {
        place: refusal.place,
        caption: text_caption(alloc, cause)?,
    })?;
    let mut remarks = List::new(alloc);
    remarks.push(Bytes::from_slice(alloc, asked(refusal.rule))?)?;
    Ok(Explanation {
        headline: Bytes::from_slice(alloc, wrong(refusal.rule))?,
        notes,
        remarks,
    })
}
