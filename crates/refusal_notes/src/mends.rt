//! Edits that may mend a text, and those of them after which it is accepted.
ghost use Rattle.std.specs.Prelude.{◌≡◌, ◌++◌, [], codes, IfOk, OnOk};
ghost use Rattle.twe_frontend.specs.meaning.EffectTexts.{effect_text};
ghost use Rattle.twe_frontend.specs.Accepted.{Accepted, IsRefusal};
ghost use Rattle.twe_report.specs.Texts.{place_text};
ghost use Rattle.refusal_notes.specs.Edits.{edited, statement_offset, without_span};
ghost use Rattle.refusal_notes.specs.LaterMends.{spots_at};
ghost use Rattle.refusal_notes.specs.Mends.{AreMends, AreTried, IsTried, TellsAcceptance, declared_mends, effect_mend, join_comes, join_mend, join_said, join_text, mend_at, mend_remark, mends_for, moved_join_mend, moved_mends, out_mends, pure_mend, said_at, with_join};
ghost use Rattle.refusal_notes.specs.Spots.{next_join, next_word};

use crate::edits::{edited, statement_offset, without_span};
use crate::later_mends::{push_later, push_later_if, spawns_at, spots_at};
use crate::spots::{CutText, Mark, Span, cut_text, next_join, next_word};
use effect_sets::Effect;
use explain_pages::word_at;
use itoa::Buffer;
use refusal_causes::RuleCause;
use std::alloc::Global;
use twe_ast::Name;
use twe_base::{Bytes, List, MAX_TEXT_BYTES, Memory, Place, Word};
use twe_frontend::{FrontFail, Refusal, push_effect, read_program};
use twe_program::Prog;
use twe_report::push_place;

/// An edit of a text.
#[derive(Debug, Drop)]
pub struct Mend {
    /// What is said of it.
    pub said: Bytes,
    /// What else comes of it, as it is said after "then the text is accepted".
    pub comes: Bytes,
    /// The text after it.
    pub text: Bytes,
}

/// Edits of a text.
pub type Mends = List<Mend>;

/// Appends `f.join();`.
fn push_join(text: &mut Bytes, name: &[u8]) -> Result<(), Memory>
    ensures { OnOk result (text.new ≡ text.old ++ join_text name.now) }
{
    text.push_all(name)?;
    text.push_all(b".join();")
}

/// `f.join();`, and a space.
fn join_and_space(alloc: Global, name: &[u8]) -> Result<Bytes, Memory>
    ensures { IfOk result (λ text. text ≡ join_text name.now ++ codes " ") }
{
    let mut text = Bytes::new(alloc);
    push_join(&mut text, name)?;
    text.push(b' ')?;
    Ok(text)
}

/// That the join stands at the beginning of the line of the place.
fn join_said(alloc: Global, name: &[u8], place: Place) -> Result<Bytes, Memory>
    ensures { IfOk result (λ text. text ≡ join_said name.now place) }
{
    let mut text = Bytes::from_slice(alloc, b"`")?;
    push_join(&mut text, name)?;
    text.push_all(b"` at the beginning of line ")?;
    text.push_all(Buffer::new().format(place.line).as_bytes())?;
    Ok(text)
}

/// What else comes of a join before a spawn.
fn join_comes(alloc: Global, spawns: bool) -> Result<Bytes, Memory>
    ensures { IfOk result (λ text. text ≡ join_comes spawns) }
{
    if spawns {
        Bytes::from_slice(alloc, b", and the two tasks run one after the other")
    } else {
        Ok(Bytes::new(alloc))
    }
}

/// The text with a join before the statement of the line.
fn with_join(alloc: Global, text: &[u8], name: &[u8], place: Place) -> Result<Bytes, Memory>
    ensures { IfOk result (λ made. made ≡ with_join text.now name.now place) }
{
    let join = join_and_space(alloc, name)?;
    edited(
        alloc,
        text,
        statement_offset(text, place.line),
        0,
        join.as_slice(),
    )
}

/// A join before the statement of the line.
fn join_mend(alloc: Global, cut: &CutText, name: &[u8], place: Place) -> Result<Mend, Memory>
    ensures { IfOk result (λ mend. mend ≡ join_mend cut.now name.now place) }
{
    Ok(Mend {
        said: join_said(alloc, name, place)?,
        comes: join_comes(alloc, spawns_at(cut, place))?,
        text: with_join(alloc, cut.bytes.as_slice(), name, place)?,
    })
}

/// That the join stands there instead of at another place.
fn moved_said(alloc: Global, name: &[u8], place: Place, other: Place) -> Result<Bytes, Memory>
    ensures { IfOk result (λ text. text ≡ join_said name.now place ++ (codes " instead of at " ++ place_text other)) }
{
    let mut said = join_said(alloc, name, place)?;
    said.push_all(b" instead of at ")?;
    push_place(&mut said, other)?;
    Ok(said)
}

/// The text with a join before the statement of the line, and none where one is now.
fn with_moved_join(
    alloc: Global,
    text: &[u8],
    name: &[u8],
    place: Place,
    span: Span,
) -> Result<Bytes, Memory>
    ensures { IfOk result (λ made. made ≡ with_join (without_span text.now span) name.now place) }
{
    let others = without_span(alloc, text, span)?;
    with_join(alloc, others.as_slice(), name, place)
}

/// A join before the statement of the line, and none where one is now.
fn moved_join_mend(
    alloc: Global,
    cut: &CutText,
    name: &[u8],
    place: Place,
    span: Span,
) -> Result<Mend, Memory>
    ensures { IfOk result (λ mend. mend ≡ moved_join_mend cut.now name.now place span) }
{
    Ok(Mend {
        said: moved_said(alloc, name, place, span.start.place)?,
        comes: join_comes(alloc, spawns_at(cut, place))?,
        text: with_moved_join(alloc, cut.bytes.as_slice(), name, place, span)?,
    })
}

/// Adds the edit that moves this join, if there is one.
fn push_moved(
    mends: &mut Mends,
    alloc: Global,
    cut: &CutText,
    name: &[u8],
    place: Place,
    span: Option<Span>,
) -> Result<(), Memory>
    ensures { OnOk result (mends.new ≡ mends.old ++ moved_mends cut.now name.now place span) }
{
    match span {
        None => Ok(()),
        Some(span) => mends.push(moved_join_mend(alloc, cut, name, place, span)?),
    }
}

/// The first `f.join();` of the same body that comes after the beginning of the line of the place.
fn join_to_move(cut: &CutText, name: &[u8], place: Place) -> Option<Span>
    ensures { result ≡ next_join name.now (statement_offset cut.now.bytes place.line) 0 cut.now.spots }
{
    let from = statement_offset(cut.bytes.as_slice(), place.line);
    next_join(name, from, cut.spots.as_slice())
}

/// The edits for an effect that a spawned task may still have.
fn out_mends(alloc: Global, cut: &CutText, name: &[u8], place: Place) -> Result<Mends, Memory>
    ensures { IfOk result (λ mends. mends ≡ out_mends cut.now name.now place) }
{
    let mut mends = Mends::new(alloc);
    mends.push(join_mend(alloc, cut, name, place)?)?;
    let span = join_to_move(cut, name, place);
    push_moved(&mut mends, alloc, cut, name, place, span)?;
    Ok(mends)
}

/// What is done with an effect, and where.
fn said_at(alloc: Global, effect: &[u8], words: &[u8], place: Place) -> Result<Bytes, Memory>
    ensures { IfOk result (λ text. text ≡ said_at effect.now words.now place) }
{
    let mut text = Bytes::from_slice(alloc, b"`")?;
    text.push_all(effect)?;
    text.push_all(words)?;
    push_place(&mut text, place)?;
    Ok(text)
}

/// The effect instead of the `pure` that begins here.
fn pure_mend(alloc: Global, text: &[u8], effect: &[u8], mark: Mark) -> Result<Mend, Memory>
    ensures { IfOk result (λ mend. mend ≡ pure_mend text.now effect.now mark) }
{
    Ok(Mend {
        said: said_at(alloc, effect, b"` instead of `pure` at ", mark.place)?,
        comes: Bytes::new(alloc),
        text: edited(alloc, text, mark.offset, 4, effect)?,
    })
}

/// An effect, and a space.
fn effect_and_space(alloc: Global, effect: &[u8]) -> Result<Bytes, Memory>
    ensures { IfOk result (λ text. text ≡ effect.now ++ codes " ") }
{
    let mut text = Bytes::from_slice(alloc, effect)?;
    text.push(b' ')?;
    Ok(text)
}

/// The text with bytes more after its first `from` ones.
fn with_more(alloc: Global, text: &[u8], from: usize, effect: &[u8]) -> Result<Bytes, Memory>
    ensures { IfOk result (λ made. made ≡ edited text.now from 0 (effect.now ++ codes " ")) }
{
    let more = effect_and_space(alloc, effect)?;
    edited(alloc, text, from, 0, more.as_slice())
}

/// An effect more before the `{` that begins here.
fn effect_mend(alloc: Global, text: &[u8], effect: &[u8], mark: Mark) -> Result<Mend, Memory>
    ensures { IfOk result (λ mend. mend ≡ effect_mend text.now effect.now mark) }
{
    Ok(Mend {
        said: said_at(alloc, effect, b"` before the `{` at ", mark.place)?,
        comes: Bytes::new(alloc),
        text: with_more(alloc, text, mark.offset, effect)?,
    })
}

/// The effect instead of `pure` in the declaration at the place.
fn pure_mends(alloc: Global, cut: &CutText, effect: &[u8], place: Place) -> Result<Mends, Memory>
    ensures { IfOk result (λ mends. mends ≡ declared_mends [] cut.now effect.now place) }
{
    let mut mends = Mends::new(alloc);
    if let Some(mark) = next_word(b"pure", spots_at(cut, place)) {
        mends.push(pure_mend(alloc, cut.bytes.as_slice(), effect, mark)?)?;
    }
    Ok(mends)
}

/// The effect with those of the declaration at the place.
fn effect_mends(alloc: Global, cut: &CutText, effect: &[u8], place: Place) -> Result<Mends, Memory>
    ensures { IfOk result (λ mends. mends ≡ mend_at (effect_mend cut.now.bytes effect.now) (next_word (codes "{") (spots_at cut.now place))) }
{
    let mut mends = Mends::new(alloc);
    if let Some(mark) = next_word(b"{", spots_at(cut, place)) {
        mends.push(effect_mend(alloc, cut.bytes.as_slice(), effect, mark)?)?;
    }
    Ok(mends)
}

/// The effect instead of `pure`, if nothing is declared, or else with what is.
fn declared_mends(
    alloc: Global,
    declared: &[Effect],
    cut: &CutText,
    effect: &[u8],
    place: Place,
) -> Result<Mends, Memory>
    ensures { IfOk result (λ mends. mends ≡ declared_mends declared.now cut.now effect.now place) }
{
    match declared {
        [] => pure_mends(alloc, cut, effect, place),
        [_, ..] => effect_mends(alloc, cut, effect, place),
    }
}

/// An effect as a text has it.
fn effect_text(
    alloc: Global,
    regions: &[Word],
    variables: &[Name],
    effect: &Effect,
) -> Result<Bytes, Memory>
    ensures { IfOk result (λ text. text ≡ effect_text regions.now variables.now effect.now) }
{
    let mut text = Bytes::new(alloc);
    push_effect(&mut text, regions, variables, effect)?;
    Ok(text)
}

/// The edits that may mend a failure at the place with this cause, in the order in which they are tried.
fn mends_for(
    alloc: Global,
    cut: &CutText,
    place: Place,
    cause: &RuleCause,
    regions: &[Word],
    variables: &[Name],
) -> Result<Mends, Memory>
    ensures { IfOk result (λ mends. mends ≡ mends_for cut.now place cause.now regions.now variables.now) }
{
    match cause {
        RuleCause::Undeclared {
            need,
            declared,
            decl_place,
        } => {
            let effect = effect_text(alloc, regions, variables, need)?;
            let mut mends = declared_mends(
                alloc,
                declared.effects.as_slice(),
                cut,
                effect.as_slice(),
                *decl_place,
            )?;
            push_later_if(&mut mends, alloc, cut, place)?;
            Ok(mends)
        }
        RuleCause::Out { future_place, .. } => {
            let name = word_at(cut.bytes.as_slice(), *future_place);
            let mut mends = out_mends(alloc, cut, name, place)?;
            push_later_if(&mut mends, alloc, cut, place)?;
            Ok(mends)
        }
        RuleCause::OutAgain { .. } => {
            let mut mends = Mends::new(alloc);
            push_later(&mut mends, alloc, cut, place)?;
            Ok(mends)
        }
        RuleCause::NotOut { .. }
        | RuleCause::OrderOpen { .. }
        | RuleCause::NotDeterministic { .. } => Ok(Mends::new(alloc)),
    }
}

/// The edits that may mend a failure of a text at the place with this cause; none if the text is longer than a text may be.
pub(crate) fn mends_of(
    alloc: Global,
    text: &[u8],
    place: Place,
    cause: &RuleCause,
    regions: &[Word],
    variables: &[Name],
) -> Result<Mends, Memory>
    ensures { IfOk result (AreMends text.now place cause.now regions.now variables.now) }
{
    if text.len() > MAX_TEXT_BYTES {
        return Ok(Mends::new(alloc));
    }
    let cut = cut_text(alloc, text)?;
    mends_for(alloc, &cut, place, cause, regions, variables)
}

/// What is said of an edit after which the text is accepted.
fn mend_remark(alloc: Global, mend: &Mend) -> Result<Bytes, Memory>
    ensures { IfOk result (λ text. text ≡ mend_remark mend.now) }
{
    let mut text = Bytes::from_slice(alloc, b"mend: ")?;
    text.push_all(mend.said.as_slice())?;
    text.push_all(b"; then the text is accepted")?;
    text.push_all(mend.comes.as_slice())?;
    Ok(text)
}

/// A text with a program is accepted.
fn tell_accepted(text: &[u8], p: &Prog) -> bool
    requires { Accepted text.now p.now }
    ensures { TellsAcceptance text.now result }
{
    let _ = text;
    let _ = p;
    true
}

/// A text with a refusal is not accepted.
fn tell_refused(text: &[u8], refusal: Refusal) -> bool
    requires { IsRefusal text.now refusal }
    ensures { TellsAcceptance text.now result }
{
    let _ = text;
    let _ = refusal;
    false
}

/// Whether the text is accepted.
fn is_accepted(alloc: Global, text: &[u8]) -> Result<bool, Memory>
    ensures { IfOk result (TellsAcceptance text.now) }
{
    match read_program(alloc, text) {
        Ok(p) => Ok(tell_accepted(text, &p)),
        Err(FrontFail::Refused(refusal)) => Ok(tell_refused(text, refusal)),
        Err(FrontFail::OutOfMemory(memory)) => Err(memory),
    }
}

/// Tries an edit, and adds what is said of it if the text is accepted after it.
fn try_mend(remarks: &mut List<Bytes>, alloc: Global, mend: &Mend) -> Result<(), Memory>
    ensures { OnOk result (IsTried mend.now remarks.old remarks.new) }
{
    if mend.text.len() > MAX_TEXT_BYTES {
        return Ok(());
    }
    if is_accepted(alloc, mend.text.as_slice())? {
        remarks.push(mend_remark(alloc, mend)?)?;
    }
    Ok(())
}

/// Tries edits, and adds what is said of those after which the text is accepted.
pub(crate) fn try_mends(
    remarks: &mut List<Bytes>,
    alloc: Global,
    mends: &[Mend],
) -> Result<(), Memory>
    ensures { OnOk result (AreTried mends.now remarks.old remarks.new) }
{
    for mend in mends {
        try_mend(remarks, alloc, mend)?;
    }
    Ok(())
}
