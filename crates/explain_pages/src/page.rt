//! What is written of a refusal.
ghost use Rattle.std.specs.Prelude.{◌≡◌, ◌++◌, IfOk, OnOk};
ghost use Rattle.std.specs.List.{flat_map};
ghost use Rattle.twe_report.specs.Texts.{line};
ghost use Rattle.explain_pages.specs.Page.{check_text, excerpts, answer_line, lines_text, name_text, note_line, page_text, refused_text, remark_lines, spot_line, spot_lines, spot_text};

use crate::places::{Explanation, Note, push_excerpt, push_shown};
use crate::wanted::Wanted;
use std::alloc::Global;
use twe_base::{Bytes, Memory, Place};
use twe_frontend::Refusal;
use twe_report::{push_place, refusal_text};

/// The answer of `twe check`, without the end of its line.
fn check_text(alloc: Global, refusal: Refusal) -> Result<Bytes, Memory>
    ensures { IfOk result (λ text. text ≡ check_text refusal) }
{
    let mut text = refusal_text(alloc, refusal)?;
    let size = text.len();
    text.truncate(size.saturating_sub(1));
    Ok(text)
}

/// The answer of `twe check`, and what is wrong.
fn answer_line(alloc: Global, refusal: Refusal, headline: &[u8]) -> Result<Bytes, Memory>
    ensures { IfOk result (λ text. text ≡ answer_line refusal headline.now) }
{
    let mut text = check_text(alloc, refusal)?;
    text.push_all(b": ")?;
    text.push_all(headline)?;
    text.push(b'\n')?;
    Ok(text)
}

/// Appends the name of the text and a colon, if it has a name.
fn push_name(text: &mut Bytes, name: &[u8]) -> Result<(), Memory>
    ensures { OnOk result (text.new ≡ text.old ++ name_text name.now) }
{
    if name.is_empty() {
        return Ok(());
    }
    push_shown(text, name)?;
    text.push(b':')
}

/// Appends a place with the name of the text, as `race.twe:6:14`.
pub(crate) fn push_spot(text: &mut Bytes, name: &[u8], place: Place) -> Result<(), Memory>
    ensures { OnOk result (text.new ≡ text.old ++ spot_text name.now place) }
{
    push_name(text, name)?;
    push_place(text, place)
}

/// Appends what is said at a place, as a line of its own.
fn push_note_line(text: &mut Bytes, name: &[u8], place: Place, said: &[u8]) -> Result<(), Memory>
    ensures { OnOk result (text.new ≡ text.old ++ note_line name.now place said.now) }
{
    push_spot(text, name, place)?;
    text.push_all(b": ")?;
    text.push_all(said)?;
    text.push(b'\n')
}

/// Appends what is said of a place as one line, if anything is.
fn push_spot_line(text: &mut Bytes, name: &[u8], place: Place, said: &[u8]) -> Result<(), Memory>
    ensures { OnOk result (text.new ≡ text.old ++ spot_line name.now place said.now) }
{
    if said.is_empty() {
        return Ok(());
    }
    push_note_line(text, name, place, said)
}

/// Appends each place with what is said of it, as one line.
pub(crate) fn push_spot_lines(text: &mut Bytes, name: &[u8], notes: &[Note]) -> Result<(), Memory>
    ensures { OnOk result (text.new ≡ text.old ++ spot_lines name.now notes.now) }
{
    for note in notes {
        push_spot_line(text, name, note.place, note.caption.as_slice())?;
    }
    Ok(())
}

/// Appends each place with its line of the text.
pub(crate) fn push_excerpts(
    text: &mut Bytes,
    alloc: Global,
    program: &[u8],
    notes: &[Note],
) -> Result<(), Memory>
    ensures { OnOk result (text.new ≡ text.old ++ excerpts program.now notes.now) }
{
    for note in notes {
        push_excerpt(text, alloc, program, note.place, note.caption.as_slice())?;
    }
    Ok(())
}

/// Appends each remark, as one line at this place.
pub(crate) fn push_remark_lines(
    text: &mut Bytes,
    name: &[u8],
    place: Place,
    remarks: &[Bytes],
) -> Result<(), Memory>
    ensures { OnOk result (text.new ≡ text.old ++ remark_lines name.now place remarks.now) }
{
    for remark in remarks {
        push_note_line(text, name, place, remark.as_slice())?;
    }
    Ok(())
}

/// Appends a line.
fn push_line(text: &mut Bytes, bytes: &[u8]) -> Result<(), Memory>
    ensures { OnOk result (text.new ≡ text.old ++ line bytes.now) }
{
    text.push_all(bytes)?;
    text.push(b'\n')
}

/// Appends each remark, as a line.
pub(crate) fn push_remarks(text: &mut Bytes, remarks: &[Bytes]) -> Result<(), Memory>
    ensures { OnOk result (text.new ≡ text.old ++ flat_map line remarks.now) }
{
    for remark in remarks {
        push_line(text, remark.as_slice())?;
    }
    Ok(())
}

/// What is written of a refusal for editors.
fn lines_text(
    alloc: Global,
    name: &[u8],
    refusal: Refusal,
    e: &Explanation,
) -> Result<Bytes, Memory>
    ensures { IfOk result (λ text. text ≡ lines_text name.now refusal e.now) }
{
    let mut text = answer_line(alloc, refusal, e.headline.as_slice())?;
    push_spot_lines(&mut text, name, e.notes.as_slice())?;
    push_remark_lines(&mut text, name, refusal.place, e.remarks.as_slice())?;
    Ok(text)
}

/// What is written of a refusal for people.
fn page_text(
    alloc: Global,
    name: &[u8],
    program: &[u8],
    refusal: Refusal,
    e: &Explanation,
) -> Result<Bytes, Memory>
    ensures { IfOk result (λ text. text ≡ page_text name.now program.now refusal e.now) }
{
    let mut text = answer_line(alloc, refusal, e.headline.as_slice())?;
    push_spot(&mut text, name, refusal.place)?;
    text.push(b'\n')?;
    push_excerpts(&mut text, alloc, program, e.notes.as_slice())?;
    push_remarks(&mut text, e.remarks.as_slice())?;
    Ok(text)
}

/// What is written of a refusal.
pub fn refused_text(
    alloc: Global,
    wanted: &Wanted,
    program: &[u8],
    refusal: Refusal,
    e: &Explanation,
) -> Result<Bytes, Memory>
    ensures { IfOk result (λ text. text ≡ refused_text wanted.now program.now refusal e.now) }
{
    let name = wanted.name.as_slice();
    if wanted.lines {
        lines_text(alloc, name, refusal, e)
    } else {
        page_text(alloc, name, program, refusal, e)
    }
}
