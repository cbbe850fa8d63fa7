//! The lines at which a text is not in its layout.
ghost use Rattle.std.specs.Prelude.{◌≡◌, ◌≤◌, ◌++◌, ◌∷◌, List, length, drop, IfOk, OnOk};
ghost use Rattle.std.specs.List.{flat_map};
ghost use Rattle.twe_base.specs.Language.{max_text_bytes};
ghost use Rattle.twe_format.specs.declared.lines.Line.{Line as AnyLine};
ghost use Rattle.twe_format.specs.Differences.{is_same_line, signed_line, added_line, count_ahead, stands_first, differing, differing_lines};

use crate::lines::{Line, numbered_lines};
use itoa::Buffer;
use std::alloc::Global;
use twe_base::{Bytes, Memory};

/// Whether both are the same line: behind as many bytes other than blanks, and with the same bytes.
fn is_same_line(line: &Line, other: &Line) -> bool
    ensures { result ≡ is_same_line line.now other.now }
{
    let ended_alike = if line.ended {
        other.ended
    } else {
        !other.ended
    };
    line.before == other.before && ended_alike && line.bytes.as_slice() == other.bytes.as_slice()
}

/// Appends a line with its number behind this sign.
fn push_line(text: &mut Bytes, sign: u8, line: &Line) -> Result<(), Memory>
    ensures { OnOk result (text.new ≡ text.old ++ signed_line sign line.now) }
{
    text.push(sign)?;
    text.push_all(Buffer::new().format(line.number as u64).as_bytes())?;
    text.push_all(b": ")?;
    text.push_all(line.bytes.as_slice())?;
    text.push(b'\n')
}

/// Appends lines that the layout has and the text has not.
fn push_added(text: &mut Bytes, lines: &[Line]) -> Result<(), Memory>
    ensures { OnOk result (text.new ≡ text.old ++ flat_map added_line lines.now) }
{
    for line in lines {
        push_line(text, b'+', line)?;
    }
    Ok(())
}

/// How many of the first lines of the layout stand before the line of the text.
fn count_ahead(line: &Line, laid: &[Line]) -> usize
    ensures count { result ≡ count_ahead line.now laid.now }
    ensures bound { result ≤ length laid.now }
{
    laid.iter()
        .take_while(|its| its.before < line.before)
        .count()
}

/// Whether the line of the text comes next in the layout.
fn stands_first(line: &Line, laid: &[Line]) -> bool
    ensures { result ≡ stands_first line.now laid.now }
{
    match laid {
        [] => false,
        [its, ..] => is_same_line(line, its),
    }
}

/// Appends what differs of a line of the text and of the lines of the layout that stand before it. Returns how many lines of the
/// layout come before those of the next line. After an `Err` the text is unspecified.
fn push_difference(text: &mut Bytes, line: &Line, laid: &[Line]) -> Result<usize, Memory>
    ensures within { IfOk result (λ taken. taken ≤ length laid.now) }
    ensures differs { IfOk result (λ taken. (lines : List AnyLine)
        → text.old ++ differing (line.now ∷ lines) laid.now ≡ text.new ++ differing lines (drop taken laid.now)) }
{
    let ahead = count_ahead(line, laid);
    push_added(text, &laid[..ahead])?;
    if stands_first(line, &laid[ahead..]) {
        return Ok(ahead + 1);
    }
    push_line(text, b'-', line)?;
    Ok(ahead)
}

/// What differs between these lines of a text and those of its layout.
fn differing(alloc: Global, lines: &[Line], laid: &[Line]) -> Result<Bytes, Memory>
    ensures { IfOk result (λ text. text ≡ differing lines.now laid.now) }
{
    let mut text = Bytes::new(alloc);
    let mut at = 0;
    for line in lines {
        at += push_difference(&mut text, line, &laid[at..])?;
    }
    push_added(&mut text, &laid[at..])?;
    Ok(text)
}

/// The lines at which a text is not in its layout: those that it has and its layout has not, and those that the layout has
/// instead. It takes time and memory linear in both texts.
pub(crate) fn differing_lines(alloc: Global, text: &[u8], laid: &[u8]) -> Result<Bytes, Memory>
    requires text { length text.now ≤ max_text_bytes }
    requires laid { length laid.now ≤ max_text_bytes }
    ensures { IfOk result (λ lines. lines ≡ differing_lines text.now laid.now) }
{
    let lines = numbered_lines(alloc, text)?;
    let laid_lines = numbered_lines(alloc, laid)?;
    differing(alloc, lines.as_slice(), laid_lines.as_slice())
}
