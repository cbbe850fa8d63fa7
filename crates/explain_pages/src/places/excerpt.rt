//! A line of a text as it is shown to people, with a caret under one of its columns.
ghost use Rattle.std.specs.Prelude.{◌≡◌, ◌<◌, ◌++◌, length, IfOk, OnOk};
ghost use Rattle.explain_pages.specs.places.Excerpt.{before_caret, blanks, caption_text, caret_line, dots_if, excerpt_text, hex_digit, left_out, line_and_caret, part_text, shown, shown_byte, shown_line};

use itoa::Buffer;
use std::alloc::Global;
use twe_base::{Bytes, Memory, Place};
use twe_frontend::{after_bytes, first_bytes, line_at};

/// The most bytes of a line that are shown.
const MOST_SHOWN: usize = 100;

/// A digit of a number in base 16.
fn hex_digit(n: u8) -> u8
    requires { n < 16 }
    ensures { result ≡ hex_digit n }
{
    if n < 10 { b'0' + n } else { b'A' + (n - 10) }
}

/// Appends a byte as it is shown.
fn push_byte(text: &mut Bytes, byte: u8) -> Result<(), Memory>
    ensures { OnOk result (text.new ≡ text.old ++ shown_byte byte) }
{
    if byte == b'\t' {
        return text.push(b' ');
    }
    if 32 <= byte && byte <= 126 {
        return text.push(byte);
    }
    text.push(b'\\')?;
    text.push(b'x')?;
    text.push(hex_digit(byte / 16))?;
    text.push(hex_digit(byte % 16))
}

/// Appends bytes as they are shown.
pub fn push_shown(text: &mut Bytes, bytes: &[u8]) -> Result<(), Memory>
    ensures { OnOk result (text.new ≡ text.old ++ shown bytes.now) }
{
    for byte in bytes {
        push_byte(text, *byte)?;
    }
    Ok(())
}

/// Appends as many blanks.
fn push_blanks(text: &mut Bytes, count: usize) -> Result<(), Memory>
    ensures { OnOk result (text.new ≡ text.old ++ blanks count) }
{
    for _ in 0..count {
        text.push(b' ')?;
    }
    Ok(())
}

/// Appends `..`, if something is left out.
fn push_dots(text: &mut Bytes, cut: bool) -> Result<(), Memory>
    ensures { OnOk result (text.new ≡ text.old ++ dots_if cut) }
{
    if cut { text.push_all(b"..") } else { Ok(()) }
}

/// How many bytes of a line are left out before a column.
fn left_out(length: usize, column: u32) -> usize
    ensures { result ≡ left_out length column }
{
    if length <= MOST_SHOWN {
        0
    } else {
        (column as usize).saturating_sub(51)
    }
}

/// Appends at most 100 bytes of a line, from this one on.
fn push_part(text: &mut Bytes, bytes: &[u8], from: usize) -> Result<(), Memory>
    ensures { OnOk result (text.new ≡ text.old ++ part_text bytes.now from) }
{
    push_dots(text, 0 < from)?;
    push_shown(text, first_bytes(after_bytes(bytes, from), MOST_SHOWN))?;
    push_dots(text, MOST_SHOWN < bytes.len().saturating_sub(from))
}

/// What is shown of a line before a column.
fn before_caret(alloc: Global, bytes: &[u8], from: usize, column: u32) -> Result<Bytes, Memory>
    ensures { IfOk result (λ before. before ≡ before_caret bytes.now from column) }
{
    let mut before = Bytes::new(alloc);
    let count = (column as usize).saturating_sub(1).saturating_sub(from);
    push_dots(&mut before, 0 < from)?;
    push_shown(&mut before, first_bytes(after_bytes(bytes, from), count))?;
    Ok(before)
}

/// Appends a blank and the caption, if there is one.
fn push_caption(text: &mut Bytes, caption: &[u8]) -> Result<(), Memory>
    ensures { OnOk result (text.new ≡ text.old ++ caption_text caption.now) }
{
    if caption.is_empty() {
        return Ok(());
    }
    text.push(b' ')?;
    text.push_all(caption)
}

/// Appends the number of a line, and the part of the line that is shown.
fn push_shown_line(text: &mut Bytes, bytes: &[u8], from: usize, number: u32) -> Result<(), Memory>
    ensures { OnOk result (text.new ≡ text.old ++ shown_line bytes.now from number) }
{
    text.push_all(Buffer::new().format(number).as_bytes())?;
    text.push_all(b" | ")?;
    push_part(text, bytes, from)?;
    text.push(b'\n')
}

/// Appends blanks under the number of a line, and under the column a caret with a caption.
fn push_caret_line(
    text: &mut Bytes,
    alloc: Global,
    bytes: &[u8],
    from: usize,
    place: Place,
    caption: &[u8],
) -> Result<(), Memory>
    ensures { OnOk result (text.new ≡ text.old ++ caret_line bytes.now from place caption.now) }
{
    let before = before_caret(alloc, bytes, from, place.col)?;
    push_blanks(text, Buffer::new().format(place.line).len())?;
    text.push_all(b" | ")?;
    push_blanks(text, before.len())?;
    text.push(b'^')?;
    push_caption(text, caption)?;
    text.push(b'\n')
}

/// Appends a line of a text, and under its column a caret with a caption.
fn push_line_and_caret(
    text: &mut Bytes,
    alloc: Global,
    bytes: &[u8],
    place: Place,
    caption: &[u8],
) -> Result<(), Memory>
    ensures { OnOk result (text.new ≡ text.old ++ line_and_caret bytes.now place caption.now) }
{
    let from = left_out(bytes.len(), place.col);
    push_shown_line(text, bytes, from, place.line)?;
    push_caret_line(text, alloc, bytes, from, place, caption)
}

/// Appends the line of a place, with a caret under its column.
pub fn push_excerpt(
    text: &mut Bytes,
    alloc: Global,
    program: &[u8],
    place: Place,
    caption: &[u8],
) -> Result<(), Memory>
    ensures { OnOk result (text.new ≡ text.old ++ excerpt_text program.now place caption.now) }
{
    push_line_and_caret(text, alloc, line_at(program, place.line), place, caption)
}
