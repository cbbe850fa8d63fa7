//! Edits of a text: where they begin, and what the text is afterwards.
ghost use Rattle.std.specs.Prelude.{◌≡◌, IfOk};
ghost use Rattle.std.specs.List.{prefix_len};
ghost use Rattle.refusal_notes.specs.Edits.{bytes_before, edited, from_statement, indent_at, is_indent, place_offset, statement_offset, without_span};

use crate::spots::Span;
use refusal_causes::text_rules::from_place;
use std::alloc::Global;
use twe_base::{Bytes, Memory, Place};
use twe_frontend::{after_bytes, after_lines, first_bytes, line_at};

/// Whether a byte is a space or a tab.
fn is_indent(byte: u8) -> bool
    ensures { result ≡ is_indent byte }
{
    byte == b' ' || byte == b'\t'
}

/// How many spaces and tabs the bytes begin with.
fn indent_length(bytes: &[u8]) -> usize
    ensures { result ≡ prefix_len is_indent bytes.now }
{
    bytes.iter().take_while(|byte| is_indent(**byte)).count()
}

/// How many spaces and tabs the line of this number begins with.
fn indent_at(text: &[u8], number: u32) -> usize
    ensures { result ≡ indent_at text.now number }
{
    indent_length(line_at(text, number))
}

/// The text from the first byte of the line of this number on that is no space or tab.
fn from_statement(text: &[u8], number: u32) -> &[u8]
    ensures { result.now ≡ from_statement text.now number }
{
    let line = after_lines(text, number.saturating_sub(1));
    after_bytes(line, indent_at(text, number))
}

/// How many bytes of a text come before the rest of it.
fn bytes_before(text: &[u8], rest: &[u8]) -> usize
    ensures { result ≡ bytes_before text.now rest.now }
{
    text.len().saturating_sub(rest.len())
}

/// How many bytes of a text come before the place.
pub(crate) fn place_offset(text: &[u8], place: Place) -> usize
    ensures { result ≡ place_offset text.now place }
{
    bytes_before(text, from_place(text, place))
}

/// How many bytes of a text come before the first one of this line that is no space or tab.
pub(crate) fn statement_offset(text: &[u8], number: u32) -> usize
    ensures { result ≡ statement_offset text.now number }
{
    bytes_before(text, from_statement(text, number))
}

/// The text with other bytes after its first `from` ones, instead of so many there.
pub(crate) fn edited(
    alloc: Global,
    text: &[u8],
    from: usize,
    count: usize,
    bytes: &[u8],
) -> Result<Bytes, Memory>
    ensures { IfOk result (λ made. made ≡ edited text.now from count bytes.now) }
{
    let mut made = Bytes::from_slice(alloc, first_bytes(text, from))?;
    made.push_all(bytes)?;
    made.push_all(after_bytes(after_bytes(text, from), count))?;
    Ok(made)
}

/// The text without this part.
pub(crate) fn without_span(alloc: Global, text: &[u8], span: Span) -> Result<Bytes, Memory>
    ensures { IfOk result (λ made. made ≡ without_span text.now span) }
{
    let mut made = Bytes::from_slice(alloc, first_bytes(text, span.start.offset))?;
    made.push_all(after_bytes(after_bytes(text, span.last), 1))?;
    Ok(made)
}
