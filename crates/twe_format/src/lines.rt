//! The lines of a text.
ghost use Rattle.std.specs.Prelude.{◌≡◌, ◌≤◌, ◌+◌, length, count_by, IfOk};
ghost use Rattle.twe_base.specs.Language.{max_text_bytes};
ghost use Rattle.twe_format.specs.Lines.{is_ink, first_line, next_line, numbered_lines};

use std::alloc::Global;
use twe_base::{Bytes, List, Memory};

/// A line of a text.
#[derive(Debug, Drop)]
pub struct Line {
    /// Its number, counted from 1.
    pub number: usize,
    /// How many bytes other than blanks stand before it in the text.
    pub before: usize,
    /// Its bytes, without the one that ends it.
    pub bytes: Bytes,
    /// Whether a byte ends it. Only the last line of a text may have none.
    pub ended: bool,
}

/// Whether the byte is not white space.
fn is_ink(byte: u8) -> bool
    ensures { result ≡ is_ink byte }
{
    !(byte == b'\t' || byte == b'\n' || byte == b'\r' || byte == b' ')
}

/// How many of the bytes are not white space.
fn count_ink(bytes: &[u8]) -> usize
    ensures { result ≡ count_by is_ink bytes.now }
{
    bytes.iter().filter(|byte| is_ink(**byte)).count()
}

impl Line {
    /// The first line of a text, of which nothing is read.
    fn first(alloc: Global) -> Self
        ensures { result ≡ first_line }
    {
        Line {
            number: 1,
            before: 0,
            bytes: Bytes::new(alloc),
            ended: false,
        }
    }

    /// The line after this one, of which nothing is read.
    fn next(&self, alloc: Global) -> Self
        requires number { self.now.number ≤ max_text_bytes }
        requires before { self.now.before + length self.now.bytes ≤ max_text_bytes }
        ensures { result ≡ next_line self.now }
    {
        Line {
            number: self.number + 1,
            before: self.before + count_ink(self.bytes.as_slice()),
            bytes: Bytes::new(alloc),
            ended: false,
        }
    }
}

/// The lines of a text. It takes time and memory linear in the length of the text.
pub(crate) fn numbered_lines(alloc: Global, text: &[u8]) -> Result<List<Line>, Memory>
    requires { length text.now ≤ max_text_bytes }
    ensures { IfOk result (λ lines. lines ≡ numbered_lines text.now) }
{
    let mut lines: List<Line> = List::new(alloc);
    let mut line = Line::first(alloc);
    for byte in text {
        if *byte == b'\n' {
            let next = line.next(alloc);
            line.ended = true;
            lines.push(line)?;
            line = next;
        } else {
            line.bytes.push(*byte)?;
        }
    }
    if !line.bytes.is_empty() {
        lines.push(line)?;
    }
    Ok(lines)
}
