//! The words after the program's name.
ghost use Rattle.std.specs.Prelude.{◌≡◌, IfOk};
ghost use Rattle.twe_draw.specs.Words.{asked_drawing, draw_usage_text, drawing_named};

use std::alloc::Global;
use twe_base::{Bytes, Memory, Word};

/// What goes from the left of a picture to its right.
#[derive(Clone, Copy, Debug, PartialEq, Eq)]
pub enum AxisKind {
    /// Virtual time.
    Time,
    /// The entries in their order, a column for each.
    Order,
}

/// What is written.
#[derive(Clone, Copy, Debug, PartialEq, Eq)]
pub enum Drawing {
    /// A picture.
    Picture(AxisKind),
    /// The events of a trace.
    Trace,
}

/// What the words ask for: none for a picture by time, `order` alone for one with a column for each entry, and `trace` alone for
/// the events of a trace. Other words ask for nothing.
pub(crate) fn asked_drawing(words: &[Word]) -> Option<Drawing>
    ensures { result ≡ asked_drawing words.now }
{
    match words {
        [] => Some(Drawing::Picture(AxisKind::Time)),
        [word] => drawing_named(word),
        _ => None,
    }
}

/// What one word asks for.
fn drawing_named(word: &Word) -> Option<Drawing>
    ensures { result ≡ drawing_named word.now }
{
    if word.as_bytes() == b"order".as_slice() {
        Some(Drawing::Picture(AxisKind::Order))
    } else if word.as_bytes() == b"trace".as_slice() {
        Some(Drawing::Trace)
    } else {
        None
    }
}

/// The usage line.
pub(crate) fn usage_text(alloc: Global) -> Result<Bytes, Memory>
    ensures { IfOk result (λ text. text ≡ draw_usage_text) }
{
    Bytes::from_slice(alloc, b"usage: twe_draw [order | trace]\n")
}
