//! The words after the program's name.
ghost use Rattle.std.specs.Prelude.{◌≡◌, IfOk};
ghost use Rattle.twe_format.specs.Words.{format_request, format_usage_text};

use std::alloc::Global;
use twe_base::{Bytes, Memory, Word};
use twe_report::by_word;

/// What is asked for.
#[derive(Clone, Copy, Debug, PartialEq, Eq)]
pub enum FormatRequest {
    /// The text in its layout.
    Write,
    /// The lines at which the text is not in its layout.
    Check,
}

/// What the words ask for: none asks for the text in its layout, and `--check` alone for the lines that differ. Other words ask
/// for nothing.
pub(crate) fn format_request(words: &[Word]) -> Option<FormatRequest>
    ensures { result ≡ format_request words.now }
{
    by_word(
        words,
        FormatRequest::Write,
        b"--check",
        FormatRequest::Check,
    )
}

/// The usage line.
pub(crate) fn usage_text(alloc: Global) -> Result<Bytes, Memory>
    ensures { IfOk result (λ text. text ≡ format_usage_text) }
{
    Bytes::from_slice(alloc, b"usage: twe_format [--check]\n")
}
