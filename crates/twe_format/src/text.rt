//! The line of a text whose layout is too long.
ghost use Rattle.std.specs.Prelude.{◌≡◌, IfOk};
ghost use Rattle.twe_format.specs.Words as texts;

use std::alloc::Global;
use twe_base::{Bytes, Memory};

/// The line of a text that would be too long in its layout.
pub(crate) fn long_layout_text(alloc: Global) -> Result<Bytes, Memory>
    ensures { IfOk result (λ text. text ≡ texts.long_layout_text) }
{
    Bytes::from_slice(alloc, b"too long in its layout\n")
}
