//! The usage line.
ghost use Rattle.std.specs.Prelude.{◌≡◌, IfOk};
ghost use Rattle.twe_opt.specs.Words.{opt_usage_text};

use std::alloc::Global;
use twe_base::{Bytes, Memory};

/// The usage line of `twe_opt`.
pub(crate) fn usage_text(alloc: Global) -> Result<Bytes, Memory>
    ensures { IfOk result (λ text. text ≡ opt_usage_text) }
{
    Bytes::from_slice(alloc, b"usage: twe_opt k\n")
}
