//! The reading of a whole text.
ghost use Rattle.twe_io.specs.Ends.{WasRead, source};

use crate::{ReadFail, Source, read_all};
use std::alloc::Global;
use twe_base::{Bytes, MAX_TEXT_BYTES};

/// Reads all that a source has left. `WasRead` says which reads were made and what they gave. A text has at most 1,048,576
/// bytes: if the source has more, or if a read fails, nothing is returned of what was read.
pub fn read_text<S: Source>(alloc: Global, src: &mut S) -> Result<Bytes, ReadFail>
    ensures { WasRead (source S.left S.faults S.read_gives) src.old result src.new }
{
    read_all(alloc, src, MAX_TEXT_BYTES)
}
