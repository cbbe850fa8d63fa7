//! The journal after the result of a run.
ghost use Rattle.std.specs.Prelude.{◌≡◌, IfOk};
ghost use Rattle.twe_report.specs.Texts as texts;

use seg_journal::{Journal, print_journal};
use std::alloc::Global;
use twe_base::{Bytes, Limits, Memory};

/// The lines of a journal after the other lines of a run: a line `%%`, and the text of the journal with the limits as its
/// head.
pub fn journal_part(alloc: Global, journal: &Journal, lim: Limits) -> Result<Bytes, Memory>
    ensures { IfOk result (λ text. text ≡ texts.journal_part_text lim journal.now) }
{
    let mut text = Bytes::from_slice(alloc, b"%%\n")?;
    let lines = print_journal(alloc, journal, lim)?;
    text.push_all(lines.as_slice())?;
    Ok(text)
}
