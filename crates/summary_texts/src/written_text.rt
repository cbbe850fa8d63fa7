//! From a text and the summaries of its methods to the text with these.
ghost use Rattle.std.specs.Prelude.{IfOk};
ghost use Rattle.twe_base.specs.declared.place.Place.{Place};
ghost use Rattle.twe_parser.specs.declared.fail.SRule.{SRule};
ghost use Rattle.twe_parser.specs.Fails.{Fails};
ghost use Rattle.summary_texts.specs.Written.{HasSummaries};

use crate::lexemes::next_lexeme;
use crate::writer::Writer;
use std::alloc::Global;
use twe_base::{Bytes, Memory};

/// The text with these summaries in the place of those of its methods, in the order of the text. A method keeps its summary if
/// its place has `None`, or if there is none for it. A comment in a summary that is replaced stays behind the new one. All
/// other bytes stay as they are. The text fails no rule of the text. It takes time and memory linear in the length of the text
/// and of what is written.
pub fn write_summaries(alloc: Global, text: &[u8], news: &[Option<Bytes>]) -> Result<Bytes, Memory>
    requires { (rule : SRule) (place : Place) → ¬ Fails text.now rule place }
    ensures { IfOk result (HasSummaries news.now text.now) }
{
    let mut writer = Writer::new(alloc);
    let mut rest = text;
    while !rest.is_empty() {
        let lexeme = next_lexeme(alloc, rest)?;
        let (bytes, later) = rest.split_at(lexeme.len);
        writer.take(alloc, news, bytes, lexeme.token.is_none())?;
        rest = later;
    }
    writer.finish()
}
