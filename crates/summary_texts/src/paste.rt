//! From a text and summaries of its methods to the text with these.
ghost use Rattle.std.specs.Prelude.{◌≡◌, bytes_eq, IfErr, IfOk, OnOk};
ghost use Rattle.ast_printer.specs.ItemTokens.{printed_tokens};
ghost use Rattle.twe_frontend.specs.meaning.Meaning.{TextMeans};
ghost use Rattle.twe_names.specs.Meaning.{program_of};
ghost use Rattle.summary_texts.specs.Items.{tree_with};
ghost use Rattle.summary_texts.specs.Pasted.{AgainHasCause, IsPastedText, IsReadAgain, PasteHasCause, SettledHasCause};
ghost use Rattle.summary_texts.specs.Written.{HasSummaries};
ghost use Rattle.twe_base.specs.declared.place.Place.{Place};
ghost use Rattle.twe_parser.specs.declared.fail.SRule.{SRule};
ghost use Rattle.twe_parser.specs.Fails.{Fails};

use crate::fail::PasteFail;
use crate::items::items_with;
use crate::news::news_of;
use crate::written_text::write_summaries;
use ast_printer::print_ast;
use effect_sets::Summary;
use std::alloc::Global;
use twe_ast::Ast;
use twe_base::{Bytes, MAX_TEXT_BYTES, Memory};
use twe_frontend::{FrontFail, Meaning, read_meaning};

/// Whether two trees are printed alike.
fn are_alike(alloc: Global, tree: &Ast, other: &Ast) -> Result<bool, Memory>
    ensures { IfOk result (λ alike. alike ≡ bytes_eq (printed_tokens tree.now) (printed_tokens other.now)) }
{
    let one = print_ast(alloc, tree)?;
    let two = print_ast(alloc, other)?;
    Ok(one.as_slice() == two.as_slice())
}

/// Whether a text that was read is this tree again.
fn compare_again(
    alloc: Global,
    pasted: &Ast,
    written: &[u8],
    again: &Meaning,
) -> Result<(), PasteFail>
    requires { TextMeans written.now again.now.tree again.now.program }
    ensures again { OnOk result (IsReadAgain pasted.now written.now) }
    ensures refused { IfErr result (AgainHasCause pasted.now written.now) }
{
    let _ = written;
    if are_alike(alloc, pasted, &again.tree)? {
        Ok(())
    } else {
        Err(PasteFail::Differs)
    }
}

/// Reads a text, and compares it with this tree.
fn read_again(alloc: Global, pasted: &Ast, written: &[u8]) -> Result<(), PasteFail>
    ensures again { OnOk result (IsReadAgain pasted.now written.now) }
    ensures refused { IfErr result (AgainHasCause pasted.now written.now) }
{
    match read_meaning(alloc, written) {
        Ok(again) => compare_again(alloc, pasted, written, &again),
        Err(FrontFail::Refused(_)) => Err(PasteFail::Differs),
        Err(FrontFail::OutOfMemory(memory)) => Err(PasteFail::OutOfMemory(memory)),
    }
}

/// Writes the same summaries into a text once more, and compares what comes out.
fn write_again(alloc: Global, written: &[u8], news: &[Option<Bytes>]) -> Result<(), PasteFail>
    requires { (rule : SRule) (place : Place) → ¬ Fails written.now rule place }
    ensures settled { OnOk result (HasSummaries news.now written.now written.now) }
    ensures refused { IfErr result (SettledHasCause news.now written.now) }
{
    let twice = write_summaries(alloc, written, news)?;
    if twice.as_slice() == written {
        Ok(())
    } else {
        Err(PasteFail::Differs)
    }
}

/// The tree with these summaries of its methods.
fn tree_with(alloc: Global, meaning: Meaning, each: &[Option<Summary>]) -> Result<Ast, Memory>
    requires { meaning.program ≡ program_of meaning.tree }
    ensures { IfOk result (λ tree. tree ≡ tree_with each.now meaning.tree) }
{
    let Meaning { tree, program } = meaning;
    let Ast { items, end } = tree;
    let items = items_with(alloc, program.regions.as_slice(), each, items)?;
    Ok(Ast { items, end })
}

/// The text with these summaries in the place of those of its methods, in the order of the text. A method keeps its own if
/// there is none for it, or if a text cannot have it: with a negative literal, with a path of more than 32 elements, or with
/// more than 8 effects. A comment in a summary that is replaced stays behind the new one; all other bytes stay as they are.
///
/// The text that is written was read again: its tree is printed as that of the text with these summaries. With the same
/// summaries written into it once more it stays as it is. It fails if this text would have more bytes than a text may have, if it
/// would not be so, or if memory runs out. It takes time and memory linear in both texts and in the summaries.
pub fn paste_summaries(
    alloc: Global,
    text: &[u8],
    meaning: Meaning,
    each: &[Option<Summary>],
) -> Result<Bytes, PasteFail>
    requires { TextMeans text.now meaning.tree meaning.program }
    ensures pasted { IfOk result (IsPastedText each.now meaning.tree text.now) }
    ensures refused { IfErr result (PasteHasCause each.now meaning.tree text.now) }
{
    let regions = meaning.program.regions.as_slice();
    let news = news_of(alloc, regions, each, meaning.tree.items.as_slice())?;
    let written = write_summaries(alloc, text, news.as_slice())?;
    if written.len() > MAX_TEXT_BYTES {
        return Err(PasteFail::TooLong);
    }
    let pasted = tree_with(alloc, meaning, each)?;
    read_again(alloc, &pasted, written.as_slice())?;
    write_again(alloc, written.as_slice(), news.as_slice())?;
    Ok(written)
}
