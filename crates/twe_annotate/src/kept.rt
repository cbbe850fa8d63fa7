//! The lines of the methods that keep their clauses.
ghost use Rattle.std.specs.Prelude.{◌≡◌, ◌++◌, IfOk, OnOk};
ghost use Rattle.std.specs.List.{list_all};
ghost use Rattle.std.specs.Option.{is_some};
ghost use Rattle.twe_annotate.specs.Kept.{kept_line, kept_lines, named_line, unwritable_line, write_status};
ghost use Rattle.twe_annotate.specs.Kept as texts;

use effect_sets::Summary;
use std::alloc::Global;
use summary_texts::can_be_written;
use twe_ast::{Item, Name};
use twe_base::{Bytes, Memory};
use twe_io::Status;
use twe_report::push_place;

/// Appends a line: these words, a name, and its place.
fn push_named(text: &mut Bytes, words: &[u8], name: &Name) -> Result<(), Memory>
    ensures { OnOk result (text.new ≡ text.old ++ named_line words.now name.now) }
{
    text.push_all(words)?;
    text.push_all(name.text.as_bytes())?;
    text.push_all(b" at ")?;
    push_place(text, name.place)?;
    text.push(b'\n')
}

/// Appends a line for a method if a text cannot have its least summary.
fn push_unwritable(
    text: &mut Bytes,
    alloc: Global,
    name: &Name,
    summary: &Summary,
) -> Result<(), Memory>
    ensures { OnOk result (text.new ≡ text.old ++ unwritable_line name.now summary.now) }
{
    if can_be_written(alloc, summary)? {
        return Ok(());
    }
    push_named(text, b"cannot be written: ", name)
}

/// Appends a line for a method if it keeps its clause.
fn push_kept(
    text: &mut Bytes,
    alloc: Global,
    name: &Name,
    its: &Option<Summary>,
) -> Result<(), Memory>
    ensures { OnOk result (text.new ≡ text.old ++ kept_line name.now its.now) }
{
    match its {
        None => push_named(text, b"too many effects: ", name),
        Some(summary) => push_unwritable(text, alloc, name, summary),
    }
}

/// A line for each method that keeps its clause, in the order of the declarations.
pub(crate) fn kept_lines(
    alloc: Global,
    each: &[Option<Summary>],
    items: &[Item],
) -> Result<Bytes, Memory>
    ensures { IfOk result (λ text. text ≡ kept_lines each.now items.now) }
{
    let mut text = Bytes::new(alloc);
    let mut at = 0;
    for item in items {
        if let Item::Method(decl) = item
            && let Some(its) = each.get(at)
        {
            push_kept(&mut text, alloc, &decl.name, its)?;
            at += 1;
        }
    }
    Ok(text)
}

/// Whether there is a summary.
fn has_summary(its: &Option<Summary>) -> bool
    ensures { result ≡ is_some its.now }
{
    its.is_some()
}

/// Whether there is a summary for each method.
fn have_summaries(each: &[Option<Summary>]) -> bool
    ensures { result ≡ list_all (λ its. is_some its) each.now }
{
    each.iter().all(|its| has_summary(its))
}

/// The status if the text is written: whether a method would have too many effects.
pub(crate) fn write_status(each: &[Option<Summary>]) -> Status
    ensures { result ≡ write_status each.now }
{
    if have_summaries(each) {
        Status::Done
    } else {
        Status::TooMany
    }
}

/// The line of a text that would be too long with the least summaries.
pub(crate) fn long_text(alloc: Global) -> Result<Bytes, Memory>
    ensures { IfOk result (λ text. text ≡ texts.long_text) }
{
    Bytes::from_slice(alloc, b"too long with the least summaries\n")
}

/// The line of a text that would be another one with the least summaries.
pub(crate) fn otherwise_text(alloc: Global) -> Result<Bytes, Memory>
    ensures { IfOk result (λ text. text ≡ texts.otherwise_text) }
{
    Bytes::from_slice(alloc, b"not the same text with the least summaries\n")
}
