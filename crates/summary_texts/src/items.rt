//! The declarations of a tree with other summaries of its methods.
ghost use Rattle.std.specs.Prelude.{◌≡◌, IfOk};
ghost use Rattle.summary_texts.specs.Items.{decl_with, decl_with_summary, items_with};

use crate::clauses::clauses_of;
use crate::writable::can_be_written;
use effect_sets::Summary;
use std::alloc::Global;
use twe_ast::{Clause, Decl, Item};
use twe_base::{List, Memory, Word};

/// The declaration with these clauses.
fn with_effects(decl: Decl, effects: List<Clause>) -> Decl
    ensures { result ≡ record decl { effects = effects } }
{
    let Decl {
        returns,
        name,
        params,
        effects: _,
        body,
    } = decl;
    Decl {
        returns,
        name,
        params,
        effects,
        body,
    }
}

/// The declaration with this summary, if a text can have it.
fn with_summary(
    alloc: Global,
    regions: &[Word],
    summary: &Summary,
    decl: Decl,
) -> Result<Decl, Memory>
    ensures { IfOk result (λ made. made ≡ decl_with_summary regions.now summary.now decl) }
{
    if can_be_written(alloc, summary)? {
        let effects = clauses_of(alloc, regions, decl.params.as_slice(), summary)?;
        Ok(with_effects(decl, effects))
    } else {
        Ok(decl)
    }
}

/// The declaration with this summary, if there is one and a text can have it.
fn decl_with(
    alloc: Global,
    regions: &[Word],
    its: &Option<Summary>,
    decl: Decl,
) -> Result<Decl, Memory>
    ensures { IfOk result (λ made. made ≡ decl_with regions.now its.now decl) }
{
    match its {
        None => Ok(decl),
        Some(summary) => with_summary(alloc, regions, summary, decl),
    }
}

/// The declarations with these summaries of the methods, in the order of the text, each if a text can have it.
pub(crate) fn items_with(
    alloc: Global,
    regions: &[Word],
    each: &[Option<Summary>],
    items: List<Item>,
) -> Result<List<Item>, Memory>
    ensures { IfOk result (λ made. made ≡ items_with regions.now each.now items) }
{
    let mut made = List::new(alloc);
    let mut at = 0;
    for item in items.into_vec() {
        match item {
            Item::Regions(names) => made.push(Item::Regions(names))?,
            Item::Cell(cell) => made.push(Item::Cell(cell))?,
            Item::Task {
                deterministic,
                decl,
            } => made.push(Item::Task {
                deterministic,
                decl,
            })?,
            Item::Method(decl) => match each.get(at) {
                None => made.push(Item::Method(decl))?,
                Some(its) => {
                    made.push(Item::Method(decl_with(alloc, regions, its, decl)?))?;
                    at += 1;
                }
            },
        }
    }
    Ok(made)
}
