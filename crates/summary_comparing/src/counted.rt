//! The summaries with which methods count for those that call them.
ghost use Rattle.std.specs.Prelude.{◌≡◌, IfOk};
ghost use Rattle.summary_comparing.specs.Counted.{AreCountedWith, counted_summaries, counted_summary};

use effect_infer::infer_each;
use effect_sets::Summary;
use std::alloc::Global;
use twe_base::{List, Memory};
use twe_program::{Decl, Prog};

/// The least summary of a method, or the declared one if there is none.
fn counted_summary(alloc: Global, least: &Option<Summary>, decl: &Decl) -> Result<Summary, Memory>
    ensures { IfOk result (λ summary. summary ≡ counted_summary least.now decl.now) }
{
    match least {
        None => decl.summary.copy(alloc),
        Some(least) => least.copy(alloc),
    }
}

/// The same of each method.
fn counted_summaries(
    alloc: Global,
    least: &[Option<Summary>],
    decls: &[Decl],
) -> Result<List<Summary>, Memory>
    ensures { IfOk result (λ summaries. summaries ≡ counted_summaries least.now decls.now) }
{
    let mut summaries = List::new(alloc);
    let mut at = 0;
    for one in least {
        if let Some(decl) = decls.get(at) {
            summaries.push(counted_summary(alloc, one, decl)?)?;
            at += 1;
        }
    }
    Ok(summaries)
}

/// The summaries with which the methods of the program count: the least ones, or the declared one of a method whose least
/// summary would have more than 8 effects.
pub(crate) fn summaries_of(alloc: Global, p: &Prog) -> Result<List<Summary>, Memory>
    ensures { IfOk result (AreCountedWith p.now) }
{
    let least = infer_each(alloc, p)?;
    counted_summaries(alloc, least.as_slice(), p.methods.as_slice())
}
