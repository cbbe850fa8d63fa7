//! The least summaries of a program's methods.
ghost use Rattle.std.specs.Prelude.{◌≡◌, ◌<◌, ◌^◌, length, map, List, Some, IfErr, IfOk};
ghost use Rattle.effect_sets.specs.declared.effects.Summary.{Summary};
ghost use Rattle.twe_program.specs.WellFormed.{IsWellFormed};
ghost use Rattle.effect_infer.specs.needs.Choices.{NoMethodFails, NoRuleFails, with_summaries};
ghost use Rattle.effect_infer.specs.Covered.{HasFoundAll};
ghost use Rattle.effect_infer.specs.Inferred.{AreCoveredByAll, AreEachLeast, AreLeast, InferHasCause};
ghost use Rattle.effect_infer.specs.Table.{IsWidestTable};

use crate::fail::InferFail;
use crate::found::AllFound;
use crate::gather::gather;
use crate::keep::{Table, keep_widest};
use crate::spread::spread;
use crate::summary::{EachNeeds, Needs, each_summary, summaries};
use std::alloc::Global;
use twe_base::Memory;
use twe_program::Prog;

/// Needs of methods, among which are the widest of each method.
fn find(alloc: Global, p: &Prog) -> Result<AllFound, Memory>
    requires { length p.now.methods < 2 ^ 32 }
    ensures { IfOk result (HasFoundAll p.now) }
{
    let methods = p.methods.as_slice();
    let gathered = gather(alloc, p.cells.as_slice(), methods)?;
    let starts = gathered.starts.as_slice();
    spread(alloc, starts, &gathered.calls, methods.len())
}

/// For each method its widest needs, or too many of them.
fn widest(alloc: Global, p: &Prog) -> Result<Table, Memory>
    ensures count { IfOk result (λ table. length table < 2 ^ 32) }
    ensures widest { IfOk result (IsWidestTable p.now) }
    ensures well_formed { IfOk result (λ table. IsWellFormed p.now) }
{
    let methods = p.methods.as_slice();
    if methods.len() > u32::MAX as usize {
        return Err(Memory::of_uncountable(methods));
    }
    let all = find(alloc, p)?;
    keep_widest(alloc, all.as_slice(), methods.len())
}

/// The least summary of each method: the needs of the method that no other of its needs covers. What methods declare is not
/// looked at. With these summaries no method fails the rule on methods, and every choice with which none fails covers them.
/// A program that fails no rule on effects fails none with these summaries in the place of the declared ones.
/// It fails exactly if some method would have more than 8 effects, with the first such method, or if memory runs out.
pub fn infer(alloc: Global, p: &Prog) -> Result<Needs, InferFail>
    ensures least { IfOk result (AreLeast p.now) }
    ensures accepted { IfOk result (λ needs. NoMethodFails (with_summaries needs p.now)) }
    ensures stays { IfOk result (λ needs. NoRuleFails p.now → NoRuleFails (with_summaries needs p.now)) }
    ensures covered { IfOk result (AreCoveredByAll p.now) }
    ensures refused { IfErr result (InferHasCause p.now) }
{
    let table = widest(alloc, p)?;
    summaries(alloc, &table)
}

/// The least summary of each method, or `None` for one whose least summary would have more than 8 effects: the others have
/// theirs then, too. If every method has one, what `infer` promises holds of them.
pub fn infer_each(alloc: Global, p: &Prog) -> Result<EachNeeds, Memory>
    ensures least { IfOk result (AreEachLeast p.now) }
    ensures accepted { IfOk result (λ each. (all : List Summary) → each ≡ map Some all
        → NoMethodFails (with_summaries all p.now)) }
    ensures stays { IfOk result (λ each. (all : List Summary) → each ≡ map Some all
        → NoRuleFails p.now → NoRuleFails (with_summaries all p.now)) }
    ensures covered { IfOk result (λ each. (all : List Summary) → each ≡ map Some all → AreCoveredByAll p.now all) }
{
    let table = widest(alloc, p)?;
    each_summary(alloc, &table)
}
