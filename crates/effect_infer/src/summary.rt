//! The summaries that needs make.
ghost use Rattle.std.specs.Prelude.{◌≡◌, ◌<◌, ◌^◌, length, map, IfOk, IfErr};
ghost use Rattle.effect_infer.specs.needs.Needs.{effect_of};
ghost use Rattle.effect_infer.specs.Inferred.{summary_of};
ghost use Rattle.effect_infer.specs.Table.{AreFew, IsFirstLong, few_summary_of};

use crate::fail::InferFail;
use crate::keep::{Table, Widest};
use crate::needs::Need;
use crate::widen::copy;
use effect_sets::{Effect, Effects, Summary};
use region_paths::{Elems, Path};
use std::alloc::Global;
use twe_base::{List, Memory};

/// How many effects a summary has at most.
const MAX_EFFECTS: usize = 8;

/// For each method of a program a summary.
pub type Needs = List<Summary>;

/// For each method of a program a summary, if it has few effects enough.
pub type EachNeeds = List<Option<Summary>>;

/// A need, as an effect of a summary.
fn effect(alloc: Global, need: &Need) -> Result<Effect, Memory>
    ensures { IfOk result (λ effect. effect ≡ effect_of need.now) }
{
    let Need { write, elems } = copy(alloc, need)?;
    let path = Path::new(elems, false, Elems::new(alloc));
    Ok(Effect { write, path })
}

/// The summary that these needs make.
fn summary(alloc: Global, needs: &Widest) -> Result<Summary, Memory>
    ensures { IfOk result (λ summary. summary ≡ summary_of needs.now) }
{
    let mut effects = Effects::new(alloc);
    for need in needs.as_slice() {
        effects.push(effect(alloc, need)?)?;
    }
    Ok(Summary { effects })
}

/// The summaries that these needs make, or the first method with too many of them.
pub(crate) fn summaries(alloc: Global, table: &Table) -> Result<Needs, InferFail>
    requires { length table.now < 2 ^ 32 }
    ensures made { IfOk result (λ needs. needs ≡ map summary_of table.now) }
    ensures few { IfOk result (λ needs. AreFew table.now) }
    ensures many { IfErr result (IsFirstLong table.now) }
{
    let mut needs = Needs::new(alloc);
    for (method, widest) in table.as_slice().iter().enumerate() {
        if widest.len() > MAX_EFFECTS {
            return Err(InferFail::TooMany {
                method: method as u32,
            });
        }
        needs.push(summary(alloc, widest)?)?;
    }
    Ok(needs)
}

/// The summary that these needs make, if they are few enough.
fn few_summary(alloc: Global, needs: &Widest) -> Result<Option<Summary>, Memory>
    ensures { IfOk result (λ made. made ≡ few_summary_of needs.now) }
{
    if needs.len() > MAX_EFFECTS {
        return Ok(None);
    }
    Ok(Some(summary(alloc, needs)?))
}

/// The summaries that these needs make, each if its needs are few enough.
pub(crate) fn each_summary(alloc: Global, table: &Table) -> Result<EachNeeds, Memory>
    ensures { IfOk result (λ each. each ≡ map few_summary_of table.now) }
{
    let mut each = EachNeeds::new(alloc);
    for widest in table.as_slice() {
        each.push(few_summary(alloc, widest)?)?;
    }
    Ok(each)
}
