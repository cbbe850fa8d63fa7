//! Explains what one declaration needs, by a chain of calls for each need.
ghost use Rattle.std.specs.Prelude.{◌≡◌, [], IfOk, List};
ghost use Rattle.twe_base.specs.declared.place.Place.{Place as Spot};
ghost use Rattle.summary_comparing.specs.Chained.{IsExplanation};
ghost use Rattle.summary_comparing.specs.declared.chain.NeedChain.{NeedChain as Chain};
ghost use Rattle.summary_comparing.specs.ChainTexts.{AreExplained, AreNamedLines, explained_text};
ghost use Rattle.summary_comparing.specs.CompareTexts.{many_line};
ghost use Rattle.summary_comparing.specs.EffectOrder.{in_effect_order};
ghost use Rattle.summary_comparing.specs.Counted.{AreCountedWith};
ghost use Rattle.summary_comparing.specs.Needed.{body_needs, child_needs};
ghost use Rattle.summary_comparing.specs.Widest.{AreFewWidest};
ghost use Rattle.summary_comparing.specs.inner.Differing.{HaveSame};

use crate::bodies::bodies_of;
use crate::chain::{NeedChain, chains_of};
use crate::chain_lines::{push_need_lines, push_spawn_lines};
use crate::comparing::comparison_of;
use crate::comparison::Comparison;
use crate::counted::summaries_of;
use crate::covering::copy_effects;
use crate::effect_order::in_effect_order;
use crate::lines::{CompareLines, push_many, push_wider_text};
use crate::named::{declaration_of, written_as};
use crate::needed::{body_needs, child_needs};
use crate::spawned::spawn_places;
use crate::widest::few_widest;
use effect_sets::{Effect, Summary};
use std::alloc::Global;
use twe_ast::{Ast, Decl};
use twe_base::{Bytes, Memory, Place, Word};
use twe_program::{Decl as Resolved, Prog};

/// The text on what a declaration needs, if these are the widest effects and their chains, and those of its children and their
/// places.
fn explained_text(
    alloc: Global,
    regions: &[Word],
    its: &Decl,
    comparison: &Comparison,
    needed: &[Effect],
    chains: &[NeedChain],
    spawned: &[Effect],
    places: &[Place],
) -> Result<Bytes, Memory>
    ensures { IfOk result (λ text. text
        ≡ explained_text regions.now its.now comparison.now needed.now chains.now spawned.now places.now) }
{
    let mut text = Bytes::new(alloc);
    push_wider_text(&mut text, alloc, regions, its, comparison)?;
    let params = its.params.as_slice();
    push_need_lines(&mut text, regions, params, needed, chains)?;
    push_spawn_lines(spawned, places, &mut text, regions, params)?;
    Ok(text)
}

/// The text on what the declaration needs, of which these are the widest effects, if methods count with these summaries.
fn explain_effects(
    alloc: Global,
    p: &Prog,
    summaries: &[Summary],
    its: &Decl,
    decl: &Resolved,
    comparison: &Comparison,
    needed: &[Effect],
    spawned: &[Effect],
) -> Result<Bytes, Memory>
    requires few_needed { AreFewWidest (body_needs p.now summaries.now decl.now) needed.now }
    requires few_spawned { AreFewWidest (child_needs p.now decl.now) spawned.now }
    ensures { IfOk result (λ text. (chains : List Chain) × (places : List Spot)
        × IsExplanation p.now summaries.now decl.now needed.now spawned.now chains places
        × (text ≡ explained_text p.now.regions its.now comparison.now (in_effect_order needed.now) chains
        (in_effect_order spawned.now) places)) }
{
    let bodies = bodies_of(alloc, p)?;
    let needed = in_effect_order(alloc, needed)?;
    let spawned = in_effect_order(alloc, spawned)?;
    let needed = needed.as_slice();
    let spawned = spawned.as_slice();
    let chains = chains_of(alloc, p, bodies.as_slice(), summaries, decl, needed)?;
    let places = spawn_places(alloc, p, decl, spawned)?;
    let regions = p.regions.as_slice();
    let chains = chains.as_slice();
    let places = places.as_slice();
    explained_text(
        alloc, regions, its, comparison, needed, chains, spawned, places,
    )
}

/// The lines on a declaration that needs too many effects.
fn many_lines(alloc: Global, its: &Decl) -> Result<CompareLines, Memory>
    ensures { IfOk result (λ lines. lines ≡ record { wider = []; many = many_line its.now.name }) }
{
    let mut many = Bytes::new(alloc);
    push_many(&mut many, &its.name)?;
    Ok(CompareLines {
        wider: Bytes::new(alloc),
        many,
    })
}

/// The lines on a declaration that needs few effects, of which these are the widest.
fn few_lines(
    alloc: Global,
    p: &Prog,
    summaries: &[Summary],
    its: &Decl,
    decl: &Resolved,
    body: &[Effect],
    children: &[Effect],
    needed: &[Effect],
    spawned: &[Effect],
) -> Result<CompareLines, Memory>
    requires counted { AreCountedWith p.now summaries.now }
    requires body { HaveSame body.now (body_needs p.now summaries.now decl.now) }
    requires children { children.now ≡ child_needs p.now decl.now }
    requires few_needed { AreFewWidest (body_needs p.now summaries.now decl.now) needed.now }
    requires few_spawned { AreFewWidest (child_needs p.now decl.now) spawned.now }
    ensures { IfOk result (AreExplained p.now its.now decl.now) }
{
    let widest = copy_effects(alloc, needed)?;
    let others = copy_effects(alloc, spawned)?;
    let declared = decl.summary.effects.as_slice();
    let comparison = comparison_of(alloc, body, children, declared, widest, others)?;
    let wider = explain_effects(alloc, p, summaries, its, decl, &comparison, needed, spawned)?;
    Ok(CompareLines {
        wider,
        many: Bytes::new(alloc),
    })
}

/// The lines on the declaration, which is written so in the text.
fn explain(alloc: Global, p: &Prog, its: &Decl, decl: &Resolved) -> Result<CompareLines, Memory>
    ensures { IfOk result (AreExplained p.now its.now decl.now) }
{
    let summaries = summaries_of(alloc, p)?;
    let summaries = summaries.as_slice();
    let body = body_needs(alloc, p, summaries, decl)?;
    let children = child_needs(alloc, p, decl)?;
    let body = body.as_slice();
    let children = children.as_slice();
    let needed = few_widest(alloc, body)?;
    let spawned = few_widest(alloc, children)?;
    let Some(needed) = needed else {
        return many_lines(alloc, its);
    };
    let Some(spawned) = spawned else {
        return many_lines(alloc, its);
    };
    few_lines(
        alloc,
        p,
        summaries,
        its,
        decl,
        body,
        children,
        needed.as_slice(),
        spawned.as_slice(),
    )
}

/// The lines on the method or the task with this name in a program and its tree: how it compares with what it needs, if it
/// declares more, a chain of calls for each need, and a spawn for each effect that a child declares. `None` if no method and no
/// task has the name. Whether the program keeps the rules on effects is not looked at.
pub fn explain_lines(
    alloc: Global,
    tree: &Ast,
    p: &Prog,
    name: &[u8],
) -> Result<Option<CompareLines>, Memory>
    ensures { IfOk result (AreNamedLines tree.now p.now name.now) }
{
    let Some(its) = written_as(name, tree.items.as_slice()) else {
        return Ok(None);
    };
    let Some(decl) = declaration_of(p, name) else {
        return Ok(None);
    };
    Ok(Some(explain(alloc, p, its, decl)?))
}
