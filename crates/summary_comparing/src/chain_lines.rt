//! The lines on what a declaration needs, with the places of a chain for each need.
ghost use Rattle.std.specs.Prelude.{◌≡◌, ◌++◌, OnOk};
ghost use Rattle.summary_comparing.specs.ChainTexts.{chain_end, spawn_line, spawn_lines, effect_at, more_places, need_line, need_lines, places_text};

use crate::chain::NeedChain;
use crate::lines::push_line_and_column;
use effect_sets::Effect;
use twe_ast::Name;
use twe_base::{Bytes, Memory, Place, Word};
use twe_frontend::push_effect;

/// Appends places, each after `, `.
fn push_more_places(text: &mut Bytes, places: &[Place]) -> Result<(), Memory>
    ensures { OnOk result (text.new ≡ text.old ++ more_places places.now) }
{
    for place in places {
        text.push_all(b", ")?;
        push_line_and_column(text, *place)?;
    }
    Ok(())
}

/// Appends places with `, ` between them.
fn push_places(text: &mut Bytes, places: &[Place]) -> Result<(), Memory>
    ensures { OnOk result (text.new ≡ text.old ++ places_text places.now) }
{
    let Some((place, others)) = places.split_first() else {
        return Ok(());
    };
    push_line_and_column(text, *place)?;
    push_more_places(text, others)
}

/// Appends how a chain ends, if it ends with no access.
fn push_chain_end(text: &mut Bytes, declared: bool) -> Result<(), Memory>
    ensures { OnOk result (text.new ≡ text.old ++ chain_end declared) }
{
    if declared {
        text.push_all(b", as declared")
    } else {
        Ok(())
    }
}

/// Appends these words, an effect, and ` at `.
fn push_effect_at(
    text: &mut Bytes,
    regions: &[Word],
    params: &[Name],
    words: &[u8],
    effect: &Effect,
) -> Result<(), Memory>
    ensures { OnOk result (text.new ≡ text.old ++ effect_at regions.now params.now words.now effect.now) }
{
    text.push_all(words)?;
    push_effect(text, regions, params, effect)?;
    text.push_all(b" at ")
}

/// Appends the line of an effect that is needed.
fn push_need_line(
    text: &mut Bytes,
    regions: &[Word],
    params: &[Name],
    effect: &Effect,
    chain: &NeedChain,
) -> Result<(), Memory>
    ensures { OnOk result (text.new ≡ text.old ++ need_line regions.now params.now effect.now chain.now) }
{
    push_effect_at(text, regions, params, b"needs ", effect)?;
    push_places(text, chain.places.as_slice())?;
    push_chain_end(text, chain.declared)?;
    text.push(b'\n')
}

/// Appends a line for each effect and its chain. Each call is for effects fewer, of which there are at most 8.
pub(crate) fn push_need_lines(
    text: &mut Bytes,
    regions: &[Word],
    params: &[Name],
    effects: &[Effect],
    chains: &[NeedChain],
) -> Result<(), Memory>
    ensures { OnOk result (text.new ≡ text.old ++ need_lines regions.now params.now effects.now chains.now) }
{
    let Some((effect, others)) = effects.split_first() else {
        return Ok(());
    };
    let Some((chain, rest)) = chains.split_first() else {
        return Ok(());
    };
    push_need_line(text, regions, params, effect, chain)?;
    push_need_lines(text, regions, params, others, rest)
}

/// Appends the line of an effect that a spawned child declares.
fn push_spawn_line(
    text: &mut Bytes,
    regions: &[Word],
    params: &[Name],
    effect: &Effect,
    place: &Place,
) -> Result<(), Memory>
    ensures { OnOk result (text.new ≡ text.old ++ spawn_line regions.now params.now effect.now place.now) }
{
    push_effect_at(text, regions, params, b"a child declares ", effect)?;
    push_line_and_column(text, *place)?;
    text.push(b'\n')
}

/// Appends a line for each effect and its place. Each call is for effects fewer, of which there are at most 8.
pub(crate) fn push_spawn_lines(
    effects: &[Effect],
    places: &[Place],
    text: &mut Bytes,
    regions: &[Word],
    params: &[Name],
) -> Result<(), Memory>
    ensures { OnOk result (text.new ≡ text.old ++ spawn_lines regions.now params.now effects.now places.now) }
{
    let Some((effect, others)) = effects.split_first() else {
        return Ok(());
    };
    let Some((place, rest)) = places.split_first() else {
        return Ok(());
    };
    push_spawn_line(text, regions, params, effect, place)?;
    push_spawn_lines(others, rest, text, regions, params)
}
