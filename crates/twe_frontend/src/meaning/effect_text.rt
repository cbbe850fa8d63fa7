//! Texts of effects.
ghost use Rattle.std.specs.Prelude.{◌≡◌, ◌++◌, OnOk, codes};
ghost use Rattle.twe_frontend.specs.meaning.EffectTexts.{effect_text, effect_word, effects_text, more_effects};

use crate::meaning::path_text::push_starred_path;
use effect_sets::Effect;
use twe_ast::Name;
use twe_base::{Bytes, Memory, Word};

/// The word of an effect that writes, or of one that only reads.
fn effect_word(write: bool) -> &'static [u8]
    ensures { result.now ≡ effect_word write }
{
    if write { b"writes " } else { b"reads " }
}

/// Appends an effect, as `reads A:[j]` or `writes A:*`.
pub fn push_effect(
    text: &mut Bytes,
    regions: &[Word],
    variables: &[Name],
    effect: &Effect,
) -> Result<(), Memory>
    ensures { OnOk result (text.new ≡ text.old ++ effect_text regions.now variables.now effect.now) }
{
    text.push_all(effect_word(effect.write))?;
    push_starred_path(text, regions, variables, &effect.path)
}

/// Appends an effect after `, `.
fn push_next_effect(
    text: &mut Bytes,
    regions: &[Word],
    variables: &[Name],
    effect: &Effect,
) -> Result<(), Memory>
    ensures { OnOk result (text.new ≡ text.old ++ (codes ", " ++ effect_text regions.now variables.now effect.now)) }
{
    text.push_all(b", ")?;
    push_effect(text, regions, variables, effect)
}

/// Appends effects, each after `, `.
fn push_more_effects(
    text: &mut Bytes,
    regions: &[Word],
    variables: &[Name],
    effects: &[Effect],
) -> Result<(), Memory>
    ensures { OnOk result (text.new ≡ text.old ++ more_effects regions.now variables.now effects.now) }
{
    for effect in effects {
        push_next_effect(text, regions, variables, effect)?;
    }
    Ok(())
}

/// Appends effects with `, ` between them, or `pure`.
pub fn push_effects(
    text: &mut Bytes,
    regions: &[Word],
    variables: &[Name],
    effects: &[Effect],
) -> Result<(), Memory>
    ensures { OnOk result (text.new ≡ text.old ++ effects_text regions.now variables.now effects.now) }
{
    let Some((first, others)) = effects.split_first() else {
        return text.push_all(b"pure");
    };
    push_effect(text, regions, variables, first)?;
    push_more_effects(text, regions, variables, others)
}
