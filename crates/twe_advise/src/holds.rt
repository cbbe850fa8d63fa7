//! The pairs of declared effects that held most, as they are written for people.
ghost use Rattle.std.specs.Prelude.{◌≡◌, ◌++◌, OnOk, option_copied, slice_get};
ghost use Rattle.std.specs.List.{flat_map};
ghost use Rattle.twe_advise.specs.Holds.{declared_effect, numbered_effect, effect_found, effect_placed, holds_text, pair_row, spaced_place, place_found};

use crate::request::task_params;
use crate::text::{push_column, push_small_column};
use effect_sets::Effect;
use held_span::{DeclaredEffect, HeldPair};
use itoa::Buffer;
use run_texts::task_name;
use twe_ast::{Item, Name};
use twe_base::{Bytes, Memory, Place, Word};
use twe_frontend::push_effect;
use twe_program::{Decl, Prog};

/// Appends an effect, if there is one.
fn push_effect_found(
    text: &mut Bytes,
    regions: &[Word],
    params: &[Name],
    effect: Option<&Effect>,
) -> Result<(), Memory>
    ensures { OnOk result (text.new ≡ text.old ++ effect_found regions.now params.now (option_copied effect.entry)) }
{
    match effect {
        None => Ok(()),
        Some(effect) => push_effect(text, regions, params, effect),
    }
}

/// Appends the effect of this number of a declaration whose parameters have these names, if there is one.
fn push_numbered_effect(
    text: &mut Bytes,
    regions: &[Word],
    params: &[Name],
    decl: Option<&Decl>,
    number: usize,
) -> Result<(), Memory>
    ensures { OnOk result (text.new ≡ text.old ++ numbered_effect regions.now params.now (option_copied decl.entry) number) }
{
    match decl {
        None => Ok(()),
        Some(decl) => push_effect_found(text, regions, params, decl.summary.effects.get(number)),
    }
}

/// Appends a declared effect, as `writes D:[i]`.
pub(crate) fn push_declared_effect(
    text: &mut Bytes,
    p: &Prog,
    items: &[Item],
    its: DeclaredEffect,
) -> Result<(), Memory>
    ensures { OnOk result (text.new ≡ text.old ++ declared_effect p.now items.now its) }
{
    let params = task_params(items, its.decl);
    let decl = p.tasks.get(its.decl as usize);
    push_numbered_effect(text, p.regions.as_slice(), params, decl, its.effect)
}

/// Appends a place, as ` 3:6`.
fn push_spaced_place(text: &mut Bytes, place: Place) -> Result<(), Memory>
    ensures { OnOk result (text.new ≡ text.old ++ spaced_place place) }
{
    text.push_all(b" ")?;
    text.push_all(Buffer::new().format(place.line).as_bytes())?;
    text.push_all(b":")?;
    text.push_all(Buffer::new().format(place.col).as_bytes())
}

/// Appends the place of the task declaration of this number, if there is one.
fn push_place_of(text: &mut Bytes, p: &Prog, decl: u32) -> Result<(), Memory>
    ensures { OnOk result (text.new ≡ text.old ++ place_found (slice_get p.now.tasks decl)) }
{
    match p.tasks.get(decl as usize) {
        None => Ok(()),
        Some(decl) => push_spaced_place(text, decl.place),
    }
}

/// Appends a declared effect with the name and the place of its declaration.
fn push_effect_placed(
    text: &mut Bytes,
    p: &Prog,
    items: &[Item],
    its: DeclaredEffect,
) -> Result<(), Memory>
    ensures { OnOk result (text.new ≡ text.old ++ effect_placed p.now items.now its) }
{
    text.push_all(b"`")?;
    push_declared_effect(text, p, items, its)?;
    text.push_all(b"` of ")?;
    text.push_all(task_name(p, its.decl))?;
    push_place_of(text, p, its.decl)
}

/// Appends how long and how often a pair held tasks, and its effects.
fn push_pair_row(text: &mut Bytes, p: &Prog, items: &[Item], held: HeldPair) -> Result<(), Memory>
    ensures { OnOk result (text.new ≡ text.old ++ pair_row p.now items.now held) }
{
    push_column(text, held.time)?;
    push_small_column(text, held.admissions)?;
    text.push_all(b"  ")?;
    push_effect_placed(text, p, items, held.pair.holder)?;
    text.push_all(b" held ")?;
    push_effect_placed(text, p, items, held.pair.held)?;
    text.push_all(b"\n")
}

/// Appends the rows of these pairs.
fn push_pair_rows(
    text: &mut Bytes,
    p: &Prog,
    items: &[Item],
    pairs: &[HeldPair],
) -> Result<(), Memory>
    ensures { OnOk result (text.new ≡ text.old ++ flat_map (pair_row p.now items.now) pairs.now) }
{
    for held in pairs {
        push_pair_row(text, p, items, *held)?;
    }
    Ok(())
}

/// Appends the table of pairs, or nothing if there are none.
pub(crate) fn push_holds_table(
    text: &mut Bytes,
    p: &Prog,
    items: &[Item],
    pairs: &[HeldPair],
) -> Result<(), Memory>
    ensures { OnOk result (text.new ≡ text.old ++ holds_text p.now items.now pairs.now) }
{
    match pairs {
        [] => Ok(()),
        [_, ..] => {
            text.push_all(b"\n        held  admissions  effects that held most\n")?;
            push_pair_rows(text, p, items, pairs)
        }
    }
}
