//! The pairs of declared effects that held most as JSON: an object for each of them.
ghost use Rattle.std.specs.Prelude.{◌≡◌, ◌++◌, OnOk};
ghost use Rattle.twe_advise.specs.JsonHolds.{json_effect, json_next_pair, json_pair, json_pairs, json_sides};

use crate::holds::push_declared_effect;
use crate::json::{push_comma, push_small};
use crate::json_chains::push_json_place_of;
use crate::text::push_number;
use held_span::{DeclaredEffect, EffectPair, HeldPair};
use run_texts::task_name;
use twe_ast::Item;
use twe_base::{Bytes, Memory};
use twe_program::Prog;

/// Appends a declared effect with the name and the place of its declaration.
fn push_json_effect(
    text: &mut Bytes,
    p: &Prog,
    items: &[Item],
    its: DeclaredEffect,
) -> Result<(), Memory>
    ensures { OnOk result (text.new ≡ text.old ++ json_effect p.now items.now its) }
{
    text.push_all(b"{\"effect\":\"")?;
    push_declared_effect(text, p, items, its)?;
    text.push_all(b"\",\"name\":\"")?;
    text.push_all(task_name(p, its.decl))?;
    text.push_all(b"\"")?;
    push_json_place_of(text, p, its.decl)?;
    text.push_all(b"}")
}

/// Appends the effects of a pair.
fn push_json_sides(
    text: &mut Bytes,
    p: &Prog,
    items: &[Item],
    pair: EffectPair,
) -> Result<(), Memory>
    ensures { OnOk result (text.new ≡ text.old ++ json_sides p.now items.now pair) }
{
    text.push_all(b",\"holder\":")?;
    push_json_effect(text, p, items, pair.holder)?;
    text.push_all(b",\"held\":")?;
    push_json_effect(text, p, items, pair.held)
}

/// Appends how long and how often a pair held tasks, and its effects.
fn push_json_pair(text: &mut Bytes, p: &Prog, items: &[Item], held: HeldPair) -> Result<(), Memory>
    ensures { OnOk result (text.new ≡ text.old ++ json_pair p.now items.now held) }
{
    push_number(text, b"{\"time\":", held.time)?;
    push_small(text, b",\"admissions\":", held.admissions)?;
    push_json_sides(text, p, items, held.pair)?;
    text.push_all(b"}")
}

/// Appends the pair with this number, after a comma unless it is the first.
fn push_next_pair(
    text: &mut Bytes,
    p: &Prog,
    items: &[Item],
    number: usize,
    held: HeldPair,
) -> Result<(), Memory>
    ensures { OnOk result (text.new ≡ text.old ++ json_next_pair p.now items.now number held) }
{
    push_comma(text, number)?;
    push_json_pair(text, p, items, held)
}

/// Appends the pairs.
pub(crate) fn push_json_pairs(
    text: &mut Bytes,
    p: &Prog,
    items: &[Item],
    pairs: &[HeldPair],
) -> Result<(), Memory>
    ensures { OnOk result (text.new ≡ text.old ++ json_pairs p.now items.now 0 pairs.now) }
{
    for (number, held) in pairs.iter().enumerate() {
        push_next_pair(text, p, items, number, *held)?;
    }
    Ok(())
}
