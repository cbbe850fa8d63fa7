//! The lines on declared summaries that are wider than what is needed.
ghost use Rattle.std.specs.Prelude.{◌≡◌, ◌++◌, IfOk, OnOk};
ghost use Rattle.summary_comparing.specs.CompareTexts.{AreCompareLines, comparison_lines, effects_part, line_and_column, many_line, many_text, name_line, part_if_any, wider_clauses, wider_line, wider_text};

use crate::comparing::compare_all;
use crate::comparison::Comparison;
use crate::counted::summaries_of;
use crate::effect_order::in_effect_order;
use effect_sets::Effect;
use itoa::Buffer;
use std::alloc::Global;
use twe_ast::{Ast, Decl, Item, Name};
use twe_base::{Bytes, Memory, Place, Word};
use twe_frontend::push_effects;
use twe_program::Prog;

/// What is written of the methods and tasks of a program.
#[derive(Debug, Drop)]
pub struct CompareLines {
    /// A line for each that declares more than it needs.
    pub wider: Bytes,
    /// A line for each that needs too many effects.
    pub many: Bytes,
}

/// Appends these words and the effects.
fn push_part(
    text: &mut Bytes,
    regions: &[Word],
    params: &[Name],
    words: &[u8],
    effects: &[Effect],
) -> Result<(), Memory>
    ensures { OnOk result (text.new ≡ text.old ++ effects_part regions.now params.now words.now effects.now) }
{
    text.push_all(words)?;
    push_effects(text, regions, params, effects)
}

/// Appends these words and the effects, if there are any.
fn push_part_if_any(
    text: &mut Bytes,
    regions: &[Word],
    params: &[Name],
    words: &[u8],
    effects: &[Effect],
) -> Result<(), Memory>
    ensures { OnOk result (text.new ≡ text.old ++ part_if_any regions.now params.now words.now effects.now) }
{
    match effects {
        [] => Ok(()),
        [_, ..] => push_part(text, regions, params, words, effects),
    }
}

/// Appends what is declared, what is needed, and what nothing needs.
fn push_clauses(
    text: &mut Bytes,
    regions: &[Word],
    params: &[Name],
    declares: &[Effect],
    needed: &[Effect],
    children: &[Effect],
    idle: &[Effect],
) -> Result<(), Memory>
    ensures { OnOk result (text.new
        ≡ text.old ++ wider_clauses regions.now params.now declares.now needed.now children.now idle.now) }
{
    push_part(text, regions, params, b": declares ", declares)?;
    push_part(text, regions, params, b"; needs ", needed)?;
    push_part_if_any(text, regions, params, b"; children declare ", children)?;
    push_part_if_any(text, regions, params, b"; nothing needs ", idle)
}

/// Appends the line of a declaration whose summary is wider than what it needs.
fn push_wider(
    text: &mut Bytes,
    alloc: Global,
    regions: &[Word],
    decl: &Decl,
    declares: &[Effect],
    needed: &[Effect],
    children: &[Effect],
    idle: &[Effect],
) -> Result<(), Memory>
    ensures { OnOk result (text.new ≡ text.old
        ++ wider_line regions.now decl.now declares.now needed.now children.now idle.now) }
{
    let needed = in_effect_order(alloc, needed)?;
    let children = in_effect_order(alloc, children)?;
    text.push_all(decl.name.text.as_bytes())?;
    let params = decl.params.as_slice();
    push_clauses(
        text,
        regions,
        params,
        declares,
        needed.as_slice(),
        children.as_slice(),
        idle,
    )?;
    text.push(b'\n')
}

/// Appends these words, a name, and its place, as a line.
fn push_name_line(text: &mut Bytes, words: &[u8], name: &Name) -> Result<(), Memory>
    ensures { OnOk result (text.new ≡ text.old ++ name_line words.now name.now) }
{
    text.push_all(words)?;
    text.push_all(name.text.as_bytes())?;
    text.push_all(b" at ")?;
    push_line_and_column(text, name.place)?;
    text.push(b'\n')
}

/// Appends the line of a declaration that needs too many effects.
pub(crate) fn push_many(text: &mut Bytes, name: &Name) -> Result<(), Memory>
    ensures { OnOk result (text.new ≡ text.old ++ many_line name.now) }
{
    push_name_line(text, b"too many effects: ", name)
}

/// Appends a place, as `3:8`.
pub(crate) fn push_line_and_column(text: &mut Bytes, place: Place) -> Result<(), Memory>
    ensures { OnOk result (text.new ≡ text.old ++ line_and_column place) }
{
    text.push_all(Buffer::new().format(place.line).as_bytes())?;
    text.push(b':')?;
    text.push_all(Buffer::new().format(place.col).as_bytes())
}

/// Appends the line of a declaration, if its declared summary is wider than what it needs.
pub(crate) fn push_wider_text(
    text: &mut Bytes,
    alloc: Global,
    regions: &[Word],
    decl: &Decl,
    comparison: &Comparison,
) -> Result<(), Memory>
    ensures { OnOk result (text.new ≡ text.old ++ wider_text regions.now decl.now comparison.now) }
{
    match comparison {
        Comparison::Exact => Ok(()),
        Comparison::Wider {
            declares,
            needed,
            children,
            idle,
        } => push_wider(
            text,
            alloc,
            regions,
            decl,
            declares.as_slice(),
            needed.as_slice(),
            children.as_slice(),
            idle.as_slice(),
        ),
        Comparison::TooMany => Ok(()),
    }
}

/// Appends the line of a declaration that needs too many effects, if it does.
fn push_many_text(text: &mut Bytes, decl: &Decl, comparison: &Comparison) -> Result<(), Memory>
    ensures { OnOk result (text.new ≡ text.old ++ many_text decl.now comparison.now) }
{
    match comparison {
        Comparison::Exact => Ok(()),
        Comparison::Wider { .. } => Ok(()),
        Comparison::TooMany => push_many(text, &decl.name),
    }
}

/// Appends what is written of a declaration.
fn push_comparison(
    lines: &mut CompareLines,
    alloc: Global,
    regions: &[Word],
    decl: &Decl,
    comparison: &Comparison,
) -> Result<(), Memory>
    ensures wider { OnOk result (lines.new.wider ≡ lines.old.wider ++ wider_text regions.now decl.now comparison.now) }
    ensures many { OnOk result (lines.new.many ≡ lines.old.many ++ many_text decl.now comparison.now) }
{
    push_wider_text(&mut lines.wider, alloc, regions, decl, comparison)?;
    push_many_text(&mut lines.many, decl, comparison)
}

/// What is written of each method and of each task, in the order of the declarations.
fn comparison_lines(
    alloc: Global,
    regions: &[Word],
    items: &[Item],
    methods: &[Comparison],
    tasks: &[Comparison],
) -> Result<CompareLines, Memory>
    ensures { IfOk result (λ lines. lines ≡ comparison_lines regions.now items.now methods.now tasks.now) }
{
    let mut lines = CompareLines {
        wider: Bytes::new(alloc),
        many: Bytes::new(alloc),
    };
    let mut method = 0;
    let mut task = 0;
    for item in items {
        if let Item::Method(decl) = item
            && let Some(comparison) = methods.get(method)
        {
            push_comparison(&mut lines, alloc, regions, decl, comparison)?;
            method += 1;
        }
        if let Item::Task { decl, .. } = item
            && let Some(comparison) = tasks.get(task)
        {
            push_comparison(&mut lines, alloc, regions, decl, comparison)?;
            task += 1;
        }
    }
    Ok(lines)
}

/// The lines of a program and its tree: one for each method and each task that declares more than it needs, and one for each that
/// needs more than 8 effects. Whether the program keeps the rules on effects is not looked at.
pub fn compare_lines(alloc: Global, tree: &Ast, p: &Prog) -> Result<CompareLines, Memory>
    ensures { IfOk result (AreCompareLines tree.now p.now) }
{
    let summaries = summaries_of(alloc, p)?;
    let methods = compare_all(alloc, p, summaries.as_slice(), p.methods.as_slice())?;
    let tasks = compare_all(alloc, p, summaries.as_slice(), p.tasks.as_slice())?;
    let regions = p.regions.as_slice();
    let items = tree.items.as_slice();
    comparison_lines(alloc, regions, items, methods.as_slice(), tasks.as_slice())
}
