//! The lines of the matrix.
ghost use Rattle.std.specs.Prelude.{◌≡◌, ◌++◌, IfOk, OnOk};
ghost use Rattle.twe_annotate.specs.Texts.{matrix_lines, pair_line, row_lines};

use crate::text::push_verdict;
use effect_meeting::meetings_between;
use effect_sets::Summary;
use std::alloc::Global;
use twe_ast::{Decl, Item};
use twe_base::{Bytes, Memory, Word};
use twe_program::Decl as Resolved;

/// Appends the line of two tasks.
fn push_pair(
    text: &mut Bytes,
    alloc: Global,
    regions: &[Word],
    first: &Decl,
    its: &Summary,
    second: &Decl,
    other: &Summary,
) -> Result<(), Memory>
    ensures { OnOk result (text.new ≡ text.old ++ pair_line regions.now first.now its.now second.now other.now) }
{
    let found = meetings_between(alloc, its, other)?;
    text.push_all(first.name.text.as_bytes())?;
    text.push(b' ')?;
    text.push_all(second.name.text.as_bytes())?;
    text.push_all(b": ")?;
    push_verdict(
        text,
        regions,
        first.params.as_slice(),
        second.params.as_slice(),
        found.as_slice(),
    )?;
    text.push(b'\n')
}

/// Appends a line for the task with each of these tasks.
fn push_row(
    text: &mut Bytes,
    alloc: Global,
    regions: &[Word],
    first: &Decl,
    its: &Summary,
    items: &[Item],
    tasks: &[Resolved],
) -> Result<(), Memory>
    ensures { OnOk result (text.new ≡ text.old ++ row_lines regions.now first.now its.now items.now tasks.now) }
{
    let mut at = 0;
    for item in items {
        if let Item::Task { decl, .. } = item
            && let Some(task) = tasks.get(at)
        {
            push_pair(text, alloc, regions, first, its, decl, &task.summary)?;
            at += 1;
        }
    }
    Ok(())
}

/// The lines of each task with itself and with those after it, in the order of the declarations.
pub(crate) fn matrix_lines(
    alloc: Global,
    regions: &[Word],
    items: &[Item],
    tasks: &[Resolved],
) -> Result<Bytes, Memory>
    ensures { IfOk result (λ text. text ≡ matrix_lines regions.now items.now tasks.now) }
{
    let mut text = Bytes::new(alloc);
    let mut at = 0;
    for (place, item) in items.iter().enumerate() {
        if let Item::Task { decl, .. } = item
            && let Some(task) = tasks.get(at)
        {
            push_row(
                &mut text,
                alloc,
                regions,
                decl,
                &task.summary,
                &items[place..],
                &tasks[at..],
            )?;
            at += 1;
        }
    }
    Ok(text)
}
