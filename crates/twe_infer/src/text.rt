//! The lines that are written.
ghost use Rattle.std.specs.Prelude.{◌≡◌, ◌++◌, IfOk, OnOk};
ghost use Rattle.twe_infer.specs.Texts.{line_of, summary_lines_of};
ghost use Rattle.twe_infer.specs.Texts as texts;

use effect_sets::Summary;
use std::alloc::Global;
use summary_texts::push_summary;
use twe_ast::{Decl, Item};
use twe_base::{Bytes, Memory, Word};

/// Appends the line of a method.
fn push_line(
    text: &mut Bytes,
    alloc: Global,
    regions: &[Word],
    decl: &Decl,
    summary: &Summary,
) -> Result<(), Memory>
    ensures { OnOk result (text.new ≡ text.old ++ line_of decl.now.name.text regions.now decl.now.params summary.now) }
{
    text.push_all(decl.name.text.as_bytes())?;
    text.push_all(b": ")?;
    push_summary(text, alloc, regions, decl.params.as_slice(), summary)?;
    text.push(b'\n')
}

/// A line for each method, in the order of the declarations.
pub(crate) fn lines_of(
    alloc: Global,
    regions: &[Word],
    summaries: &[Summary],
    items: &[Item],
) -> Result<Bytes, Memory>
    ensures { IfOk result (λ text. text ≡ summary_lines_of regions.now summaries.now items.now) }
{
    let mut text = Bytes::new(alloc);
    let mut at = 0;
    for item in items {
        if let Item::Method(decl) = item
            && let Some(summary) = summaries.get(at)
        {
            push_line(&mut text, alloc, regions, decl, summary)?;
            at += 1;
        }
    }
    Ok(text)
}

/// The line for a method whose least summary would have more than 8 effects.
pub(crate) fn too_many_text(alloc: Global, name: &Word) -> Result<Bytes, Memory>
    ensures { IfOk result (λ text. text ≡ texts.too_many_text name.now) }
{
    let mut text = Bytes::from_slice(alloc, b"too many effects: ")?;
    text.push_all(name.as_bytes())?;
    text.push(b'\n')?;
    Ok(text)
}
