//! What is written of a run.
ghost use Rattle.std.specs.Prelude.{◌≡◌, ◌++◌, IfOk, OnOk};
ghost use Rattle.twe_draw.specs.Pages.{IsDrawing, IsPictureText, picture_shapes, picture_text};

use crate::arrows::push_arrows;
use crate::bars::{push_bars, push_outlines, push_rows};
use crate::head::push_head;
use crate::held::push_holds;
use crate::picture::{Picture, how_many, rows_of};
use crate::scale::{Axis, axis_of};
use crate::shown::shown_tasks;
use crate::trace::trace_text;
use crate::words::{AxisKind, Drawing};
use std::alloc::Global;
use twe_base::{Bytes, Memory};
use twe_program::Prog;

/// Appends what stands in a picture: rows, holds, bars, arrows, and the heaviest chain.
fn push_shapes(
    text: &mut Bytes,
    alloc: Global,
    p: &Prog,
    axis: Axis,
    rows: &[Option<u64>],
    picture: &Picture,
) -> Result<(), Memory>
    ensures { OnOk result (text.new ≡ text.old
        ++ picture_shapes p.now axis rows.now picture.now.chain picture.now.bars picture.now.tasks picture.now.holds) }
{
    let bars = picture.bars.as_slice();
    let tasks = picture.tasks.as_slice();
    push_rows(text, alloc, p, rows, tasks)?;
    push_holds(
        text,
        alloc,
        p,
        tasks,
        bars,
        rows,
        axis,
        picture.holds.as_slice(),
    )?;
    push_bars(text, alloc, p, tasks, bars, rows, axis)?;
    push_arrows(text, alloc, bars, rows, axis)?;
    push_outlines(text, bars, rows, axis, picture.chain.as_slice())
}

/// The picture of a run in which these tasks are shown, in this kind.
fn text_of_picture(
    alloc: Global,
    kind: AxisKind,
    p: &Prog,
    shown: &[bool],
    picture: &Picture,
) -> Result<Bytes, Memory>
    ensures { IfOk result (λ text. text ≡ picture_text kind p.now shown.now picture.now.work picture.now.span
        picture.now.held picture.now.chain picture.now.bars picture.now.tasks picture.now.holds) }
{
    let mut text = Bytes::new(alloc);
    let axis = axis_of(kind, picture.held, picture.bars.as_slice());
    let rows = rows_of(alloc, shown)?;
    push_head(
        &mut text,
        alloc,
        kind,
        picture.tasks.len(),
        how_many(shown),
        picture.work,
        picture.span,
        picture.held,
    )?;
    push_shapes(&mut text, alloc, p, axis, rows.as_slice(), picture)?;
    text.push_all(b"</svg>\n")?;
    Ok(text)
}

/// The picture of a run, in this kind.
fn picture_text(alloc: Global, kind: AxisKind, p: &Prog, picture: &Picture) -> Result<Bytes, Memory>
    ensures { IfOk result (IsPictureText kind p.now picture.now.work picture.now.span picture.now.held picture.now.chain
        picture.now.bars picture.now.tasks picture.now.holds) }
{
    let shown = shown_tasks(
        alloc,
        picture.chain.as_slice(),
        picture.bars.as_slice(),
        picture.tasks.as_slice(),
    )?;
    text_of_picture(alloc, kind, p, shown.as_slice(), picture)
}

/// What is written of a run: a picture, or a trace.
pub(crate) fn drawing_text(
    alloc: Global,
    drawing: Drawing,
    p: &Prog,
    picture: &Picture,
) -> Result<Bytes, Memory>
    ensures { IfOk result (IsDrawing drawing p.now picture.now.work picture.now.span picture.now.held picture.now.chain
        picture.now.bars picture.now.tasks picture.now.holds) }
{
    match drawing {
        Drawing::Picture(kind) => picture_text(alloc, kind, p, picture),
        Drawing::Trace => trace_text(alloc, p, picture),
    }
}
