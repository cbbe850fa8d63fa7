//! A text is laid out.
ghost use Rattle.std.specs.Prelude.{◌≡◌, ◌<◌, ◌++◌, length, drop, replicate, IfOk, OnOk};
ghost use Rattle.text_layout.specs.Layout.{gap_bytes, layout_from, layout};

use crate::gap::{Gap, gap_before};
use crate::state::LayoutState;
use std::alloc::Global;
use text_pieces::Piece;
use twe_base::{Bytes, Memory};

/// Writes so many spaces.
fn push_spaces(text: &mut Bytes, count: usize) -> Result<(), Memory>
    ensures { OnOk result (text.new ≡ text.old ++ replicate count 32) }
{
    for _ in 0..count {
        text.push(b' ')?;
    }
    Ok(())
}

/// Writes a gap.
fn push_gap(text: &mut Bytes, gap: Gap) -> Result<(), Memory>
    ensures { OnOk result (text.new ≡ text.old ++ gap_bytes gap) }
{
    match gap {
        Gap::Nothing => Ok(()),
        Gap::Space => text.push(b' '),
        Gap::Line(indent) => {
            text.push(b'\n')?;
            push_spaces(text, indent)
        }
        Gap::LineApart(indent) => {
            text.push_all(b"\n\n")?;
            push_spaces(text, indent)
        }
    }
}

/// Writes the first of the pieces behind its gap, and returns what is known after it. After an `Err` the text is unspecified.
fn push_piece(
    text: &mut Bytes,
    state: &LayoutState,
    pieces: &[Piece],
) -> Result<LayoutState, Memory>
    requires { 0 < length pieces.now }
    ensures { IfOk result (λ next.
        text.old ++ layout_from state.now pieces.now ≡ text.new ++ layout_from next (drop 1 pieces.now)) }
{
    let Some((piece, _)) = pieces.split_first() else {
        unreachable!()
    };
    let gap = gap_before(state, piece, pieces);
    push_gap(text, gap)?;
    text.push_all(piece.bytes.as_slice())?;
    Ok(state.after(gap, piece))
}

/// The text in which these pieces are laid out. It takes time linear in the length of the text.
pub fn layout_text(alloc: Global, pieces: &[Piece]) -> Result<Bytes, Memory>
    ensures { IfOk result (λ text. text ≡ layout pieces.now) }
{
    let mut text = Bytes::new(alloc);
    let mut state = LayoutState::new();
    let mut rest = pieces;
    while !rest.is_empty() {
        state = push_piece(&mut text, &state, rest)?;
        rest = &rest[1..];
    }
    if state.begun {
        text.push(b'\n')?;
    }
    Ok(text)
}
