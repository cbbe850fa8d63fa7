//! What stands before a piece.
ghost use Rattle.std.specs.Prelude.{◌≡◌};
ghost use Rattle.text_layout.specs.Layout.{begins, indent_of, new_line, stays, summary_gap, token_gap, gap_before, is_beside, is_apart};

use crate::classes::{
    is_clause, is_close_brace, is_close_paren, is_comma, is_comment_class, is_else, is_glued,
    is_line_comment_class, is_open_brace, precedes_statement,
};
use crate::fitting::{fits_block, fits_summary};
use crate::state::LayoutState;
use text_pieces::{Class, Piece, PieceStart};

/// The white space before a piece.
#[derive(Clone, Copy, Debug, PartialEq, Eq)]
pub enum Gap {
    /// None.
    Nothing,
    /// A space.
    Space,
    /// The end of a line, and so many spaces.
    Line(usize),
    /// The end of a line, an empty line, and so many spaces.
    LineApart(usize),
}

impl Gap {
    ghost use Rattle.std.specs.Prelude.{◌≡◌};
    ghost use Rattle.text_layout.specs.Layout.{is_line, is_space};

    /// Whether a line ends in it.
    pub(crate) fn is_line(self) -> bool
        ensures { result ≡ is_line self }
    {
        match self {
            Gap::Nothing | Gap::Space => false,
            Gap::Line(_) | Gap::LineApart(_) => true,
        }
    }

    /// Whether it is a space.
    pub(crate) fn is_space(self) -> bool
        ensures { result ≡ is_space self }
    {
        match self {
            Gap::Space => true,
            _ => false,
        }
    }
}

/// Whether a piece began on the line of the one before it.
fn is_beside(start: PieceStart) -> bool
    ensures { result ≡ is_beside start }
{
    match start {
        PieceStart::Beside => true,
        PieceStart::Below | PieceStart::Apart => false,
    }
}

/// Whether a piece began after an empty line.
fn is_apart(start: PieceStart) -> bool
    ensures { result ≡ is_apart start }
{
    match start {
        PieceStart::Apart => true,
        PieceStart::Beside | PieceStart::Below => false,
    }
}

/// Whether a statement, a declaration or the end of a block begins with the next piece.
fn begins(state: &LayoutState, class: Class) -> bool
    ensures { result ≡ begins state.now class }
{
    precedes_statement(state.last) && !is_else(class)
}

/// The spaces before a piece that begins a line.
fn indent_of(state: &LayoutState, class: Class) -> usize
    ensures { result ≡ indent_of state.now class }
{
    let depth = if is_close_brace(class) {
        usize::from(state.depth.saturating_sub(1))
    } else {
        usize::from(state.depth)
    };
    if precedes_statement(state.last) {
        2 * depth
    } else {
        2 * depth + 4
    }
}

/// A new line for the piece, after an empty one if there was one and a statement or a declaration begins with the piece.
fn new_line(state: &LayoutState, piece: &Piece) -> Gap
    ensures { result ≡ new_line state.now piece.now }
{
    let indent = indent_of(state, piece.class);
    let parted = begins(state, piece.class)
        && !is_open_brace(state.piece)
        && !is_close_brace(piece.class);
    if is_apart(piece.start) && parted {
        Gap::LineApart(indent)
    } else {
        Gap::Line(indent)
    }
}

/// Whether the first of the pieces, with which a statement or the end of a block begins, stays on the line that was begun.
fn stays(state: &LayoutState, piece: &Piece, pieces: &[Piece]) -> bool
    ensures { result ≡ stays state.now piece.now pieces.now }
{
    if state.flat > 0 {
        return true;
    }
    if !is_open_brace(state.last) {
        return false;
    }
    is_close_brace(piece.class)
        || (is_beside(piece.start) && fits_block(state.earlier, state.last, state.room, pieces))
}

/// What stands before a token within a statement or a declaration.
fn summary_gap(state: &LayoutState, class: Class, pieces: &[Piece]) -> Gap
    ensures { result ≡ summary_gap state.now class pieces.now }
{
    if is_clause(class) {
        let wide = if is_close_paren(state.last) {
            !fits_summary(state.earlier, state.last, state.room, pieces)
        } else {
            state.wide
        };
        if wide {
            return Gap::Line(2 * usize::from(state.depth) + 4);
        }
        return Gap::Space;
    }
    if state.wide && is_comma(state.last) {
        return Gap::Line(2 * usize::from(state.depth) + 6);
    }
    if is_glued(state.earlier, state.last, class) {
        Gap::Nothing
    } else {
        Gap::Space
    }
}

/// What stands before a token that comes after a token.
fn token_gap(state: &LayoutState, piece: &Piece, pieces: &[Piece]) -> Gap
    ensures { result ≡ token_gap state.now piece.now pieces.now }
{
    if !begins(state, piece.class) {
        return summary_gap(state, piece.class, pieces);
    }
    if stays(state, piece, pieces) {
        Gap::Space
    } else {
        new_line(state, piece)
    }
}

/// What stands before the first of the pieces.
pub(crate) fn gap_before(state: &LayoutState, piece: &Piece, pieces: &[Piece]) -> Gap
    ensures { result ≡ gap_before state.now piece.now pieces.now }
{
    if !state.begun {
        return Gap::Nothing;
    }
    if is_line_comment_class(state.piece) {
        return new_line(state, piece);
    }
    if is_comment_class(piece.class) {
        if is_beside(piece.start) {
            return Gap::Space;
        }
        return new_line(state, piece);
    }
    if is_comment_class(state.piece) {
        let lower = begins(state, piece.class) && (state.led || is_close_brace(piece.class));
        if is_beside(piece.start) && !lower {
            return Gap::Space;
        }
        return new_line(state, piece);
    }
    token_gap(state, piece, pieces)
}
