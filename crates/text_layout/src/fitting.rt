//! Whether a block or a summary fits on the line that was begun.
ghost use Rattle.std.specs.Prelude.{◌≡◌, ◌-◌, ◌^◌, ◌<◌};
ghost use Rattle.text_layout.specs.Fitting.{room_beside, has_room, blocks_after, fits_block, fits_summary};

use crate::classes::{is_close_brace, is_comment_class, is_glued, is_open_brace};
use text_pieces::{Class, Piece};

/// Whether the piece has room beside the tokens before it.
fn has_room(earlier: Class, last: Class, room: usize, piece: &Piece) -> bool
    ensures { result ≡ has_room earlier last room piece.now }
{
    let len = piece.bytes.len();
    if is_glued(earlier, last, piece.class) {
        len <= room
    } else {
        len < room
    }
}

/// The room that is left after the piece.
fn room_beside(earlier: Class, last: Class, room: usize, piece: &Piece) -> usize
    ensures { result ≡ room_beside earlier last room piece.now }
{
    let len = piece.bytes.len();
    if is_glued(earlier, last, piece.class) {
        room.saturating_sub(len)
    } else {
        room.saturating_sub(1).saturating_sub(len)
    }
}

/// how many blocks are open after the piece.
fn blocks_after(opened: usize, class: Class) -> usize
    requires { opened < 2 ^ 64 - 1 }
    ensures { result ≡ blocks_after opened class }
{
    if is_open_brace(class) {
        opened + 1
    } else if is_close_brace(class) {
        opened.saturating_sub(1)
    } else {
        opened
    }
}

/// Whether a block fits on the line that was begun, up to its `}`, and has no comment. `earlier` and `last` are the last two
/// tokens, of which the second is its `{`.
pub(crate) fn fits_block(earlier: Class, last: Class, room: usize, pieces: &[Piece]) -> bool
    ensures { result ≡ fits_block earlier last 0 room pieces.now }
{
    let mut earlier = earlier;
    let mut last = last;
    let mut room = room;
    let mut opened = 0;
    for piece in pieces {
        if is_comment_class(piece.class) || !has_room(earlier, last, room, piece) {
            return false;
        }
        if is_close_brace(piece.class) && opened == 0 {
            return true;
        }
        room = room_beside(earlier, last, room, piece);
        opened = blocks_after(opened, piece.class);
        earlier = last;
        last = piece.class;
    }
    false
}

/// Whether the rest of a summary fits on the line that was begun, up to the `{` of the body, and has no comment. `earlier` and
/// `last` are the last two tokens.
pub(crate) fn fits_summary(earlier: Class, last: Class, room: usize, pieces: &[Piece]) -> bool
    ensures { result ≡ fits_summary earlier last room pieces.now }
{
    let mut earlier = earlier;
    let mut last = last;
    let mut room = room;
    for piece in pieces {
        if is_comment_class(piece.class) || !has_room(earlier, last, room, piece) {
            return false;
        }
        if is_open_brace(piece.class) {
            return true;
        }
        room = room_beside(earlier, last, room, piece);
        earlier = last;
        last = piece.class;
    }
    false
}
