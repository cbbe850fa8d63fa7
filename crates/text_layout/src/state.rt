//! What the layout knows of the pieces that were written.
ghost use Rattle.std.specs.Prelude.{◌≡◌};
ghost use Rattle.text_layout.specs.Layout.{depth_after};

use crate::classes::{is_clause, is_close_brace, is_close_paren, is_comment_class, is_open_brace};
use crate::gap::Gap;
use text_pieces::{Class, Piece};
use twe_lexer::Fixed;

/// The columns of a line that a block or a summary must not exceed.
const WIDTH: usize = 100;

/// The most blocks that are open in a text with a tree: as many as brackets.
const MOST_BLOCKS: u8 = 200;

/// What was written.
#[derive(Clone, Copy, Debug)]
pub struct LayoutState {
    /// Whether a piece was written.
    pub begun: bool,
    /// The last piece.
    pub piece: Class,
    /// The token before the last one.
    pub earlier: Class,
    /// The last token.
    pub last: Class,
    /// Whether a token stands on the line that was begun.
    pub led: bool,
    /// How many blocks are open, or the most that a text can have.
    pub depth: u8,
    /// Within a block that stays on its line: how many blocks were open in it at its beginning, with itself. Else 0.
    pub flat: u8,
    /// Whether the parts of the summary stand one below the other.
    pub wide: bool,
    /// The columns that are left on the line that was begun.
    pub room: usize,
}

/// How many blocks are open after a token.
fn depth_after(depth: u8, class: Class) -> u8
    ensures { result ≡ depth_after depth class }
{
    if is_open_brace(class) {
        depth.min(MOST_BLOCKS - 1) + 1
    } else if is_close_brace(class) {
        depth.saturating_sub(1)
    } else {
        depth
    }
}

impl LayoutState {
    ghost use Rattle.std.specs.Prelude.{◌≡◌};
    ghost use Rattle.text_layout.specs.Layout.{before_pieces, flat_after, wide_after, room_after, after_piece};

    /// Before the first piece.
    pub(crate) fn new() -> Self
        ensures { result ≡ before_pieces }
    {
        LayoutState {
            begun: false,
            piece: Class::Fixed(Fixed::Semicolon),
            earlier: Class::Fixed(Fixed::Semicolon),
            last: Class::Fixed(Fixed::Semicolon),
            led: false,
            depth: 0,
            flat: 0,
            wide: false,
            room: WIDTH,
        }
    }

    /// The field `flat` after a piece of this class.
    fn flat_after(&self, gap: Gap, class: Class) -> u8
        ensures { result ≡ flat_after self.now gap class }
    {
        if self.flat > 0 {
            if depth_after(self.depth, class) < self.flat {
                return 0;
            }
            return self.flat;
        }
        if gap.is_space()
            && is_open_brace(self.piece)
            && !is_comment_class(class)
            && !is_close_brace(class)
        {
            return self.depth;
        }
        0
    }

    /// The field `wide` after a piece of this class.
    fn wide_after(&self, gap: Gap, class: Class) -> bool
        ensures { result ≡ wide_after self.now gap class }
    {
        if is_open_brace(class) {
            return false;
        }
        if is_clause(class) && is_close_paren(self.last) {
            return gap.is_line();
        }
        self.wide
    }

    /// The columns that are left after a piece of this length.
    fn room_after(&self, gap: Gap, len: usize) -> usize
        ensures { result ≡ room_after self.now.room gap len }
    {
        match gap {
            Gap::Nothing => self.room.saturating_sub(len),
            Gap::Space => self.room.saturating_sub(1).saturating_sub(len),
            Gap::Line(indent) | Gap::LineApart(indent) => {
                WIDTH.saturating_sub(indent).saturating_sub(len)
            }
        }
    }

    /// After one more piece, which was written behind this gap.
    pub(crate) fn after(&self, gap: Gap, piece: &Piece) -> Self
        ensures { result ≡ after_piece self.now gap piece.now }
    {
        let class = piece.class;
        let comment = is_comment_class(class);
        LayoutState {
            begun: true,
            piece: class,
            earlier: if comment { self.earlier } else { self.last },
            last: if comment { self.last } else { class },
            led: !comment || (self.led && !gap.is_line()),
            depth: depth_after(self.depth, class),
            flat: self.flat_after(gap, class),
            wide: self.wide_after(gap, class),
            room: self.room_after(gap, piece.bytes.len()),
        }
    }
}
