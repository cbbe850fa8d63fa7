//! Where a task stands in its body.

use seg_meaning::{Frame, Position};

/// Where a task stands in its body, if no more than three of its blocks are open.
#[derive(Clone, Copy, Debug, PartialEq, Eq)]
pub(crate) struct BodyPlace {
    /// How far the body has been executed.
    body: Position,
    /// The block that is open in it, if one is.
    middle: Option<Position>,
    /// The block that is open in that one, if one is.
    inner: Option<Position>,
}

impl BodyPlace {
    /// The innermost block that is open.
    pub(crate) fn innermost(self) -> Position {
        self.inner.or(self.middle).unwrap_or(self.body)
    }
}

/// Where a task with this frame stands; none if its body has ended, or too many blocks are open.
pub(crate) fn body_place_of(frame: &Frame) -> Option<BodyPlace> {
    let (body, middle, inner) = match frame.body.as_ref()?.open_blocks.as_slice() {
        [body] => (body, None, None),
        [body, middle] => (body, Some(*middle), None),
        [body, middle, inner] => (body, Some(*middle), Some(*inner)),
        _ => return None,
    };
    Some(BodyPlace {
        body: *body,
        middle,
        inner,
    })
}
