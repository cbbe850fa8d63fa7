//! The length of the first lexeme of a text.
ghost use Rattle.std.specs.Prelude.{◌≡◌, ℕ, ◌+◌, ◌<◌, ◌≤◌, ◌++◌, length, take, drop, codes, IfSome, IfNone, MatchOption, IsTrue};
ghost use Rattle.twe_lexer.specs.Lexeme.{HasClose, is_long_symbol};
ghost use Rattle.twe_lexer.specs.inner.Extents.{Begins, IsUnclosed};

use crate::bytes::{digits_len, is_blank, is_letter, line_len, word_len};

/// The extent of a lexeme.
#[derive(Clone, Copy, Debug, PartialEq, Eq)]
pub(crate) struct Extent {
    /// Its length in bytes.
    pub(crate) len: usize,
    /// Whether it is a token rather than a blank or a comment.
    pub(crate) is_token: bool,
}

/// The index of the first `*/`, or `None` if there is none.
fn close_at(body: &[u8]) -> Option<usize>
    ensures first { IfSome result (λ at. (at + 2 ≤ length body.now) × (drop at body.now ≡ codes "*/" ++ drop (at + 2) body.now)
        × ¬ HasClose (take at body.now)) }
    ensures none { IfNone result (¬ HasClose body.now) }
{
    for at in 1..body.len() {
        if body[at - 1] == b'*' && body[at] == b'/' {
            return Some(at - 1);
        }
    }
    None
}

/// Whether the text begins with a symbol of two bytes.
fn starts_with_long_symbol(text: &[u8]) -> bool
    ensures { result ≡ is_long_symbol (take 2 text.now) }
{
    text.starts_with(b"==")
        || text.starts_with(b"!=")
        || text.starts_with(b"<=")
        || text.starts_with(b">=")
        || text.starts_with(b"&&")
        || text.starts_with(b"||")
}

/// The extent of the comment from `/*` to the first `*/`, or `None` if there is no `*/`.
fn block_comment(text: &[u8]) -> Option<Extent>
    requires { take 2 text.now ≡ codes "/*" }
    ensures { MatchOption result (IsUnclosed text.now) (λ extent. Begins extent text.now) }
{
    let at = close_at(&text[2..])?;
    Some(Extent {
        len: at + 4,
        is_token: false,
    })
}

/// The extent of the first lexeme, or `None` if it is a comment without an end.
pub(crate) fn first_extent(text: &[u8]) -> Option<Extent>
    requires { 0 < length text.now }
    ensures { MatchOption result (IsUnclosed text.now) (λ extent. Begins extent text.now) }
{
    let first = text[0];
    if text.starts_with(b"/*") {
        return block_comment(text);
    }
    let (len, is_token) = if is_blank(first) {
        (1, false)
    } else if text.starts_with(b"//") {
        (line_len(text), false)
    } else if is_letter(first) {
        (word_len(text), true)
    } else if first.is_ascii_digit() {
        (digits_len(text), true)
    } else if starts_with_long_symbol(text) {
        (2, true)
    } else {
        (1, true)
    };
    Some(Extent { len, is_token })
}
