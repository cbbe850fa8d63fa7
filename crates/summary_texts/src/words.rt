//! Lexemes by their bytes: the words that matter here, and comments.
ghost use Rattle.std.specs.Prelude.{◌≡◌};
ghost use Rattle.summary_texts.specs.Parts.{begins_summary, is_brace, is_task};
ghost use Rattle.summary_texts.specs.Written.{is_comment, is_line_comment};

/// Whether a lexeme is a word that the summary of a method or a task begins with.
pub(crate) fn begins_summary(lexeme: &[u8]) -> bool
    ensures { result ≡ begins_summary lexeme.now }
{
    lexeme == b"pure".as_slice() || lexeme == b"reads".as_slice() || lexeme == b"writes".as_slice()
}

/// Whether a lexeme is the word `task`.
pub(crate) fn is_task(lexeme: &[u8]) -> bool
    ensures { result ≡ is_task lexeme.now }
{
    lexeme == b"task".as_slice()
}

/// Whether a lexeme is a `{`.
pub(crate) fn is_brace(lexeme: &[u8]) -> bool
    ensures { result ≡ is_brace lexeme.now }
{
    lexeme == b"{".as_slice()
}

/// Whether a lexeme that is no token is a comment.
pub(crate) fn is_comment(gap: &[u8]) -> bool
    ensures { result ≡ is_comment gap.now }
{
    gap.starts_with(b"/")
}

/// Whether a lexeme is a comment that ends with its line.
pub(crate) fn is_line_comment(lexeme: &[u8]) -> bool
    ensures { result ≡ is_line_comment lexeme.now }
{
    lexeme.starts_with(b"//")
}
