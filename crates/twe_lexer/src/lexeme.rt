//! The first lexeme of a text: a token, a blank or a comment.
ghost use Rattle.std.specs.Prelude.{◌≡◌, ◌<◌, length, IfOk, IfErr};
ghost use Rattle.std.specs.List.{prefix_len};
ghost use Rattle.twe_lexer.specs.Lexeme.{is_allowed};
ghost use Rattle.twe_lexer.specs.Front.{Opens, Hinders};

use crate::bytes::is_allowed;
use crate::extent::first_extent;
use crate::token::TokenKind;
use std::alloc::Global;
use thiserror::Error;
use twe_base::Memory;

/// A lexeme.
#[derive(Debug, Drop)]
pub struct Lexeme {
    /// Its length in bytes.
    pub len: usize,
    /// The kind of the token, or `None` for a blank or a comment.
    pub token: Option<TokenKind>,
}

/// Why a text has no first lexeme.
#[derive(Debug, Drop, Error)]
pub enum LexemeFail {
    /// The lexeme contains a byte that is not allowed in a text. The number is the index of the first such byte.
    #[error("a byte is not allowed")]
    NotAllowed(usize),
    /// The lexeme is a comment without an end.
    #[error("a comment has no end")]
    Unclosed,
    /// An allocation failed.
    #[error("out of memory")]
    OutOfMemory(Memory),
}

impl From<Memory> for LexemeFail {
    ghost use Rattle.std.specs.Prelude.{◌≡◌};
    ghost use Rattle.twe_lexer.specs.declared.lexeme.LexemeFail.TheVariants.{OutOfMemory};

    ghost from_gives = { λ memory fail. fail ≡ OutOfMemory memory };

    fn from(memory: Memory) -> Self {
        LexemeFail::OutOfMemory(memory)
    }
}

/// The number of bytes before the first one that is not allowed in a text.
fn allowed_len(bytes: &[u8]) -> usize
    ensures { result ≡ prefix_len is_allowed bytes.now }
{
    bytes.iter().take_while(|byte| is_allowed(**byte)).count()
}

/// The first lexeme of a text that is not empty. It takes time linear in the length of the lexeme. Only a name allocates
/// memory.
pub fn first_lexeme(alloc: Global, text: &[u8]) -> Result<Lexeme, LexemeFail>
    requires { 0 < length text.now }
    ensures found { IfOk result (λ lexeme. Opens lexeme text.now) }
    ensures hindered { IfErr result (λ fail. Hinders fail text.now) }
{
    let Some(extent) = first_extent(text) else {
        return Err(LexemeFail::Unclosed);
    };
    let (bytes, _) = text.split_at(extent.len);
    let allowed = allowed_len(bytes);
    if allowed < bytes.len() {
        return Err(LexemeFail::NotAllowed(allowed));
    }
    let token = if extent.is_token {
        Some(TokenKind::new(alloc, bytes)?)
    } else {
        None
    };
    Ok(Lexeme {
        len: extent.len,
        token,
    })
}
