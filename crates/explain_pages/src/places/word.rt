//! The word at a place of a text.
ghost use Rattle.std.specs.Prelude.{◌≡◌};
ghost use Rattle.std.specs.List.{prefix_len};
ghost use Rattle.twe_lexer.specs.Lexeme.{is_word_byte};
ghost use Rattle.explain_pages.specs.places.WordAt.{first_word, word_at};

use twe_base::Place;
use twe_frontend::{after_bytes, first_bytes, line_at};

/// Whether a byte is a letter, a digit or `_`.
fn is_word_byte(byte: u8) -> bool
    ensures { result ≡ is_word_byte byte }
{
    byte.is_ascii_alphabetic() || byte == b'_' || byte.is_ascii_digit()
}

/// How many letters, digits and `_` the bytes begin with.
fn word_length(bytes: &[u8]) -> usize
    ensures { result ≡ prefix_len is_word_byte bytes.now }
{
    bytes.iter().take_while(|byte| is_word_byte(**byte)).count()
}

/// The letters, digits and `_` that the bytes begin with.
fn first_word(bytes: &[u8]) -> &[u8]
    ensures { result.now ≡ first_word bytes.now }
{
    first_bytes(bytes, word_length(bytes))
}

/// The word at the place of the text. It is empty if none stands there.
pub fn word_at(text: &[u8], place: Place) -> &[u8]
    ensures { result.now ≡ word_at text.now place }
{
    let line = line_at(text, place.line);
    first_word(after_bytes(line, place.col.saturating_sub(1) as usize))
}
