//! Classes of bytes, and the lengths of runs of one class.
ghost use Rattle.std.specs.Prelude.{◌≡◌, not};
ghost use Rattle.std.specs.List.{prefix_len, list_all};
ghost use Rattle.std.specs.Char.{is_ascii_digit};
ghost use Rattle.twe_lexer.specs.Lexeme.{is_line_end, is_blank, is_allowed, is_letter, is_word_byte};

/// Whether the byte is white space: a tab, a line feed, a carriage return or a space.
pub(crate) fn is_blank(byte: u8) -> bool
    ensures { result ≡ is_blank byte }
{
    byte == b'\t' || byte == b'\n' || byte == b'\r' || byte == b' '
}

/// Whether the byte is allowed in a text, including its comments.
pub(crate) fn is_allowed(byte: u8) -> bool
    ensures { result ≡ is_allowed byte }
{
    is_blank(byte) || (byte >= b' ' && byte <= b'~')
}

/// Whether the byte is a letter or `_`.
pub(crate) fn is_letter(byte: u8) -> bool
    ensures { result ≡ is_letter byte }
{
    byte.is_ascii_alphabetic() || byte == b'_'
}

/// Whether the byte is a letter, `_` or a digit.
pub(crate) fn is_word_byte(byte: u8) -> bool
    ensures { result ≡ is_word_byte byte }
{
    is_letter(byte) || byte.is_ascii_digit()
}

/// Whether each byte is a letter, `_` or a digit.
pub(crate) fn are_word_bytes(bytes: &[u8]) -> bool
    ensures { result ≡ list_all is_word_byte bytes.now }
{
    bytes.iter().all(|byte| is_word_byte(*byte))
}

/// Whether each byte is a digit.
pub(crate) fn are_digits(bytes: &[u8]) -> bool
    ensures { result ≡ list_all is_ascii_digit bytes.now }
{
    bytes.iter().all(|byte| byte.is_ascii_digit())
}

/// The number of letters, `_` and digits at the front of the text.
pub(crate) fn word_len(text: &[u8]) -> usize
    ensures { result ≡ prefix_len is_word_byte text.now }
{
    text.iter().take_while(|byte| is_word_byte(**byte)).count()
}

/// The number of digits at the front of the text.
pub(crate) fn digits_len(text: &[u8]) -> usize
    ensures { result ≡ prefix_len is_ascii_digit text.now }
{
    text.iter().take_while(|byte| byte.is_ascii_digit()).count()
}

/// The length of the first line in bytes, without the line feed.
pub(crate) fn line_len(text: &[u8]) -> usize
    ensures { result ≡ prefix_len (λ byte. not (is_line_end byte)) text.now }
{
    text.iter().take_while(|byte| **byte != b'\n').count()
}
