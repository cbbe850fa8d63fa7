//! The lines of a text, and the parts of a line.
ghost use Rattle.std.specs.Prelude.{◌≡◌, ◌≤◌, length, take, drop};
ghost use Rattle.twe_frontend.specs.Lines.{after_line, after_lines, line_at, line_length};

/// The line of this number, counted from 1, without the byte that ends it. It is empty if the text has fewer lines.
pub fn line_at(text: &[u8], number: u32) -> &[u8]
    ensures { result.now ≡ line_at number text.now }
{
    let rest = after_lines(text, number.saturating_sub(1));
    first_bytes(rest, line_length(rest))
}

/// The text after so many lines.
pub fn after_lines(text: &[u8], count: u32) -> &[u8]
    ensures { result.now ≡ after_lines count text.now }
{
    let mut rest = text;
    for _ in 0..count {
        rest = after_line(rest);
    }
    rest
}

/// The text after its first line.
fn after_line(text: &[u8]) -> &[u8]
    ensures { result.now ≡ after_line text.now }
{
    let rest = after_bytes(text, line_length(text));
    after_bytes(rest, 1)
}

/// The length of the first line of a text, without the byte that ends it.
fn line_length(text: &[u8]) -> usize
    ensures length { result ≡ line_length text.now }
    ensures bound { result ≤ length text.now }
{
    for (i, byte) in text.iter().enumerate() {
        if *byte == b'\n' {
            return i;
        }
    }
    text.len()
}

/// The first so many bytes, or all if there are fewer.
pub fn first_bytes(text: &[u8], count: usize) -> &[u8]
    ensures { result.now ≡ take count text.now }
{
    if count < text.len() {
        &text[..count]
    } else {
        text
    }
}

/// What stands after the first so many bytes.
pub fn after_bytes(text: &[u8], count: usize) -> &[u8]
    ensures { result.now ≡ drop count text.now }
{
    if count < text.len() {
        &text[count..]
    } else {
        b""
    }
}
