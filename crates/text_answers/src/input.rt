//! The input of a command: the text of a program, and for `replay` the text of a journal.
ghost use Rattle.std.specs.Prelude.{◌≡◌, ◌≤◌, length, take, drop, true, None, IfSome};
ghost use Rattle.twe_base.specs.Language.{max_text_bytes};
ghost use Rattle.text_answers.specs.Input.{HasNoMark, has_input, has_mark, is_mark, program_part, journal_part};
ghost use Rattle.text_answers.specs.inner.FirstLine.{line_length};

use command_line::Command;

/// Whether a command has an input. `load` alone has none.
pub fn has_input(cmd: &Command) -> bool
    ensures { result ≡ has_input cmd.now }
{
    !matches!(cmd, Command::Load { .. })
}

/// The two parts of the input of `replay`: what stands before the first line that is exactly `%%`, and what stands after it.
/// Without such a line the first part is the whole input, and the second is empty.
pub fn cut_input(input: &[u8]) -> (&[u8], &[u8])
    requires { length input.now ≤ max_text_bytes }
    ensures program { result.0.now ≡ program_part input.now }
    ensures journal { result.1.now ≡ journal_part input.now }
    ensures short { length result.0.now ≤ length input.now }
{
    match cut_at_mark(input) {
        Some(parts) => parts,
        None => (input, b""),
    }
}

/// What stands in a text before the first line that is exactly `%%`, and what stands after it; or `None` if it has no such line.
pub fn cut_at_mark(text: &[u8]) -> Option<(&[u8], &[u8])>
    requires { length text.now ≤ max_text_bytes }
    ensures before { IfSome result (λ parts. parts.0.now ≡ program_part text.now) }
    ensures after { IfSome result (λ parts. parts.1.now ≡ journal_part text.now) }
    ensures short { IfSome result (λ parts. length parts.0.now ≤ length text.now) }
    ensures mark { IfSome result (λ _. has_mark text.now ≡ true) }
    ensures none { result ≡ None → HasNoMark text.now }
{
    let mut at = 0;
    while at < text.len() {
        let (before, rest) = parts_at(text, at);
        let length = first_line(rest);
        let (line, after) = parts_at(rest, length);
        if is_mark(line) {
            return Some((before, after));
        }
        at += length;
    }
    None
}

/// What stands before a place of a text, and what stands from there on.
fn parts_at(text: &[u8], at: usize) -> (&[u8], &[u8])
    requires { at ≤ length text.now }
    ensures before { result.0.now ≡ take at text.now }
    ensures rest { result.1.now ≡ drop at text.now }
    ensures short { length result.0.now ≤ length text.now }
{
    (&text[..at], &text[at..])
}

/// The length of the first line of a text, its byte 10 counted.
fn first_line(text: &[u8]) -> usize
    ensures { result ≡ line_length text.now }
{
    for (i, byte) in text.iter().enumerate() {
        if *byte == b'\n' {
            return i + 1;
        }
    }
    text.len()
}

/// Whether the line is exactly `%%`.
fn is_mark(line: &[u8]) -> bool
    ensures { result ≡ is_mark line.now }
{
    line == b"%%\n".as_slice() || line == b"%%".as_slice()
}
