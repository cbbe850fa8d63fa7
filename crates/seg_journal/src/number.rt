//! Decimal numbers without leading zeros at the start of a text.
ghost use Rattle.std.specs.Prelude.{◌≡◌, ◌≢◌, ◌<◌, ◌≤◌, ◌+◌, ◌^◌, ◌==◌, ℕ, List, length, take, drop, ◌∷◌, ◌++◌, Some, decimal, position, IfSome, IfNone, IsSomeAnd};
ghost use Rattle.std.specs.List.{AllByRecursion};
ghost use Rattle.std.specs.Char.{IsAsciiDigit};
ghost use Rattle.std.specs.Str.{IsUtf8};

use itoa::Buffer;
use std::str;

/// The number that begins a text, and the rest of the text after the byte `end` that ends the number. Returns none if no
/// number of at most `most` that `end` ends begins the text.
pub(crate) fn number_before(text: &[u8], end: u8, most: u64) -> Option<(u64, &[u8])>
    requires { ¬ IsAsciiDigit end }
    ensures found { IfSome result (λ x. (x.0 ≤ most) × (text.now ≡ decimal x.0 ++ end ∷ x.1.now)) }
    ensures only { (n : ℕ) (rest : List ℕ) → n ≤ most → text.now ≡ decimal n ++ end ∷ rest
        → IsSomeAnd result (λ x. (x.0 ≡ n) × (x.1.now ≡ rest)) }
{
    let (digits, rest) = split_at_first(text, end)?;
    let number = number_of(digits)?;
    if number > most {
        return None;
    }
    Some((number, rest))
}

/// The parts of a text before and after the first byte of this value; none if there is no such byte.
fn split_at_first(text: &[u8], byte: u8) -> Option<(&[u8], &[u8])>
    ensures found { IfSome result (λ x. text.now ≡ x.0.now ++ byte ∷ x.1.now) }
    ensures only { (front rest : List ℕ) → AllByRecursion (λ b. b ≢ byte) front → text.now ≡ front ++ byte ∷ rest
        → IsSomeAnd result (λ x. (x.0.now ≡ front) × (x.1.now ≡ rest)) }
{
    let at = first_place(text, byte)?;
    Some(parts_at(text, at))
}

/// The parts of a text before and after a place.
fn parts_at(text: &[u8], at: usize) -> (&[u8], &[u8])
    requires { at < length text.now }
    ensures front { result.0.now ≡ take at text.now }
    ensures rest { result.1.now ≡ drop (at + 1) text.now }
{
    (&text[..at], &text[at + 1..])
}

/// The first place of a byte in a text, if there is one.
fn first_place(text: &[u8], byte: u8) -> Option<usize>
    ensures { result ≡ position (λ b. b == byte) text.now }
{
    text.iter().position(|b| *b == byte)
}

/// The number whose decimal form is this text; none if the text is no such form.
fn number_of(text: &[u8]) -> Option<u64>
    ensures found { IfSome result (λ n. text.now ≡ decimal n) }
    ensures only { (n : ℕ) → n < 2 ^ 64 → text.now ≡ decimal n → result ≡ Some n }
{
    let number = parsed(text_of(text)?)?;
    let mut buffer = Buffer::new();
    if buffer.format(number).as_bytes() == text {
        Some(number)
    } else {
        None
    }
}

/// The bytes as a text; none if they are not UTF-8.
fn text_of(bytes: &[u8]) -> Option<&str>
    ensures found { IfSome result (λ text. text.now ≡ bytes.now) }
    ensures none { IfNone result (¬ IsUtf8 bytes.now) }
{
    str::from_utf8(bytes).ok()
}

/// The number that a text denotes, perhaps with leading zeros or a sign; none if it denotes none.
fn parsed(text: &str) -> Option<u64>
    ensures { (n : ℕ) → n < 2 ^ 64 → text.now ≡ decimal n → result ≡ Some n }
{
    text.parse().ok()
}
