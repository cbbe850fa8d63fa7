//! The numbers on the command line.
ghost use Rattle.std.specs.Prelude.{◌≡◌, ◌≤◌, ◌<◌, min};
ghost use Rattle.std.specs.List.{list_all};
ghost use Rattle.std.specs.Char.{is_ascii_digit};
ghost use Rattle.command_line.specs.Numbers.{is_number_word, number_of_word, number_between};

/// The value of every number from here on: it is above each limit of the command line.
const TOO_LARGE: u64 = 10_000_000_000;

/// The number that a word is, if it is one of 1 to 10 decimal digits, from `least` to `most`.
pub fn number_between(least: u64, most: u64, word: &[u8]) -> Option<u64>
    requires { most < 10000000000 }
    ensures { result ≡ number_between least most word.now }
{
    if !is_number(word) {
        return None;
    }
    let number = number_of(word);
    if least <= number && number <= most {
        Some(number)
    } else {
        None
    }
}

/// Whether the word is 1 to 10 decimal digits and nothing else.
fn is_number(word: &[u8]) -> bool
    ensures { result ≡ is_number_word word.now }
{
    1 <= word.len() && word.len() <= 10 && are_digits(word)
}

/// Whether each byte is a decimal digit.
fn are_digits(word: &[u8]) -> bool
    ensures { result ≡ list_all is_ascii_digit word.now }
{
    word.iter().all(|byte| byte.is_ascii_digit())
}

/// The number that the digits write, but at most 10000000000.
fn number_of(digits: &[u8]) -> u64
    ensures { result ≡ min (number_of_word digits.now) 10000000000 }
{
    let mut value: u64 = 0;
    for digit in digits {
        let more = value * 10 + u64::from(digit.saturating_sub(b'0'));
        value = more.min(TOO_LARGE);
    }
    value
}
