//! The values of integer literals.
ghost use Rattle.std.specs.Prelude.{◌≡◌, IsTrue, min};
ghost use Rattle.twe_lexer.specs.Lexeme.{is_number};
ghost use Rattle.twe_lexer.specs.Kinds.{number_of_kind, too_large};

use twe_base::MAX_LITERAL;

/// The value that stands for every number that is too large in every position.
const TOO_LARGE: u32 = MAX_LITERAL + 2;

/// The number with these decimal digits, or `TOO_LARGE` if it is greater.
pub(crate) fn literal_value(digits: &[u8]) -> u32
    requires { IsTrue (is_number digits.now) }
    ensures { result ≡ min (number_of_kind digits.now) too_large }
{
    let mut value: u32 = 0;
    for digit in digits {
        let more = u64::from(value) * 10 + u64::from(*digit - b'0');
        value = more.min(u64::from(TOO_LARGE)) as u32;
    }
    value
}
