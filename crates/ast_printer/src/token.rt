//! Tokens: the bytes of each, and the space or the end of a line after it.
ghost use Rattle.std.specs.Prelude.{◌≡◌, [], ◌∷◌, ◌++◌, unsigned_abs, OnOk};
ghost use Rattle.twe_lexer.specs.declared.token.TokenKind.TheVariants as kinds;
ghost use Rattle.ast_printer.specs.Text.{gap_after, text_of, when};
ghost use Rattle.ast_printer.specs.ExpressionTokens.{literal_tokens};

use itoa::Buffer;
use twe_ast::Name;
use twe_base::{Bytes, Memory};
use twe_lexer::Fixed;

/// The byte after a keyword or a symbol: the end of a line after `{`, `}` and `;`, else a space.
fn gap_after(fixed: Fixed) -> u8
    ensures { result ≡ gap_after (kinds.Fixed fixed) }
{
    match fixed {
        Fixed::OpenBrace | Fixed::CloseBrace | Fixed::Semicolon => b'\n',
        _ => b' ',
    }
}

/// Writes a keyword or a symbol.
pub(crate) fn push_fixed(text: &mut Bytes, fixed: Fixed) -> Result<(), Memory>
    ensures { OnOk result (text.new ≡ text.old ++ text_of (kinds.Fixed fixed ∷ [])) }
{
    text.push_all(fixed.spelling().as_bytes())?;
    text.push(gap_after(fixed))
}

/// Writes a keyword or a symbol if the condition is true.
pub(crate) fn push_when(text: &mut Bytes, stands: bool, fixed: Fixed) -> Result<(), Memory>
    ensures { OnOk result (text.new ≡ text.old ++ text_of (when stands fixed)) }
{
    if stands {
        push_fixed(text, fixed)
    } else {
        Ok(())
    }
}

/// Writes two keywords or symbols.
pub(crate) fn push_two(text: &mut Bytes, first: Fixed, second: Fixed) -> Result<(), Memory>
    ensures { OnOk result (text.new ≡ text.old ++ text_of (kinds.Fixed first ∷ kinds.Fixed second ∷ [])) }
{
    push_fixed(text, first)?;
    push_fixed(text, second)
}

/// Writes a name.
pub(crate) fn push_name(text: &mut Bytes, name: &Name) -> Result<(), Memory>
    ensures { OnOk result (text.new ≡ text.old ++ text_of (kinds.Name name.now.text ∷ [])) }
{
    push_text(text, name.text.as_bytes())
}

/// Writes the bytes of a name.
pub(crate) fn push_text(text: &mut Bytes, name: &[u8]) -> Result<(), Memory>
    ensures { OnOk result (text.new ≡ text.old ++ text_of (kinds.Name name.now ∷ [])) }
{
    text.push_all(name)?;
    text.push(b' ')
}

/// Writes a number in decimal digits.
pub(crate) fn push_number(text: &mut Bytes, number: u32) -> Result<(), Memory>
    ensures { OnOk result (text.new ≡ text.old ++ text_of (kinds.Literal number ∷ [])) }
{
    text.push_all(Buffer::new().format(number).as_bytes())?;
    text.push(b' ')
}

/// Writes a literal: its digits, after `-` if it is negative.
pub(crate) fn push_literal(text: &mut Bytes, value: i32) -> Result<(), Memory>
    ensures { OnOk result (text.new ≡ text.old ++ text_of (literal_tokens value)) }
{
    push_when(text, value < 0, Fixed::Minus)?;
    push_number(text, value.unsigned_abs())
}
