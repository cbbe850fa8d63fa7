//! The brackets that are open after some tokens.
ghost use Rattle.std.specs.Prelude.{◌≡◌, OnOk};
ghost use Rattle.twe_parser.specs.Limits.{closes, opens};
ghost use Rattle.refusal_causes.specs.text_rules.Open.{open_after};
ghost use Rattle.refusal_causes.specs.text_rules.inner.Walked.{open_if};

use twe_base::{List, Memory, Place};
use twe_lexer::{Fixed, TokenKind};

/// Places of open brackets, the outermost first.
pub type OpenPlaces = List<Place>;

/// Whether it is an opening bracket.
fn opens(kind: &TokenKind) -> bool
    ensures { result ≡ opens kind.now }
{
    matches!(
        kind,
        TokenKind::Fixed(Fixed::OpenBrace)
            | TokenKind::Fixed(Fixed::OpenParen)
            | TokenKind::Fixed(Fixed::OpenBracket)
    )
}

/// Whether it is a closing bracket.
fn closes(kind: &TokenKind) -> bool
    ensures { result ≡ closes kind.now }
{
    matches!(
        kind,
        TokenKind::Fixed(Fixed::CloseBrace)
            | TokenKind::Fixed(Fixed::CloseParen)
            | TokenKind::Fixed(Fixed::CloseBracket)
    )
}

/// Takes one more token: an opening bracket is open, and a closing one closes the last that is open.
fn take_token(places: &mut OpenPlaces, kind: &TokenKind, place: Place) -> Result<(), Memory>
    ensures { OnOk result (places.new ≡ open_after places.old (record { kind = kind.now; place = place })) }
{
    if opens(kind) {
        return places.push(place);
    }
    if closes(kind) {
        let count = places.len();
        places.truncate(count.saturating_sub(1));
    }
    Ok(())
}

/// Takes one more lexeme, which is a token of this kind, or none.
pub(crate) fn take_if(
    places: &mut OpenPlaces,
    token: &Option<TokenKind>,
    place: Place,
) -> Result<(), Memory>
    ensures { OnOk result (places.new ≡ open_if places.old token.now place) }
{
    match token {
        None => Ok(()),
        Some(kind) => take_token(places, kind, place),
    }
}
