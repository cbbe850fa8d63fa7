//! What stands behind a place.
ghost use Rattle.std.specs.Prelude.{◌≡◌, ◌++◌, ℕ, List};
ghost use Rattle.twe_lexer.specs.Places.{place_after};
ghost use Rattle.refusal_causes.specs.text_rules.Behind.{from_place};

use twe_base::Place;
use twe_frontend::{after_bytes, after_lines};

/// The text from the place on.
pub fn from_place(text: &[u8], place: Place) -> &[u8]
    ensures lines { result.now ≡ from_place text.now place }
    ensures behind { (before rest : List ℕ) → text.now ≡ before ++ rest → place ≡ place_after before → result.now ≡ rest }
{
    let line = after_lines(text, place.line.saturating_sub(1));
    after_bytes(line, place.col.saturating_sub(1) as usize)
}
