//! Lines and columns of the bytes of a text.
ghost use Rattle.std.specs.Prelude.{◌≡◌, ℕ, ◌+◌, ◌^◌, ◌<◌, List, [], ◌++◌, length};
ghost use Rattle.twe_lexer.specs.Places.{place_after};

use twe_base::Place;

/// The place of the first byte of every text.
pub fn first_place() -> Place
    ensures { result ≡ place_after [] }
{
    Place { line: 1, col: 1 }
}

/// The place after these bytes, of which the first is at `place`.
pub fn place_past(mut place: Place, bytes: &[u8]) -> Place
    requires lines { place.line + length bytes.now < 2 ^ 32 }
    requires columns { place.col + length bytes.now < 2 ^ 32 }
    ensures { (before : List ℕ) → place ≡ place_after before → result ≡ place_after (before ++ bytes.now) }
{
    for byte in bytes {
        if *byte == b'\n' {
            place.line += 1;
            place.col = 1;
        } else {
            place.col += 1;
        }
    }
    place
}
