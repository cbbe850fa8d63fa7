//! Laws of the parts of a text, and of what is written of them.
ghost use Rattle.std.specs.Prelude.{◌≡◌, ℕ, List, [], Option, flat_map};
ghost use Rattle.twe_lexer.specs.Tokens.{AreFirstLexemes};
ghost use Rattle.summary_texts.specs.Parts.{part_bytes, parts_of};
ghost use Rattle.summary_texts.specs.Written.{HasSummaries, written_parts};

/// The parts of a text are all of its bytes, in their order. So what is written differs from the text in summaries of methods
/// alone. If every method keeps its summary, it is the text itself.
pub fn parts_are_the_text()
    ensures whole { (lexemes : List (List ℕ)) (text : List ℕ) → AreFirstLexemes lexemes text []
        → flat_map part_bytes (parts_of lexemes) ≡ text }
    ensures kept { (lexemes : List (List ℕ)) (text : List ℕ) → AreFirstLexemes lexemes text []
        → written_parts [] (parts_of lexemes) ≡ text }
{}

/// A text with given summaries of its methods is one text.
pub fn one_written_text()
    ensures { (news : List (Option (List ℕ))) (text one other : List ℕ) → HasSummaries news text one
        → HasSummaries news text other → one ≡ other }
{}
