//! A law of each tree that a text is parsed to.
ghost use Rattle.std.specs.Prelude.{◌+◌, ◌<◌, ◌^◌, ℕ, List, [], length};
ghost use Rattle.twe_base.specs.declared.place.Place.{Place};
ghost use Rattle.twe_ast.specs.declared.item.Ast.{Ast};
ghost use Rattle.twe_lexer.specs.declared.token.Token.{Token};
ghost use Rattle.twe_lexer.specs.Tokens.{BeginsWith};
ghost use Rattle.twe_parser.specs.declared.fail.SRule.{SRule};
ghost use Rattle.twe_parser.specs.Fails.{Fails};
ghost use Rattle.twe_parser.specs.Writes.{Writes};
ghost use Rattle.twe_names.specs.FromText.{IsFromText};

/// A text that `parse` can take has less than 2^32 - 1 bytes. If it keeps the rules of the text, all that its tree
/// declares and does can be numbered, each index in a path is a literal up to 2147483647, and no method makes a task.
pub fn parsed_trees_are_from_texts()
    ensures { (text : List ℕ) (tokens : List Token) (tree : Ast) → length text + 1 < 2 ^ 32 → BeginsWith text tokens []
        → Writes tree tokens
        → ((rule : SRule) (place : Place) → ¬ Fails text rule place) → IsFromText tree }
{}
