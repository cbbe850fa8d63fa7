//! Laws of the grammar.
ghost use Rattle.std.specs.Prelude.{◌≡◌, ◌⊎◌, ℕ, List, []};
ghost use Rattle.twe_ast.specs.declared.item.Ast.{Ast};
ghost use Rattle.twe_lexer.specs.declared.token.Token.{Token};
ghost use Rattle.twe_base.specs.declared.place.Place.{Place};
ghost use Rattle.twe_lexer.specs.Tokens.{BeginsWith};
ghost use Rattle.twe_parser.specs.declared.fail.SRule.{SRule};
ghost use Rattle.twe_parser.specs.declared.fail.SRule.TheVariants.{S2, S3};
ghost use Rattle.twe_parser.specs.Fails.{Fails};
ghost use Rattle.twe_parser.specs.Viable.{IsProgram};
ghost use Rattle.twe_parser.specs.Writes.{Writes};

/// The grammar is unambiguous: two trees with the same tokens have the same declarations.
pub fn one_tree()
    ensures { (tokens : List Token) (tree other : Ast) → Writes tree tokens → Writes other tokens → tree.items ≡ other.items }
{}

/// A text that fails S2 or S3 is not a program.
pub fn no_program()
    ensures { (text : List ℕ) (rule : SRule) (place : Place) (tokens : List Token) → Fails text rule place
        → (rule ≡ S2) ⊎ (rule ≡ S3) → BeginsWith text tokens [] → ¬ IsProgram tokens }
{}
