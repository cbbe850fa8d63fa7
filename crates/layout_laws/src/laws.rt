//! Laws of texts whose tokens have the same kinds.
ghost use Rattle.std.specs.Prelude.{◌≡◌, ℕ, List, map};
ghost use Rattle.twe_base.specs.declared.memory.Memory.{Memory};
ghost use Rattle.twe_base.specs.declared.place.Place.{Place};
ghost use Rattle.twe_ast.specs.declared.item.Ast.{Ast};
ghost use Rattle.twe_lexer.specs.declared.lexeme.LexemeFail.{LexemeFail};
ghost use Rattle.twe_lexer.specs.declared.lexeme.LexemeFail.TheVariants.{OutOfMemory};
ghost use Rattle.twe_lexer.specs.declared.token.Token.{Token};
ghost use Rattle.twe_lexer.specs.declared.token.TokenKind.{TokenKind};
ghost use Rattle.text_pieces.specs.Pieces.{StopsCut};
ghost use Rattle.twe_parser.specs.declared.fail.SRule.{SRule};
ghost use Rattle.twe_parser.specs.declared.fail.SRule.TheVariants.{S1, S6};
ghost use Rattle.twe_parser.specs.Fails.{Fails};
ghost use Rattle.twe_parser.specs.Writes.{Writes};
ghost use Rattle.ast_printer.specs.BareItem.{EqualButForPlaces};
ghost use Rattle.ast_printer.specs.ParsesAgain.{IsTextOf, ParsesAgain};
ghost use Rattle.text_layout.specs.InLayout.{IsInLayout};
ghost use Rattle.text_layout.specs.Kinds.{HasKinds};

/// The places of tokens do not matter for their tree: tokens of the same kinds and values have the same tree, except for the
/// places in it.
pub fn same_kinds_same_tree()
    ensures { (tokens others : List Token) (tree : Ast)
        → map (λ token. token.kind) tokens ≡ map (λ token. token.kind) others → Writes tree tokens
        → (other : Ast) × Writes other others × EqualButForPlaces tree other }
{}

/// Two texts whose tokens have the same kinds and values fail the same of the rules that speak of tokens: all but S1, on bytes,
/// and S6, on comments.
pub fn same_kinds_fail_alike()
    ensures { (text other : List ℕ) (kinds : List TokenKind) → HasKinds text kinds → HasKinds other kinds
        → (rule : SRule) (place : Place) → ¬ (rule ≡ S1) → ¬ (rule ≡ S6) → Fails text rule place
        → (its : Place) × Fails other rule its }
{}

/// A text that fails no rule of the text fails none in its layout, and has the same tree there, except for the places in it.
pub fn layout_keeps_the_tree()
    ensures { (text written : List ℕ) (tree : Ast) → IsInLayout text written → IsTextOf text tree → ParsesAgain written tree }
{}

/// A text has one layout.
pub fn one_layout()
    ensures { (text one other : List ℕ) → IsInLayout text one → IsInLayout text other → one ≡ other }
{}

/// A text that fails no rule of the text can be cut into its pieces: want of memory alone stops that.
pub fn only_memory_stops_a_cut()
    ensures { (text : List ℕ) (fail : LexemeFail) → ((rule : SRule) (place : Place) → ¬ Fails text rule place)
        → StopsCut fail text → (memory : Memory) × (fail ≡ OutOfMemory memory) }
{}
