//! Laws of texts with the least summaries of their methods: they stay accepted, and do not change when they are written again.
ghost use Rattle.std.specs.Prelude.{◌≡◌, ℕ, List, Option, Some, map, IsTrue};
ghost use Rattle.std.specs.List.{list_all};
ghost use Rattle.effect_sets.specs.declared.effects.Summary.{Summary};
ghost use Rattle.twe_ast.specs.declared.item.Ast.{Ast};
ghost use Rattle.twe_program.specs.Program.{Program};
ghost use Rattle.twe_frontend.specs.Accepted.{Accepted, IsMeaningOf};
ghost use Rattle.effect_infer.specs.needs.Choices.{NoRuleFails, with_summaries};
ghost use Rattle.effect_infer.specs.Inferred.{AreEachLeast, AreLeast};
ghost use Rattle.summary_texts.specs.paste_laws.Pasted.{IsPasted};
ghost use Rattle.twe_frontend.specs.meaning.Meaning.{TextMeans};
ghost use Rattle.summary_texts.specs.Pasted.{HasSummariesOf, IsPastedText};
ghost use Rattle.summary_texts.specs.Writable.{is_writable};

use twe_parser::one_tree;

/// Let these be the least summaries of the methods of a text, let a text be able to have each of them, and let a text be written
/// with them and read again as `paste_summaries` does. Then it means the program of the text with these summaries. If no rule on
/// effects fails with them, as `infer` promises for an accepted text, the text that was written is accepted.
pub fn pasted_texts_stay_accepted()
    ensures meant { (text written : List ℕ) (tree : Ast) (p : Program) (all : List Summary) → TextMeans text tree p
        → AreLeast p all → IsTrue (list_all is_writable all) → IsPastedText (map Some all) tree text written
        → (q : Program) × IsMeaningOf written q × IsPasted all p q }
    ensures accepted { (text written : List ℕ) (tree : Ast) (p : Program) (all : List Summary) → TextMeans text tree p
        → AreLeast p all → IsTrue (list_all is_writable all) → IsPastedText (map Some all) tree text written
        → NoRuleFails (with_summaries all p) → (q : Program) × Accepted written q × IsPasted all p q }
{
    one_tree();
}

/// Let a text be written so. With the least summaries of the methods of the text that was written, whatever they declare in it,
/// it stays as it is.
pub fn pasted_texts_do_not_change()
    ensures { (text written twice : List ℕ) (tree its : Ast) (p q : Program) (all : List Summary)
        (each : List (Option Summary)) → TextMeans text tree p
        → AreLeast p all → IsTrue (list_all is_writable all) → IsPastedText (map Some all) tree text written
        → TextMeans written its q → AreEachLeast q each → HasSummariesOf each its written twice → twice ≡ written }
{
    one_tree();
}
