//! The laws of pasting.
ghost use Rattle.std.specs.Prelude.{◌≡◌, ℕ, List, length};
ghost use Rattle.twe_base.specs.declared.place.Place.{Place};
ghost use Rattle.effect_sets.specs.declared.effects.Summary.{Summary};
ghost use Rattle.twe_ast.specs.declared.item.Ast.{Ast};
ghost use Rattle.twe_program.specs.Program.{Program};
ghost use Rattle.name_check.specs.declared.rule.NRule.{NRule};
ghost use Rattle.name_check.specs.FailsName.{FailsName};
ghost use Rattle.twe_names.specs.Meaning.{program_of};
ghost use Rattle.twe_frontend.specs.Accepted.{Accepted, IsMeaningOf, IsTreeOf};
ghost use Rattle.ast_printer.specs.BareItem as trees;
ghost use Rattle.ast_printer.specs.ItemTokens.{printed_tokens};
ghost use Rattle.effect_infer.specs.needs.Choices.{HasNeeds, NoRuleFails, with_summaries};
ghost use Rattle.effect_infer.specs.Inferred.{AreLeast};
ghost use Rattle.summary_texts.specs.paste_laws.Clauses.{pasted};
ghost use Rattle.summary_texts.specs.paste_laws.Pasted.{CanBePasted, IsPasted};

/// Let a program fail no rule on effects with these summaries of its methods, as an accepted one does with those of `infer`.
/// Then each text is accepted that keeps the rules of the text and of names and means this program with these summaries, whatever
/// the order of the effects in a summary, and whatever the places in the text.
pub fn texts_with_these_summaries_are_accepted()
    ensures { (p q : Program) (summaries : List Summary) (text : List ℕ) → length summaries ≡ length p.methods
        → NoRuleFails (with_summaries summaries p) → IsPasted summaries p q → IsMeaningOf text q → Accepted text q }
{}

/// Let a tree keep the rules of names, and let each of these summaries be made of needs of its method, as those of `infer` are.
/// Let a text be able to have them, with their effects in any order. Then the tree with their clauses, in the place of those that
/// methods declare, keeps the rules of names too, and means the program with these summaries.
pub fn pasted_trees_keep_names()
    ensures { (tree : Ast) (summaries written : List Summary) → ((rule : NRule) (place : Place) → ¬ FailsName tree rule place)
        → HasNeeds (program_of tree) summaries → CanBePasted written summaries
        → ((rule : NRule) (place : Place) → ¬ FailsName (pasted written tree) rule place)
        × IsPasted summaries (program_of tree) (program_of (pasted written tree)) }
{}

/// The summaries of `infer` can be pasted into the text. Let a text keep the rules of the text and those of names, let these be
/// the least summaries of its methods, and let a text be able to have them: no literal is negative, no path is longer than the
/// limit, and no method has more effects than the limit. Write their clauses, with the effects in any order, in the place of
/// those that methods declare. The text that `print_ast` prints of this tree keeps both kinds of rules, and means the program
/// with these summaries; and so does each other text with this tree, however it is laid out. If no rule on effects fails with
/// these summaries, as `infer` promises for an accepted text, such a text is accepted.
pub fn inferred_summaries_can_be_pasted()
    ensures printed { (text : List ℕ) (p : Program) (meaning : IsMeaningOf text p) (summaries written : List Summary)
        → AreLeast p summaries
        → CanBePasted written summaries
        → (its : Ast) × IsTreeOf (printed_tokens (pasted written meaning.tree)) its
        × trees.EqualButForPlaces (pasted written meaning.tree) its }
    ensures meant { (text other : List ℕ) (p : Program) (its : Ast) (meaning : IsMeaningOf text p)
        (summaries written : List Summary)
        → AreLeast p summaries
        → CanBePasted written summaries → IsTreeOf other its → trees.EqualButForPlaces (pasted written meaning.tree) its
        → (q : Program) × IsMeaningOf other q × IsPasted summaries p q }
    ensures accepted { (text other : List ℕ) (p : Program) (its : Ast) (meaning : IsMeaningOf text p)
        (summaries written : List Summary)
        → AreLeast p summaries → CanBePasted written summaries → IsTreeOf other its
        → trees.EqualButForPlaces (pasted written meaning.tree) its
        → NoRuleFails (with_summaries summaries p) → (q : Program) × Accepted other q × IsPasted summaries p q }
{}
