//! Laws of refusals: by which rule a text that has a tree is refused, and at which of its tokens, does not depend on its layout.
ghost use Rattle.std.specs.Prelude.{◌≡◌, ℕ, List, map};
ghost use Rattle.twe_base.specs.declared.place.Place.{Place};
ghost use Rattle.twe_ast.specs.declared.item.Ast.{Ast};
ghost use Rattle.text_layout.specs.InLayout.{IsInLayout};
ghost use Rattle.twe_frontend.specs.Accepted.{IsRefusal, IsTreeOf};
ghost use Rattle.twe_frontend.specs.declared.refusal.RuleName.{RuleName};
ghost use Rattle.layout_refusals.specs.SamePlace.{IsSamePlace};

use twe_parser::one_tree;

/// Let two texts have trees, and tokens of the same kinds and values. If the one is refused, the other is refused by the same rule,
/// at the place of the same token.
pub fn same_tokens_are_refused_alike()
    ensures { (text other : List ℕ) (tree its_tree : Ast) (parsed : IsTreeOf text tree) (also : IsTreeOf other its_tree)
        → map (λ token. token.kind) parsed.tokens ≡ map (λ token. token.kind) also.tokens
        → (rule : RuleName) (place : Place) → IsRefusal text (record { rule = rule; place = place })
        → (its : Place) × IsRefusal other (record { rule = rule; place = its }) × IsSamePlace text other place its }
{
    one_tree();
}

/// A text that has a tree is refused exactly if it is refused in its layout: by the same rule, at the place of the same token.
pub fn layouts_keep_refusals()
    ensures laid { (text laid : List ℕ) (tree : Ast) (rule : RuleName) (place : Place) → IsTreeOf text tree → IsInLayout text laid
        → IsRefusal text (record { rule = rule; place = place })
        → (its : Place) × IsRefusal laid (record { rule = rule; place = its }) × IsSamePlace text laid place its }
    ensures text { (text laid : List ℕ) (tree : Ast) (rule : RuleName) (place : Place) → IsTreeOf text tree → IsInLayout text laid
        → IsRefusal laid (record { rule = rule; place = place })
        → (its : Place) × IsRefusal text (record { rule = rule; place = its }) × IsSamePlace laid text place its }
{
    one_tree();
}
