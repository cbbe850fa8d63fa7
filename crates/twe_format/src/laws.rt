//! Laws of answers, and of a text and its layout.
ghost use Rattle.std.specs.Prelude.{◌≡◌, ◌↔◌, ℕ, List, []};
ghost use Rattle.twe_base.specs.declared.place.Place.{Place};
ghost use Rattle.twe_ast.specs.declared.item.Ast.{Ast};
ghost use Rattle.twe_program.specs.Program.{Program};
ghost use Rattle.text_layout.specs.InLayout.{IsInLayout};
ghost use Rattle.twe_frontend.specs.Accepted.{Accepted, IsRefusal, IsTreeOf};
ghost use Rattle.twe_frontend.specs.declared.refusal.RuleName.{RuleName};
ghost use Rattle.layout_refusals.specs.SamePlace.{IsSamePlace};
ghost use Rattle.summary_texts.specs.paste_laws.places.Places.{SameButPlaces};
ghost use Rattle.twe_io.specs.declared.answer.Answer.{Answer};
ghost use Rattle.twe_format.specs.declared.words.FormatRequest.{FormatRequest as AnyRequest};
ghost use Rattle.twe_format.specs.Answers.{FormatDue};
ghost use Rattle.twe_format.specs.Differences.{differing_lines};

use layout_refusals::layouts_keep_refusals;
use summary_texts::paste_laws::places::places_do_not_matter;
use twe_frontend::one_refusal;
use twe_parser::one_tree;

/// What `twe_format` writes for a text, and its status, are functions of the words and the text.
pub fn one_format_answer()
    ensures { (request : AnyRequest) (text : List ℕ) (answer other : Answer) → FormatDue request text answer
        → FormatDue request text other → answer ≡ other }
{
    one_refusal();
}

/// No line differs between a text and its layout exactly if both are the same text.
pub fn lines_tell_texts_apart()
    ensures { (text laid : List ℕ) → (differing_lines text laid ≡ []) ↔ (text ≡ laid) }
{}

/// A text that has a tree is accepted exactly if it is accepted in its layout. Then both programs are equal except for the places
/// in them.
pub fn layouts_are_accepted_alike()
    ensures laid { (text laid : List ℕ) (p : Program) → Accepted text p → IsInLayout text laid
        → (q : Program) × Accepted laid q × SameButPlaces p q }
    ensures text { (text laid : List ℕ) (tree : Ast) (q : Program) → IsTreeOf text tree → IsInLayout text laid → Accepted laid q
        → (p : Program) × Accepted text p × SameButPlaces q p }
{
    one_tree();
    places_do_not_matter();
}

/// A text that has a tree is refused exactly if it is refused in its layout: by the same rule, at the place of the same token.
pub fn layouts_are_refused_alike()
    ensures laid { (text laid : List ℕ) (tree : Ast) (rule : RuleName) (place : Place) → IsTreeOf text tree → IsInLayout text laid
        → IsRefusal text (record { rule = rule; place = place })
        → (its : Place) × IsRefusal laid (record { rule = rule; place = its }) × IsSamePlace text laid place its }
    ensures text { (text laid : List ℕ) (tree : Ast) (rule : RuleName) (place : Place) → IsTreeOf text tree → IsInLayout text laid
        → IsRefusal laid (record { rule = rule; place = place })
        → (its : Place) × IsRefusal text (record { rule = rule; place = its }) × IsSamePlace laid text place its }
{
    layouts_keep_refusals();
}
