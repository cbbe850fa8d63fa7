//! Laws of what is written: a verdict says neither more nor less than the effects of the two tasks do, and a text with the least
//! summaries stays accepted, and does not change when it is written again.
ghost use Rattle.std.specs.Prelude.{◌≡◌, ◌↔◌, ℕ, List, [], Option, Some, map, IsTrue};
ghost use Rattle.std.specs.List.{list_all};
ghost use Rattle.region_paths.specs.Filled.{Valuation};
ghost use Rattle.effect_sets.specs.declared.effects.Effect.{Effect};
ghost use Rattle.effect_meeting.specs.declared.all_meetings.Meeting.{Meeting};
ghost use Rattle.effect_meeting.specs.Meetings.{SomeInterfereUnder};
ghost use Rattle.effect_meeting.specs.MeetingsOf.{meetings_of};
ghost use Rattle.twe_annotate.specs.Texts.{first_always};
ghost use Rattle.effect_sets.specs.declared.effects.Summary.{Summary};
ghost use Rattle.twe_ast.specs.declared.item.Ast.{Ast};
ghost use Rattle.twe_ast.specs.declared.item.Item.{Item};
ghost use Rattle.twe_io.specs.declared.status.Status.TheVariants.{Done};
ghost use Rattle.twe_program.specs.Program.{Program};
ghost use Rattle.twe_frontend.specs.Accepted.{Accepted, IsMeaningOf};
ghost use Rattle.summary_texts.specs.paste_laws.Pasted.{IsPasted};
ghost use Rattle.twe_frontend.specs.meaning.Meaning.{TextMeans};
ghost use Rattle.summary_texts.specs.Pasted.{IsPastedText};
ghost use Rattle.summary_texts.specs.Writable.{is_writable};
ghost use Rattle.twe_annotate.specs.Answers.{AreLeastOf};
ghost use Rattle.twe_annotate.specs.Kept.{kept_lines, write_status};
ghost use Rattle.twe_annotate.specs.Verdicts.{AlwaysMeet, SomeMeet, SomeMeetingHolds};

use summary_texts::{pasted_texts_do_not_change, pasted_texts_stay_accepted};

/// There is no meeting, which is written `apart`, exactly if the effects interfere for no values of the parameters. For given
/// values they interfere exactly if the equalities of one of the meetings hold, which `apart unless` writes. A meeting without
/// equalities, which is written `interfere on`, is on the path of an effect that interferes for all values.
pub fn verdicts_are_exact()
    ensures apart { (first second : List Effect) → (meetings_of first second ≡ []) ↔ (¬ SomeMeet first second) }
    ensures unless { (first second : List Effect) (v w : Valuation) → SomeInterfereUnder v w first second
        ↔ SomeMeetingHolds v w (meetings_of first second) }
    ensures always { (first second : List Effect) (meeting : Meeting) → first_always (meetings_of first second) ≡ Some meeting
        → AlwaysMeet first second meeting }
{}

/// If each method has a least summary, and a text can have each of them, no method is named, and the status is 0.
pub fn no_method_is_named()
    ensures unnamed { (all : List Summary) (items : List Item) → IsTrue (list_all is_writable all)
        → kept_lines (map Some all) items ≡ [] }
    ensures done { (all : List Summary) → write_status (map Some all) ≡ Done }
{}

/// Let each method of a text have a least summary that a text can have. What is written means the program of the text with these
/// summaries. If the text is accepted, so is what is written.
pub fn written_texts_stay_accepted()
    ensures meant { (text bytes : List ℕ) (tree : Ast) (p : Program) (all : List Summary) → TextMeans text tree p
        → AreLeastOf p (map Some all) → IsTrue (list_all is_writable all) → IsPastedText (map Some all) tree text bytes
        → (q : Program) × IsMeaningOf bytes q × IsPasted all p q }
    ensures accepted { (text bytes : List ℕ) (tree : Ast) (p : Program) (all : List Summary) → TextMeans text tree p
        → AreLeastOf p (map Some all) → IsTrue (list_all is_writable all) → IsPastedText (map Some all) tree text bytes
        → Accepted text p → (q : Program) × Accepted bytes q × IsPasted all p q }
{
    pasted_texts_stay_accepted();
}

/// Let each method of a text have a least summary that a text can have. If what is written is read next, the same bytes are
/// written.
pub fn written_texts_do_not_change()
    ensures { (text bytes twice : List ℕ) (tree its : Ast) (p q : Program) (all : List Summary)
        (each : List (Option Summary)) → TextMeans text tree p
        → AreLeastOf p (map Some all) → IsTrue (list_all is_writable all) → IsPastedText (map Some all) tree text bytes
        → TextMeans bytes its q → AreLeastOf q each → IsPastedText each its bytes twice → twice ≡ bytes }
{
    pasted_texts_do_not_change();
}
