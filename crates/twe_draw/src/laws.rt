//! The laws of pictures: their tags nest, each entry of a row has one bar, and an input has one answer.
ghost use Rattle.std.specs.Prelude.{◌≡◌, ℕ, Bool, List, Option, Some, codes, slice_get};
ghost use Rattle.std.specs.List.{flat_map};
ghost use Rattle.seg_journal.specs.declared.moves.Move.{Move};
ghost use Rattle.twe_base.specs.Limits.{Bounds};
ghost use Rattle.twe_program.specs.Program.{Program};
ghost use Rattle.machine_state.specs.declared.state.TaskRow.{TaskRow};
ghost use Rattle.held_span.specs.declared.hold.Hold.{Hold as AnyHold};
ghost use Rattle.twe_io.specs.declared.answer.Answer.{Answer};
ghost use Rattle.twe_draw.specs.Answers.{PictureDue};
ghost use Rattle.twe_draw.specs.picture.Pictures.{IsPicture};
ghost use Rattle.twe_draw.specs.declared.picture.bars.EntryBar.{EntryBar as AnyBar};
ghost use Rattle.twe_draw.specs.picture.Markup.{IsDocument};
ghost use Rattle.twe_draw.specs.Bars.{bar_shown};
ghost use Rattle.twe_draw.specs.Marks.{marked, marks_of};
ghost use Rattle.twe_draw.specs.Pages.{picture_text};
ghost use Rattle.twe_draw.specs.Shown.{row_at};
ghost use Rattle.twe_draw.specs.declared.scale.Axis.{Axis as AnyAxis};
ghost use Rattle.twe_draw.specs.declared.words.AxisKind.{AxisKind as AnyKind};
ghost use Rattle.twe_draw.specs.declared.words.Drawing.{Drawing as AnyDrawing};

use held_span::one_held_profile;
use span_profile::one_profile;
use twe_frontend::{one_program, one_refusal, refused_or_accepted};

/// A picture is one element whose tags nest, whatever the run is and whichever of its tasks are shown.
pub fn a_picture_nests()
    ensures { (kind : AnyKind) (p : Program) (shown : List Bool) (work span held : ℕ) (chain : List ℕ)
        (bars : List AnyBar) (tasks : List TaskRow) (holds : List AnyHold)
        → IsDocument (codes "svg") (picture_text kind p shown work span held chain bars tasks holds) }
{}

/// The bars of a picture are those of the entries whose tasks have a row, and each such entry has exactly one.
pub fn each_shown_entry_has_one_mark()
    ensures bars { (p : Program) (tasks : List TaskRow) (bars : List AnyBar) (rows : List (Option ℕ)) (axis : AnyAxis)
        → flat_map (bar_shown p tasks bars rows axis) bars ≡ flat_map (bar_shown p tasks bars rows axis) (marked rows bars) }
    ensures one { (p : Program) (lim : Bounds) (moves : List Move) (work span held : ℕ) (chain : List ℕ)
        (bars : List AnyBar) (tasks : List TaskRow) (holds : List AnyHold)
        → IsPicture p lim moves work span held chain bars tasks holds
        → (rows : List (Option ℕ)) (number row : ℕ) (bar : AnyBar)
        → slice_get bars number ≡ Some bar → row_at rows bar.task ≡ Some row → marks_of number (marked rows bars) ≡ 1 }
{}

/// What `twe_draw` writes for an input, and its status, are functions of the words and the input.
pub fn one_picture_answer()
    ensures { (drawing : AnyDrawing) (text : List ℕ) (answer other : Answer) → PictureDue drawing text answer
        → PictureDue drawing text other → answer ≡ other }
{
    one_program();
    one_refusal();
    refused_or_accepted();
    one_profile();
    one_held_profile();
}
