//! The run theorem.
ghost use Rattle.std.specs.Prelude.{ℕ, Bool, List};
ghost use Rattle.twe_base.specs.Limits.{Bounds};
ghost use Rattle.command_line.specs.Words.{Means};
ghost use Rattle.command_line.specs.declared.command.Command.TheVariants.{Run};
ghost use Rattle.twe_io.specs.Ends.{Ends, ends_tell, sink, source};
ghost use Rattle.twe_io.specs.declared.status.Status.TheVariants.{Done};
ghost use Rattle.twe_report.specs.Texts as texts;
ghost use Rattle.text_answers.specs.Causes.{AnswersWords};
ghost use Rattle.text_answers.specs.declared.book.Book.{Book};
ghost use Rattle.run_theorem.specs.Theorem.{RunTheorem};

use crate::accepted::accepted_programs_are_well_formed;
use crate::journals::{each_task_is_enabled_once, tasks_keep_apart_throughout};
use command_line::one_command;
use isolation_laws::accepted_runs_are_isolated;
use twe_io::{Sink, Source};

/// The run theorem follows from the contract of `twe`. Let the words of a call mean `run`, with its journal or without, and let
/// the clause `answers` of `twe` hold of the call, with status 0. Then the run theorem holds of it: of the text that was read,
/// the program that it means, the journal of its run, and what was written.
pub fn the_run_theorem<S: Source, O: Sink, E: Sink>()
    ensures { (words : List (List ℕ)) (workers : ℕ) (lim : Bounds) (asked : Bool) (before after : Ends S O E) (book : Book)
        → Means words (Run workers lim asked)
        → AnswersWords (ends_tell (source S.left S.faults S.read_gives) (sink O.written O.faults O.write_gives)
        (sink E.written E.faults E.write_gives)) texts.usage_text words before after book Done
        → RunTheorem (ends_tell (source S.left S.faults S.read_gives) (sink O.written O.faults O.write_gives)
        (sink E.written E.faults E.write_gives)) workers lim asked before after book }
{
    accepted_programs_are_well_formed();
    accepted_runs_are_isolated();
    tasks_keep_apart_throughout();
    each_task_is_enabled_once();
    one_command();
}
