//! Laws of the numbers of tasks: nothing that a task does depends on them.
ghost use Rattle.std.specs.Prelude.{◌≡◌, ℕ, ℤ, Bool, List};
ghost use Rattle.twe_base.specs.declared.place.Place.{Place};
ghost use Rattle.effect_sets.specs.declared.effects.Summary.{Summary};
ghost use Rattle.twe_program.specs.Program.{Program};
ghost use Rattle.seg_meaning.specs.declared.frame.Frame.{Frame};
ghost use Rattle.seg_meaning.specs.declared.stop.Stop.{Stop};
ghost use Rattle.seg_meaning.specs.declared.stop.Stop.TheVariants.{Done, Joins, Make};
ghost use Rattle.seg_meaning.specs.Access.{Agrees};
ghost use Rattle.seg_meaning.specs.Entry.{entry_frame};
ghost use Rattle.seg_meaning.specs.Giving.{given};
ghost use Rattle.seg_meaning.specs.Segment.{segment};
ghost use Rattle.machine_state.specs.segment_laws.Ready.{IsReady};
ghost use Rattle.machine_state.specs.Moves.{frame_without_prints, making_frame};
ghost use Rattle.determinism_laws.specs.numbering.SameAccesses.{DoesTheSame};
ghost use Rattle.determinism_laws.specs.numbering.Renumbering.{SameNumbersIn, Numbering, SameButNumbers, TellsApart, stop_renumbered, stopped_renumbered};

/// A segment does the same whatever the numbers of the tasks are. Of two frames that are the same but for these numbers,
/// the segments over the same cells leave frames that are the same but for them. They make the same accesses, with the
/// same values, print the same numbers and stop at the same place, with the new number of a task that they wait for.
pub fn segments_do_not_see_numbers()
    ensures { (p : Program) (to : Numbering) (frame other : Frame) (cells : List ℤ) → IsReady p frame
        → SameButNumbers to frame other → segment p other cells ≡ stopped_renumbered to (segment p frame cells) }
{}

/// Frames that are the same but for the numbers of the tasks stay so before their first segments, when they take a value,
/// when their prints are taken out, and when a future stands for a new task. They are the same too by each other
/// numbering that agrees on the tasks of the frame.
pub fn frames_keep_their_numbers()
    ensures entry { (p : Program) (to : Numbering) (task number fuel : ℕ) (args : List ℤ)
        → SameButNumbers to (record (entry_frame p task args) { task = number; fuel = fuel })
        (record (entry_frame p task args) { task = to number; fuel = fuel }) }
    ensures given { (to : Numbering) (frame other : Frame) (value : ℤ) → TellsApart to frame → SameButNumbers to frame other
        → SameButNumbers to (given frame value) (given other value) }
    ensures printed { (to : Numbering) (frame other : Frame) → SameButNumbers to frame other
        → SameButNumbers to (frame_without_prints frame) (frame_without_prints other) }
    ensures made { (to : Numbering) (frame other : Frame) (future child : ℕ) (spawned : Bool) → SameButNumbers to frame other
        → SameButNumbers to (making_frame future spawned child frame) (making_frame future spawned (to child) other) }
    ensures agree { (to renumber : Numbering) (frame other : Frame) → SameNumbersIn to renumber frame
        → SameButNumbers to frame other → SameButNumbers renumber frame other }
{}

/// A segment does the same whatever the numbers of the tasks and the cells that it does not read are. Take two frames that
/// are the same but for the numbers, the segment of the second over some cells, and other cells with the values that it
/// reads. Over these the segment of the first makes the same accesses, and leaves a frame and a stop that are the same but
/// for the numbers. A stop is renumbered to the end of the task, to a join or to a make only if it is one.
pub fn segments_do_the_same_on_what_they_read()
    ensures segment { (p : Program) (to : Numbering) (frame other : Frame) (cells others : List ℤ) → IsReady p frame
        → SameButNumbers to frame other
        → Agrees others (segment p other cells).accesses → DoesTheSame p to frame other cells others }
    ensures done { (to : Numbering) (stop : Stop) (value : ℤ) → stop_renumbered to stop ≡ Done value
        → stop ≡ Done value }
    ensures joins { (to : Numbering) (stop : Stop) (on : ℕ) → stop_renumbered to stop ≡ Joins on
        → (child : ℕ) × (stop ≡ Joins child) × (to child ≡ on) }
    ensures makes { (to : Numbering) (stop : Stop)
        (child : Frame) (args : List ℤ) (effects : Summary) (spawned : Bool) (future : ℕ) (place : Place)
        → stop_renumbered to stop ≡ Make child args effects spawned future place
        → stop ≡ Make child args effects spawned future place }
{}
