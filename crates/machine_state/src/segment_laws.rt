//! Laws of segments: each follows a control path of its body up to its next task operation.
//!
//! `seg_exec` defines the meaning of a segment, and `cover_flow` defines control paths. The laws here connect the two: a
//! fact about every control path of a body holds for every run of the body.
ghost use Rattle.std.specs.Prelude.{◌≡◌, ℕ, ℤ, Bool, true, false, List, Option, Some, slice_get, slice_set};
ghost use Rattle.twe_base.specs.declared.place.Place.{Place};
ghost use Rattle.effect_sets.specs.declared.effects.Summary.{Summary};
ghost use Rattle.twe_program.specs.Program.{Program};
ghost use Rattle.twe_program.specs.WellFormed.{IsWellFormed};
ghost use Rattle.cover_flow.specs.ControlPath.{Path};
ghost use Rattle.seg_meaning.specs.declared.frame.Frame.{Frame};
ghost use Rattle.seg_meaning.specs.declared.frame.Next.TheVariants.{Ended, Get, Join};
ghost use Rattle.seg_meaning.specs.declared.stop.Stop.TheVariants.{Make, Waits};
ghost use Rattle.seg_meaning.specs.Children.{Children};
ghost use Rattle.seg_meaning.specs.Entry.{entry_frame};
ghost use Rattle.seg_meaning.specs.Giving.{given};
ghost use Rattle.seg_meaning.specs.Meaning.{body_of};
ghost use Rattle.seg_meaning.specs.Segment.{segment};
ghost use Rattle.machine_state.specs.segment_laws.Keeps.{SegmentKeeps};
ghost use Rattle.machine_state.specs.segment_laws.Left.{left_of};
ghost use Rattle.machine_state.specs.segment_laws.Operations.{ComesToMake, ComesToWait};
ghost use Rattle.machine_state.specs.segment_laws.Ready.{AwaitsMade, IsReady, MakesDeclared};

/// A segment keeps the number, the declaration, the futures and the unjoined children of its frame, and the number of
/// cells. It has room for one more child if it stops at a make that spawns. It never adds fuel, and takes at least a unit
/// if it stops at a task operation. What the task does next follows from how the segment stopped, and conversely.
pub fn segments_keep()
    ensures { (p : Program) (frame : Frame) (cells : List ℤ) → SegmentKeeps frame cells (segment p frame cells) }
{}

/// A segment follows a control path, whatever the values of the cells are. The path leads from the rest of the body
/// before the segment to the task operation at which it stops, and passes no other task operation. After that operation
/// the rest of the body is the one after the segment. Before a task's first segment the rest is its whole body, and
/// taking an awaited value does not change the rest.
pub fn segments_follow_control_paths()
    ensures entry { (p : Program) (task : ℕ) (args : List ℤ)
        → left_of p (entry_frame p task args) ≡ body_of (slice_get p.tasks task) }
    ensures given { (p : Program) (frame : Frame) (value : ℤ) → left_of p (given frame value) ≡ left_of p frame }
    ensures makes { (p : Program) (frame : Frame) (cells : List ℤ) (path : Path)
        → (child : Frame) (args : List ℤ) (effects : Summary) (spawned : Bool) (future : ℕ) (place : Place)
        → (segment p frame cells).stop ≡ Make child args effects spawned future place
        → ComesToMake p frame (segment p frame cells).frame path child args effects spawned future place }
    ensures gets { (p : Program) (frame : Frame) (cells : List ℤ) (path : Path) (on : ℕ) (into : Option ℕ)
        → (segment p frame cells).frame.next ≡ Get on into
        → ComesToWait p frame (segment p frame cells).frame path false on into }
    ensures joins { (p : Program) (frame : Frame) (cells : List ℤ) (path : Path) (on : ℕ) (into : Option ℕ)
        → (segment p frame cells).frame.next ≡ Join on into
        → ComesToWait p frame (segment p frame cells).frame path true on into }
{}

/// A task of a well-formed program waits only for tasks that it has made. A frame is ready if each wait in the rest of its
/// body is for a future that stands for a task by then.
///
/// A frame is ready before its first segment, and stays ready when it takes a value, when its body ends, and after a
/// segment. After a segment that makes a task it is ready once the future stands for the new task, whatever the number
/// of that task is. A task is made as the body declares it. A `join` waits for a task that was spawned, and a `getValue`
/// for one that was not.
pub fn waits_are_of_made_tasks()
    ensures entry { (p : Program) → IsWellFormed p → (task : ℕ) (args : List ℤ) → IsReady p (entry_frame p task args) }
    ensures same { (p : Program) (frame other : Frame)
        → other.decl ≡ frame.decl → other.body ≡ frame.body → other.futures ≡ frame.futures
        → IsReady p frame → IsReady p other }
    ensures ended { (p : Program) (frame : Frame) → IsReady p frame → IsReady p (record frame { body = None; next = Ended }) }
    ensures given { (p : Program) (frame : Frame) (value : ℤ) → IsReady p frame → IsReady p (given frame value) }
    ensures waits { (p : Program) (frame : Frame) (cells : List ℤ) (on : ℕ) → IsReady p frame
        → (segment p frame cells).stop ≡ Waits on → AwaitsMade p frame false on }
    ensures gets { (p : Program) (frame : Frame) (cells : List ℤ) (on : ℕ) (into : Option ℕ) → IsReady p frame
        → (segment p frame cells).frame.next ≡ Get on into → AwaitsMade p frame false on }
    ensures joins { (p : Program) (frame : Frame) (cells : List ℤ) (on : ℕ) (into : Option ℕ) → IsReady p frame
        → (segment p frame cells).frame.next ≡ Join on into → AwaitsMade p frame true on }
    ensures later { (p : Program) (frame : Frame) (cells : List ℤ) → IsReady p frame
        → ((child : Frame) (args : List ℤ) (effects : Summary) (spawned : Bool) (future : ℕ) (place : Place)
        → ¬ ((segment p frame cells).stop ≡ Make child args effects spawned future place))
        → IsReady p (segment p frame cells).frame }
    ensures declared { (p : Program) (frame : Frame) (cells : List ℤ) → IsReady p frame
        → (child : Frame) (args : List ℤ) (effects : Summary) (spawned : Bool) (future : ℕ) (place : Place)
        → (segment p frame cells).stop ≡ Make child args effects spawned future place
        → MakesDeclared p frame child args effects spawned future }
    ensures made { (p : Program) (frame : Frame) (cells : List ℤ) → IsReady p frame
        → (child : Frame) (args : List ℤ) (effects : Summary) (spawned : Bool) (future : ℕ) (place : Place)
        → (segment p frame cells).stop ≡ Make child args effects spawned future place
        → (task : ℕ) (out : Children)
        → IsReady p (record (segment p frame cells).frame {
          futures = slice_set (segment p frame cells).frame.futures future (Some task);
          out = out;
        }) }
{}
