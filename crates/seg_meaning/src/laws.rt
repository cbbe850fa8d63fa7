//! Laws of the meaning of a segment.
ghost use Rattle.std.specs.Prelude.{◌≡◌, ◌<◌, ℕ, ℤ, List, length};
ghost use Rattle.twe_program.specs.Program.{Program, cell_count};
ghost use Rattle.twe_program.specs.WellFormed.{IsWellFormed};
ghost use Rattle.twe_program.specs.Statement.{Statement};
ghost use Rattle.seg_meaning.specs.declared.frame.Frame.{Frame};
ghost use Rattle.seg_meaning.specs.declared.stop.Stop.{Stop};
ghost use Rattle.seg_meaning.specs.Access.{Agrees, after};
ghost use Rattle.seg_meaning.specs.Meaning.{done_within};
ghost use Rattle.seg_meaning.specs.Plain.{ListFollows, list_ways};
ghost use Rattle.seg_meaning.specs.Segment.{AgreesWithItself, CarriesOut, HasRoomToSpawn, IsSegment, MayCarryOut, segment};
ghost use Rattle.seg_meaning.specs.Store.{Store};

/// A statement does the same under each bound on turns and calls that is above the fuel that is left.
pub fn larger_bounds_change_nothing()
    ensures { (p : Program) (n m : ℕ) (stmt : Statement) (s : Store) → s.fuel < n → s.fuel < m
        → done_within p n stmt s ≡ done_within p m stmt s }
{}

/// Any execution of a segment over a plain list of cells has the frame, the cells and the stop of the segment over that
/// list.
pub fn over_a_list_it_is_the_segment()
    ensures { (p : Program) (frame new_frame : Frame) (cells new_cells : List ℤ) (stop : Stop)
        → CarriesOut p ListFollows frame cells stop new_frame new_cells
        → IsSegment p frame cells stop new_frame new_cells }
{}

/// A segment of a well-formed program accesses only cells of the program, whatever their values are. So it can be executed
/// over any list that has as many cells as the program.
pub fn accesses_are_of_the_program()
    ensures { (p : Program) (frame : Frame) (cells : List ℤ)
        → IsWellFormed p → length cells ≡ cell_count p → MayCarryOut p list_ways frame cells }
{}

/// A segment is determined by what it reads. Its accesses agree with the cells that it began with, and lead to the cells
/// that it leaves. Over any other list of cells that agrees with its accesses, the segment has the same frame, the same
/// stop and the same accesses, and its cells are that list after these accesses.
pub fn a_segment_is_determined_by_its_reads()
    ensures own { (p : Program) (frame : Frame) (cells : List ℤ) → AgreesWithItself cells (segment p frame cells) }
    ensures other { (p : Program) (frame : Frame) (cells other : List ℤ) → Agrees other (segment p frame cells).accesses
        → segment p frame other ≡ record (segment p frame cells) { cells = after other (segment p frame cells).accesses } }
{}

/// After a segment that stops at a make that spawns, the frame has room for one more child.
pub fn a_spawn_has_room()
    ensures { (p : Program) (frame : Frame) (cells : List ℤ)
        → HasRoomToSpawn (segment p frame cells).stop (segment p frame cells).frame }
{}
