//! The steps on records. Placing one is a store to the decider word of its task. The others are stores to the lock word of a node
//! that the seat has locked, and leave the word as it was.
ghost use Rattle.std.specs.Prelude.{◌≡◌, ◌<◌, ℕ, List, Some};
ghost use Rattle.atomic_table.specs.Table.{Allows, step};
ghost use mathlib.Core.Option.{none};
ghost use Rattle.region_paths.specs.declared.elements.Elem.{Elem};
ghost use Rattle.twe_base.specs.Limits.{Bounds};
ghost use Rattle.twe_program.specs.Program.{Program};
ghost use Rattle.floor_laws.specs.admission.admission_core.States.{Activity, Record};
ghost use Rattle.floor_laws.specs.rule.nodes.FactSteps.{FindsClear};
ghost use Rattle.floor_laws.specs.rule.nodes.RecordSteps.{IsWithout};
ghost use Rattle.floor_laws.specs.declared.table.nodes.slot.TreeSlot.{TreeSlot};
ghost use Rattle.floor_laws.specs.declared.table.nodes.view.TreeView.{TreeView};
ghost use Rattle.floor_laws.specs.table.nodes.Holds.{TreeKeeps};
ghost use Rattle.floor_laws.specs.table.nodes.Deciders.{LooksUpDecider, MayDecide};
ghost use Rattle.floor_laws.specs.table.nodes.Layout.{decider_place, lock_place, taken_lock, tree_slot_count};
ghost use Rattle.floor_laws.specs.table.nodes.RecordSeats.{MarksClear, MarksPlaced, MarksRemoved, MayMark, MayUnmark, record_about, record_task};
ghost use Rattle.floor_laws.specs.table.nodes.Seats.{tree_seen, turns_seen};
ghost use Rattle.floor_laws.specs.table.nodes.Without.{without_record};

/// A seat at its place may mark the record that it went for as placed, by a store to the decider word of the record's task. It
/// may say there that the task decides at its place, if it knows that the task of each record there waits for it.
pub fn a_record_may_be_marked_placed()
    ensures { (nodes : List (List Elem)) (p : Program) (lim : Bounds) (id : ℕ) (v : TreeView) (mine : List (ℕ × TreeSlot))
        (a : Activity) (content : List Record) (said : ℕ) → record_task a.purpose < lim.tasks
        → MayDecide v (record_task a.purpose) a.place content said → MayMark nodes v a content
        → Allows (TreeKeeps nodes p lim) (tree_slot_count nodes lim) id (v, mine) (decider_place p lim (record_task a.purpose))
        (λ x. said)
        (λ x. MarksPlaced nodes p lim
        (step (tree_slot_count nodes lim) (decider_place p lim (record_task a.purpose)) said 0 none) (v, mine) said) }
{}

/// A record of a task whose number is none of the run's is marked as placed by a store to the lock word of the place.
pub fn a_record_beyond_the_tasks_may_be_marked_placed()
    ensures { (nodes : List (List Elem)) (p : Program) (lim : Bounds) (id : ℕ) (v : TreeView) (mine : List (ℕ × TreeSlot))
        (a : Activity) (content : List Record) → (¬ (record_task a.purpose < lim.tasks)) → MayMark nodes v a content
        → Allows (TreeKeeps nodes p lim) (tree_slot_count nodes lim) id (v, mine) (lock_place p lim a.place)
        (λ x. taken_lock v.floor.worker)
        (λ x. MarksPlaced nodes p lim
        (step (tree_slot_count nodes lim) (lock_place p lim a.place) (taken_lock v.floor.worker) 0 none)
        (v, mine) (taken_lock v.floor.worker)) }
{}

/// A seat at its place may mark the record that it went for as removed. It knows from then on that the record does not stand.
pub fn a_record_may_be_marked_removed()
    ensures { (nodes : List (List Elem)) (p : Program) (lim : Bounds) (id : ℕ) (v : TreeView) (mine : List (ℕ × TreeSlot))
        (a : Activity) (content : List Record) → MayUnmark v a content
        → Allows (TreeKeeps nodes p lim) (tree_slot_count nodes lim) id (v, mine) (lock_place p lim a.place)
        (λ x. taken_lock v.floor.worker)
        (λ x. MarksRemoved p lim (step (tree_slot_count nodes lim) (lock_place p lim a.place) (taken_lock v.floor.worker) 0 none)
        (v, mine) (taken_lock v.floor.worker)) }
{}

/// A seat that has locked its place and does not find the record there that it went for may keep in mind that it does not stand.
pub fn a_node_may_be_marked_clear()
    ensures { (nodes : List (List Elem)) (p : Program) (lim : Bounds) (id : ℕ) (v : TreeView) (mine : List (ℕ × TreeSlot))
        (a : Activity) → v.activity ≡ Some a → FindsClear (turns_seen v) (tree_seen v) 0 (record_about a)
        → Allows (TreeKeeps nodes p lim) (tree_slot_count nodes lim) id (v, mine) (lock_place p lim a.place)
        (λ x. taken_lock v.floor.worker)
        (λ x. MarksClear p lim (step (tree_slot_count nodes lim) (lock_place p lim a.place) (taken_lock v.floor.worker) 0 none)
        (v, mine) (taken_lock v.floor.worker)) }
{}

/// A seat may look at the decider word of a task, by a load. If the word says that the task decides at a node of which the seat
/// has the content, the seat knows of the tasks of the records before that they wait for it.
pub fn a_decider_may_be_looked_up()
    ensures { (nodes : List (List Elem)) (p : Program) (lim : Bounds) (id t : ℕ) (v : TreeView) (mine : List (ℕ × TreeSlot))
        → t < lim.tasks
        → Allows (TreeKeeps nodes p lim) (tree_slot_count nodes lim) id (v, mine) (decider_place p lim t) (λ x. x)
        (LooksUpDecider p lim (step (tree_slot_count nodes lim) (decider_place p lim t) 0 0 none) (v, mine)) }
{}

/// What `without` leaves of a list are the other records.
pub fn the_others_are_left()
    ensures { (r : Record) (l : List Record) → IsWithout r l (without_record r l) }
{}
