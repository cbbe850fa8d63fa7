//! The order of the slots that a stand has out.
ghost use Rattle.std.specs.Prelude.{◌≡◌, ℕ, List, ◌∷◌, ◌++◌, [], length};
ghost use Rattle.floor_laws.specs.declared.table.nodes.slot.TreeSlot as slots;

use crate::floor::Stand;

/// Puts the latest slots that the stand has out behind the others, so many of them.
pub(crate) fn turn_slots(stand: &mut Stand, count: usize)
    ensures turned { (front back : List (ℕ × slots.TreeSlot)) → stand.old.me.1 ≡ front ++ back → count ≡ length front
        → stand.new.me ≡ (stand.old.me.0, back ++ front) }
    ensures same { (stand.new.table_id ≡ stand.old.table_id) × (stand.new.id ≡ stand.old.id) }
{
    for i in 0..count {
        stand.turn();
    }
}
