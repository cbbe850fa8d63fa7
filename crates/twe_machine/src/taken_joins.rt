//! The join that a segment begins with, if its task has waited for a join.
ghost use Rattle.std.specs.Prelude.{◌≡◌, ◌<◌, ◌==◌, length, IfSome};
ghost use Rattle.std.specs.List.{list_any};
ghost use Rattle.wait_graph.specs.Link.{link_of};
ghost use Rattle.machine_state.specs.declared.state.TaskRow.{TaskRow};
ghost use Rattle.machine_state.specs.Moves.{state_after_join, joined_child};
ghost use Rattle.machine_state.specs.Rows.{IsRow};

use machine_state::State;

/// Whether this child is among the children.
fn has_child(children: &[u32], child: u32) -> bool
    ensures { result ≡ list_any (λ c. c == child) children.now }
{
    children.iter().any(|c| *c == child)
}

/// The child that the segment of `t` has joined, if it has joined one: the task that `t` waited for, if that is an
/// unjoined child of `t`.
fn joined_child(st: &State, t: u32) -> Option<u32>
    requires there { t < length st.now.tasks }
    requires linked { length st.now.links ≡ length st.now.tasks }
    ensures value { (row : TaskRow) → IsRow st.now t row → result ≡ joined_child row.out (link_of st.now.links t).waits }
    ensures above { IfSome result (λ child. (t < child) × (child < length st.now.tasks)) }
{
    let _ordered = st.links.task_count();
    let on = st.links.link(t).waits?;
    let row = st.tasks.get(t as usize)?;
    if has_child(row.out.as_slice(), on) {
        Some(on)
    } else {
        None
    }
}

/// Marks the child as joined that the segment of `t` has joined, if it has joined one.
pub(crate) fn take_join(st: &mut State, t: u32)
    requires there { t < length st.old.tasks }
    requires linked { length st.old.links ≡ length st.old.tasks }
    ensures state { (row : TaskRow) → IsRow st.old t row
        → st.new ≡ state_after_join st.old (joined_child row.out (link_of st.old.links t).waits) }
    ensures kept { (row : TaskRow) → IsRow st.old t row → IsRow st.new t row }
    ensures asked { st.new.asked ≡ st.old.asked }
    ensures rows { length st.new.tasks ≡ length st.old.tasks }
    ensures linked { length st.new.links ≡ length st.new.tasks }
{
    let Some(child) = joined_child(st, t) else {
        return;
    };
    st.tasks.item_mut(child as usize).joined = true;
    st.links.set_joined(child);
}
