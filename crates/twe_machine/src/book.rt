//! The places of enabled tasks in the tree of regions.
ghost use Rattle.std.specs.Prelude.{◌≡◌, ◌<◌, ℕ, List, Some, length, slice_get, take_while, IfNone, IfOk, IfSome, OnOk};
ghost use Rattle.region_paths.specs.Filled.{is_solid};
ghost use Rattle.region_paths.specs.declared.elements.Elem.{Elem};
ghost use Rattle.effect_tree.specs.inner.Parts.{part_of};
ghost use Rattle.twe_machine.specs.declared.book.NodeTasks.{NodeTasks};
ghost use Rattle.machine_state.specs.declared.state.TaskStatus.TheVariants.{Made, Enabled};
ghost use Rattle.twe_machine.specs.Books.{BookIsDecided, IsAtOrBelow, IsInWay, IsPlacedIn, NodeIs, NodesAreDecided};
ghost use Rattle.machine_state.specs.Legal.{IsBar};
ghost use Rattle.twe_machine.specs.Queues.{IsDecided, IsNoBar, IsQueued};
ghost use Rattle.machine_state.specs.Rows.{EffectsAreFilled, HasStatus, LinksAgree};
ghost use Rattle.wait_graph.specs.declared.tasks.Link.{Link};
ghost use Rattle.twe_machine.specs.inner.Nodes.{NodesKeep, entries_of};

use crate::queue::Queue;
use machine_state::State;
use prefix_tree::{Part, PrefixTree};
use region_paths::Elem;
use std::alloc::Global;
use twe_base::{List, Memory};

/// The tasks at a node.
#[derive(Debug, Drop)]
pub struct NodeTasks {
    /// Those with an effect that is placed here.
    pub here: Queue,
    /// Those with an effect that is placed below.
    pub below: Queue,
}

/// For each place in the tree of regions the enabled tasks with an effect there. The place of an effect is the solid prefix
/// of its path: the elements before the first wildcard. There is a node for each place at which or below which an effect was
/// entered.
#[derive(Debug, Drop)]
pub struct TaskBook {
    /// Where it gets its memory.
    pub alloc: Global,
    /// The places.
    pub tree: PrefixTree,
    /// The tasks at each of the first places.
    pub nodes: List<NodeTasks>,
}

impl TaskBook {
    /// No tasks.
    pub(crate) fn new(alloc: Global) -> Result<Self, Memory>
        ensures { IfOk result (λ book. (links : List Link) → BookIsDecided links book) }
    {
        Ok(TaskBook {
            alloc,
            tree: PrefixTree::new(alloc)?,
            nodes: List::new(alloc),
        })
    }

    /// Enters an effect of an enabled task, of whose path these are the elements before the star.
    pub(crate) fn add(&mut self, st: &State, elems: &[Elem], t: u32) -> Result<(), Memory>
        requires enabled { HasStatus st.now t Enabled }
        requires decided { BookIsDecided st.now.links self.old }
        ensures added { OnOk result (IsPlacedIn self.new t (take_while is_solid elems.now)) }
        ensures kept { OnOk result ((s : ℕ) (front : List Elem)
            → HasStatus st.now s Enabled → IsPlacedIn self.old s front → IsPlacedIn self.new s front) }
        ensures decided { OnOk result (BookIsDecided st.now.links self.new) }
    {
        let mut at = self.tree.root();
        for elem in elems {
            let Some(part) = part(*elem) else {
                push_at(self.alloc, &mut self.nodes, st, at, true, t)?;
                return Ok(());
            };
            push_at(self.alloc, &mut self.nodes, st, at, false, t)?;
            at = self.tree.child_or_new(at, part)?;
        }
        push_at(self.alloc, &mut self.nodes, st, at, true, t)?;
        Ok(())
    }

    /// Takes tasks out that are over, at the places on the way to an effect of whose path these are the elements before the
    /// star. It takes no memory.
    pub(crate) fn drop_over(&mut self, st: &State, elems: &[Elem])
        ensures kept { (s : ℕ) (front : List Elem) → HasStatus st.now s Enabled → IsPlacedIn self.old s front
            → IsPlacedIn self.new s front }
        ensures decided { BookIsDecided st.now.links self.old → BookIsDecided st.now.links self.new }
    {
        let mut at = self.tree.root();
        for elem in elems {
            drop_at(&mut self.nodes, st, at);
            let Some(next) = self.next(at, *elem) else {
                return;
            };
            at = next;
        }
        drop_at(&mut self.nodes, st, at);
    }

    /// The node right below one by an element, if there is one.
    fn next(&self, at: u32, elem: Elem) -> Option<u32> {
        if at >= self.tree.len() {
            return None;
        }
        self.tree.child(at, part(elem)?)
    }

    /// Some bar to the admission of `t` among the tasks that are in the way of an effect, if there is one. These are the
    /// elements of its path before the star, if there is a star. It looks at the places on the way there, and below if the
    /// path has a wildcard. It takes no memory.
    pub(crate) fn bar(&self, st: &State, elems: &[Elem], star: bool, t: u32) -> Option<u32>
        requires made { HasStatus st.now t Made }
        requires agree { LinksAgree st.now }
        requires filled { EffectsAreFilled st.now }
        requires decided { BookIsDecided st.now.links self.now }
        ensures some { IfSome result (λ s. IsBar st.now s t) }
        ensures none { IfNone result ((s : ℕ) (front : List Elem)
            → IsPlacedIn self.now s front → IsInWay front elems.now star → IsNoBar st.now t s) }
    {
        let mut at = self.tree.root();
        for elem in elems {
            let Some(part) = part(*elem) else {
                return self.bar_at_or_below(st, at, t);
            };
            if let Some(s) = self.bar_at(st, at, t) {
                return Some(s);
            }
            let Some(next) = self.tree.child(at, part) else {
                return None;
            };
            at = next;
        }
        if star {
            self.bar_at_or_below(st, at, t)
        } else {
            self.bar_at(st, at, t)
        }
    }

    /// Some bar to the admission of `t` among the tasks that are placed at a node.
    fn bar_at(&self, st: &State, at: u32, t: u32) -> Option<u32>
        requires made { HasStatus st.now t Made }
        requires agree { LinksAgree st.now }
        requires filled { EffectsAreFilled st.now }
        requires decided { BookIsDecided st.now.links self.now }
        ensures some { IfSome result (λ s. IsBar st.now s t) }
        ensures none { IfNone result ((s : ℕ) (node : NodeTasks)
            → slice_get self.now.nodes at ≡ Some node → IsQueued node.here.entries s → IsNoBar st.now t s) }
    {
        let node = self.nodes.get(at as usize)?;
        node.here.bar(st, t)
    }

    /// Some bar to the admission of `t` among the tasks that are placed at a node or below it.
    fn bar_at_or_below(&self, st: &State, at: u32, t: u32) -> Option<u32>
        requires made { HasStatus st.now t Made }
        requires agree { LinksAgree st.now }
        requires filled { EffectsAreFilled st.now }
        requires decided { BookIsDecided st.now.links self.now }
        ensures some { IfSome result (λ s. IsBar st.now s t) }
        ensures none { IfNone result ((s : ℕ) (node : NodeTasks)
            → slice_get self.now.nodes at ≡ Some node → IsAtOrBelow s node → IsNoBar st.now t s) }
    {
        let node = self.nodes.get(at as usize)?;
        match node.here.bar(st, t) {
            Some(s) => Some(s),
            None => node.below.bar(st, t),
        }
    }
}

/// Enters a task at a node: among those that are placed there, or else among those that are placed below.
fn push_at(
    alloc: Global,
    nodes: &mut List<NodeTasks>,
    st: &State,
    at: u32,
    here: bool,
    t: u32,
) -> Result<(), Memory>
    requires { NodesAreDecided st.now.links nodes.old }
    ensures added { OnOk result (NodeIs nodes.new at (λ node. IsQueued (entries_of here node) t)) }
    ensures kept { OnOk result (NodesKeep st.now nodes.old nodes.new) }
    ensures decided { OnOk result (NodesAreDecided st.now.links nodes.new) }
{
    reach(alloc, nodes, at)?;
    let node = nodes.item_mut(at as usize);
    if here {
        node.here.push(alloc, st, t)?;
        return Ok(());
    }
    node.below.push(alloc, st, t)?;
    Ok(())
}

/// Makes room for the tasks at a node.
fn reach(alloc: Global, nodes: &mut List<NodeTasks>, at: u32) -> Result<(), Memory>
    ensures there { OnOk result (at < length nodes.new) }
    ensures kept { OnOk result ((n : ℕ) (node : NodeTasks) → slice_get nodes.old n ≡ Some node
        → slice_get nodes.new n ≡ Some node) }
    ensures decided { OnOk result ((links : List Link) → NodesAreDecided links nodes.old → NodesAreDecided links nodes.new) }
{
    'reaching: while nodes.len() <= at as usize {
        nodes.push(empty_node(alloc))?;
    }
    Ok(())
}

/// A node without tasks. It takes no memory.
fn empty_node(alloc: Global) -> NodeTasks
    ensures { (links : List Link) → IsDecided links result.here.entries × IsDecided links result.below.entries }
{
    NodeTasks {
        here: Queue::new(alloc),
        below: Queue::new(alloc),
    }
}

/// Takes tasks out that are over, at a node.
fn drop_at(nodes: &mut List<NodeTasks>, st: &State, at: u32)
    ensures kept { NodesKeep st.now nodes.old nodes.new }
    ensures decided { NodesAreDecided st.now.links nodes.old → NodesAreDecided st.now.links nodes.new }
{
    if nodes.len() <= at as usize {
        return;
    }
    let node = nodes.item_mut(at as usize);
    node.here.drop_over(st);
    node.below.drop_over(st);
}

/// The part of a place that an element is, or `None` for a variable or a wildcard.
fn part(elem: Elem) -> Option<Part>
    ensures { result ≡ part_of elem }
{
    match elem {
        Elem::Name(n) => Some(Part::Name(n)),
        Elem::Index(i) => Some(Part::Index(i64::from(i))),
        Elem::Var(_) => None,
        Elem::AnyIndex => None,
    }
}
