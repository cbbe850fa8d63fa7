//! The nodes of a tree: how many there are, which of them lie right above and below one another, and how one is added.
ghost use Rattle.std.specs.Prelude.{◌≡◌, ◌<◌, ◌≤◌, ◌+◌, ◌-◌, ◌^◌, ◌↔◌, [], ◌∷◌, ◌++◌, length, IfSome, IsNone, IfOk, OnOk, MatchOption};
ghost use Rattle.prefix_tree.specs.Nodes.{path_of, IsNode, IsParent, IsTreeOfPaths};
ghost use Rattle.prefix_tree.specs.Growth.{Grows};

use crate::part::Part;
use crate::step::Step;
use std::alloc::Global;
use std::collections::HashMap;
use std::collections::hash_map::Entry;
use std::marker::Model;
use twe_base::Memory;

/// A tree of paths, whose nodes are numbered from 0, which is the root. Contracts see it as the list of the nodes'
/// paths.
#[derive(Debug, Drop)]
pub struct PrefixTree {
    /// For each node the step that leads to it; the root has none.
    steps: Vec<Option<Step>>,
    /// The node that each step leads to.
    children: HashMap<Step, u32>,
}

impl Model for PrefixTree {
    ghost use Rattle.std.specs.Prelude.{List};
    ghost use Rattle.prefix_tree.specs.declared.part.Part.{Part};
    ghost use Rattle.prefix_tree.specs.inner.Tables.{IsTree, paths};

    ghost Value = { List (List Part) };

    ghost view = { λ tree. paths (record { steps = tree.steps.items; children = tree.children }) };

    ghost invariant = { λ tree. IsTree (record { steps = tree.steps.items; children = tree.children }) };
}

impl PrefixTree {
    /// The tree that has only the root.
    pub fn new(alloc: Global) -> Result<Self, Memory>
        ensures { IfOk result (λ tree. tree ≡ [] ∷ []) }
    {
        Ok(PrefixTree {
            steps: vec![in alloc; None]?,
            children: HashMap::new(alloc),
        })
    }

    /// The number of the root, which is 0.
    pub fn root(&self) -> u32
        ensures number { result ≡ 0 }
        ensures tree { IsTreeOfPaths self.now }
    {
        // The tables are read so that a proof may use what they keep.
        let _steps = &self.steps;
        0
    }

    /// How many nodes there are.
    pub fn len(&self) -> u32
        ensures count { result ≡ length self.now }
        ensures tree { IsTreeOfPaths self.now }
    {
        self.steps.len() as u32
    }

    /// The node right above `n`. Only the root has none.
    pub fn parent(&self, n: u32) -> Option<u32>
        requires { n < length self.now }
        ensures above { IfSome result (λ m. IsParent self.now m n) }
        ensures root { IsNone result ↔ (n ≡ 0) }
    {
        let step = self.steps[n as usize]?;
        Some(step.from)
    }

    /// The node right below `from` whose path ends in `part`, if there is one.
    pub fn child(&self, from: u32, part: Part) -> Option<u32>
        requires { from < length self.now }
        ensures { MatchOption result (¬ IsNode self.now (path_of self.now from ++ part ∷ []))
            (λ n. (n < length self.now) × (path_of self.now n ≡ path_of self.now from ++ part ∷ [])) }
    {
        self.children.get(&Step { from, part }).copied()
    }

    /// Reserves room for so many more nodes, so that the tables need not grow for each of them.
    pub(crate) fn reserve(&mut self, count: u32) -> Result<(), Memory>
        ensures { self.new ≡ self.old }
    {
        self.steps.reserve(count as usize)?;
        self.children.reserve(count as usize)?;
        Ok(())
    }

    /// Returns the node right below `from` whose path ends in `part`, and adds it if it isn't there. It fails if memory
    /// runs out, or if there are too many nodes: for 32 bits to number them, or for the map, which has some two billion
    /// at most.
    pub fn child_or_new(&mut self, from: u32, part: Part) -> Result<u32, Memory>
        requires { from < length self.old }
        ensures there { IfOk result (λ n. n < length self.new) }
        ensures path { IfOk result (λ n. path_of self.new n ≡ path_of self.old from ++ part ∷ []) }
        ensures grows { OnOk result (Grows self.old self.new (λ path. path ≡ path_of self.old from ++ part ∷ [])) }
        ensures one { OnOk result (length self.new ≤ length self.old + 1) }
    {
        let step = Step { from, part };
        match self.children.entry(step)? {
            Entry::Occupied(entry) => Ok(*entry.get()),
            Entry::Vacant(entry) => {
                let number = self.steps.len() as u32;
                if number == u32::MAX {
                    return Err(Memory::of_uncountable(self.steps.as_slice()));
                }
                self.steps.push(Some(step))?;
                entry.insert(number);
                Ok(number)
            }
        }
    }
}
