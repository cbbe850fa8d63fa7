//! For each node of a tree the nodes right below it.
ghost use Rattle.std.specs.Prelude.{◌≡◌, ◌<◌, ◌+◌, [], length, replicate, IfOk, OnOk};
ghost use Rattle.prefix_tree.specs.Nodes.{IsTreeOfPaths};
ghost use Rattle.effect_tree.specs.inner.Children.{items_of, with_pushed, HasChildrenBelow, HasChildren};

use prefix_tree::PrefixTree;
use std::alloc::Global;
use twe_base::Memory;

/// `count` lists without numbers.
fn empty_lists(alloc: Global, count: u32) -> Result<Vec<Vec<u32>>, Memory>
    ensures { IfOk result (λ lists. items_of lists ≡ replicate count []) }
{
    let mut lists = Vec::with_capacity(alloc, count as usize)?;
    for _ in 0..count {
        lists.push(Vec::new(alloc))?;
    }
    Ok(lists)
}

/// Puts a number after the others of list `at`.
fn push_at(lists: &mut Vec<Vec<u32>>, at: u32, number: u32) -> Result<(), Memory>
    requires { at < length lists.old.items }
    ensures { OnOk result (items_of lists.new ≡ with_pushed (items_of lists.old) at number) }
{
    lists[at as usize].push(number)?;
    Ok(())
}

/// Puts node `n`, which is not the root, into the list of the node right above it.
fn put_below(tree: &PrefixTree, lists: &mut Vec<Vec<u32>>, n: u32) -> Result<(), Memory>
    requires tree { IsTreeOfPaths tree.now }
    requires there { n < length tree.now }
    requires inner { 0 < n }
    requires before { HasChildrenBelow tree.now (items_of lists.old) n }
    ensures { OnOk result (HasChildrenBelow tree.now (items_of lists.new) (n + 1)) }
{
    let Some(above) = tree.parent(n) else {
        return Ok(());
    };
    push_at(lists, above, n)
}

/// For each node of a tree the nodes right below it, in increasing order.
pub(crate) fn children(alloc: Global, tree: &PrefixTree) -> Result<Vec<Vec<u32>>, Memory>
    ensures tree { IsTreeOfPaths tree.now }
    ensures children { IfOk result (λ lists. HasChildren tree.now (items_of lists)) }
{
    let count = tree.len();
    let mut lists = empty_lists(alloc, count)?;
    for n in 1..count {
        put_below(tree, &mut lists, n)?;
    }
    Ok(lists)
}
