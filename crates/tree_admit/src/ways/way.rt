//! The next node on the way to another.
ghost use Rattle.prefix_tree.specs.Nodes.{IsParent};
ghost use Rattle.floor_laws.specs.admission.admission_core.States.{IsAbove, ActivityIsOver};

use effect_tree::Shape;

/// The node right below `node` on the way to `end`, which lies below it. It takes no memory.
pub fn next_toward(shape: &Shape, node: u32, end: u32) -> u32
    requires { ActivityIsOver shape.now node end }
    ensures next { IsParent shape.now node result }
    ensures above { IsAbove shape.now result end }
{
    let _count = shape.nodes();
    let mut at = end;
    while let Some(above) = shape.parent(at) {
        if above == node {
            return at;
        }
        at = above;
    }
    at
}
