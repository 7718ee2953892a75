// The way to a node.
ghost use Rattle.std.specs.Prelude.{IfOk};
ghost use Rattle.spots.specs.Forest.{IsLive};
ghost use Rattle.occ_tree.specs.Places.{forest};
ghost use Rattle.supports.specs.Under.{IsWay};

use occ_tree::Tree;
use std::alloc::Global;
use tmm_model::NoMemory;

// The node itself and all that stand above it, up to its root.
pub(crate) fn way_to(alloc: Global, tree: &Tree, x: u32) -> Result<Vec<u32>, NoMemory>
    requires { IsLive (forest tree.now) x }
    ensures { IfOk result (λ way. IsWay (forest tree.now) x way.items) }
{
    let mut way = Vec::new(alloc);
    let mut next = Some(x);
    while let Some(y) = next {
        way.reserve(1)?;
        way.push_reserved(y);
        next = tree.row(y).parent;
    }
    Ok(way)
}
