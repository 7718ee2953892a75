// Nodes in the order of their occurrences.
ghost use Rattle.std.specs.Prelude.{◌≡◌, nat_eq, IfOk};
ghost use Rattle.std.specs.List.{All, IsDistinct};
ghost use Rattle.std.specs.List.Sorted.{IsPermutation, IsStrictlySortedBy};
ghost use Rattle.spots.specs.Forest.{IsLive};
ghost use Rattle.spots.specs.Spots.{node_cmp};
ghost use Rattle.occ_tree.specs.OfLists.{IsTreeIn};
ghost use Rattle.occ_tree.specs.Places.{forest};
ghost use Rattle.occ_tree.specs.Ranks.{IsRanked, nodes_of};

use crate::order::Order;
use std::alloc::Global;
use tmm_model::NoMemory;

/// A node with its earliest date.
#[derive(Clone, Copy, PartialEq, Eq, Debug)]
pub struct Ranked {
    /// Its earliest date, in whole time units.
    pub early: i64,
    /// Its number.
    pub node: u32,
}

/// The nodes in the order of their occurrences, by their earliest dates and then by their words.
/// Without memory it answers that.
pub fn in_order(alloc: Global, order: &Order<'_>, nodes: &[u32]) -> Result<Vec<Ranked>, NoMemory>
    requires dates { IsTreeIn order.now.net.now.present order.now.tree.now }
    requires live { All (IsLive (forest order.now.tree.now)) nodes.now }
    requires once { IsDistinct nat_eq nodes.now }
    ensures same { IfOk result (λ ranked. IsPermutation nodes.now (nodes_of ranked.items)) }
    ensures in_order { IfOk result (λ ranked. IsStrictlySortedBy (node_cmp order.now.net.now.present (forest order.now.tree.now)) (nodes_of ranked.items)) }
    ensures ranked { IfOk result (λ ranked. All (IsRanked order.now.net.now.present (forest order.now.tree.now)) ranked.items) }
{
    let mut ranked = ranks(alloc, order, nodes)?;
    ranked.sort_unstable_by(|p, q| order.tree.rank(p.node, q.node));
    Ok(ranked)
}

// The nodes with their earliest dates.
fn ranks(alloc: Global, order: &Order<'_>, nodes: &[u32]) -> Result<Vec<Ranked>, NoMemory>
    requires dates { IsTreeIn order.now.net.now.present order.now.tree.now }
    requires live { All (IsLive (forest order.now.tree.now)) nodes.now }
    ensures nodes { IfOk result (λ ranked. nodes_of ranked.items ≡ nodes.now) }
    ensures ranked { IfOk result (λ ranked. All (IsRanked order.now.net.now.present (forest order.now.tree.now)) ranked.items) }
{
    let mut ranked = Vec::with_capacity(alloc, nodes.len())?;
    for node in nodes {
        ranked.push_reserved(rank_of(order, *node));
    }
    Ok(ranked)
}

// A node with its earliest date.
fn rank_of(order: &Order<'_>, node: u32) -> Ranked
    requires dates { IsTreeIn order.now.net.now.present order.now.tree.now }
    requires live { IsLive (forest order.now.tree.now) node }
    ensures ranked { IsRanked order.now.net.now.present (forest order.now.tree.now) result }
    ensures node { result.node ≡ node }
{
    Ranked {
        early: order.early(node),
        node,
    }
}
