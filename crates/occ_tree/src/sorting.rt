// Lists of what is below a node, in the order of nodes.
ghost use Rattle.std.specs.Prelude.{◌≡◌, ℕ, length};
ghost use Rattle.std.specs.List.Sorted.{IsPermutation};
ghost use Rattle.occ_tree.specs.Below.{ListsBelow};
ghost use Rattle.occ_tree.specs.Nodes.{FollowRoots};
ghost use Rattle.occ_tree.specs.Standing.{nodes_in, present_rows};
ghost use Rattle.occ_tree.specs.Tokens.{IsInOrder};
ghost use Rattle.occ_tree.specs.Words.{node_cmp};

use crate::nodes::Nodes;

// Sorts numbers by the order of nodes. It takes no memory.
pub(crate) fn sort_nodes(nodes: &Nodes, numbers: &mut Vec<u32>)
    ensures same { IsPermutation numbers.old.items numbers.new.items }
    ensures long { length numbers.new.items ≡ length numbers.old.items }
{
    numbers.sort_unstable_by(|x, y| nodes.rank(*x, *y));
}

// Sorts the numbers of a node and of all below it by the order of nodes, in which each is before
// those below it. It takes no memory.
pub(crate) fn sort_below(nodes: &Nodes, numbers: &mut Vec<u32>)
    requires below { (x : ℕ) × ListsBelow (nodes_in (present_rows nodes.now)) x numbers.old.items }
    requires dates { FollowRoots (nodes_in (present_rows nodes.now)) }
    ensures below { (x : ℕ) → ListsBelow (nodes_in (present_rows nodes.now)) x numbers.old.items → ListsBelow (nodes_in (present_rows nodes.now)) x numbers.new.items }
    ensures in_order { IsInOrder (node_cmp (nodes_in (present_rows nodes.now))) numbers.new.items }
{
    // each node stands where it says
    let _ = nodes.limit();
    numbers.sort_unstable_by(|x, y| nodes.rank(*x, *y));
}
