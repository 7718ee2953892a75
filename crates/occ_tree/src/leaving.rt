// Nodes that leave the tree, and the tokens of their classes.
ghost use Rattle.std.specs.Prelude.{◌≡◌, ℕ, ◌+◌, ◌*◌, ◌<◌, ◌≤◌, [], length, IsSome, IfOk};
ghost use Rattle.undo_lists.specs.Changes.{present, committed};
ghost use Rattle.undo_rows.specs.Tables.{AreListed};
ghost use Rattle.occ_tree.specs.Below.{IsRightBelow, ListsBelow, without_rows};
ghost use Rattle.occ_tree.specs.Edits.{Keeps, Takes};
ghost use Rattle.occ_tree.specs.Nodes.{FollowRoots};
ghost use Rattle.occ_tree.specs.Standing.{nodes_in, present_rows, committed_rows, IsStanding};
ghost use Rattle.occ_tree.specs.Tokens.{IsInOrder, AreTokensBut};
ghost use Rattle.occ_tree.specs.Words.{node_cmp};

use crate::below::list_below;
use crate::nodes::Nodes;
use crate::sorting::sort_below;
use crate::tokens::{Tokens, take_out};
use std::alloc::Global;
use tmm_model::NoMemory;

// The numbers of a node and of all below it in the order of nodes, so that each is before those
// below it, with room to take them out, and the tokens among them. All stays, also where there is
// no memory.
pub(crate) fn room_below(
    alloc: Global,
    nodes: &mut Nodes,
    tokens: &mut Tokens,
    x: u32,
) -> Result<Vec<u32>, NoMemory>
    requires live { IsSome (nodes_in (present_rows nodes.old) x) }
    requires dates { FollowRoots (nodes_in (present_rows nodes.old)) }
    ensures below { IfOk result (λ numbers. ListsBelow (nodes_in (present_rows nodes.old)) x numbers.items) }
    ensures in_order { IfOk result (λ numbers. IsInOrder (node_cmp (nodes_in (present_rows nodes.old))) numbers.items) }
    ensures room { IfOk result (λ numbers. (2 * length numbers.items ≤ nodes.new.rows.spare) × (length numbers.items ≤ tokens.new.spare)) }
    ensures stands { IsStanding nodes.old.rows.places (present_rows nodes.old) }
    ensures listed { AreListed (present_rows nodes.old) }
    ensures keeps { Keeps nodes.old nodes.new }
    ensures present { present tokens.new ≡ present tokens.old }
    ensures committed { committed tokens.new ≡ committed tokens.old }
{
    // each node stands where it says, and on the list of its parent
    let _ = nodes.limit();
    let _ = nodes.first(None);
    let mut numbers = list_below(alloc, nodes, x)?;
    sort_below(nodes, &mut numbers);
    nodes.reserve(alloc, 2 * numbers.len())?;
    tokens.reserve(alloc, 0, 0, numbers.len())?;
    Ok(numbers)
}

// Takes out all these nodes, the last one first: in the order of nodes few tokens of a class are
// behind the one that goes then. It takes no memory.
pub(crate) fn leave_all(nodes: &mut Nodes, tokens: &mut Tokens, numbers: Vec<u32>)
    requires below { (x : ℕ) × ListsBelow (nodes_in (present_rows nodes.old)) x numbers.items }
    requires tokens { AreTokensBut (nodes_in (present_rows nodes.old)) (present tokens.old) [] }
    requires room { (2 * length numbers.items ≤ nodes.old.rows.spare) × (length numbers.items ≤ tokens.old.spare) }
    ensures rows { present_rows nodes.new ≡ without_rows numbers.items (present_rows nodes.old) }
    ensures committed_rows { committed_rows nodes.new ≡ committed_rows nodes.old }
    ensures places { nodes.new.rows.places ≡ nodes.old.rows.places }
    ensures tokens { AreTokensBut (nodes_in (present_rows nodes.new)) (present tokens.new) [] }
    ensures committed { committed tokens.new ≡ committed tokens.old }
{
    let mut left = numbers;
    while let Some(x) = left.pop() {
        leave(nodes, tokens, x);
    }
}

// Takes a node out that has nothing below it, and out of the tokens of its class if it is one. It
// takes no memory.
fn leave(nodes: &mut Nodes, tokens: &mut Tokens, x: u32)
    requires live { IsSome (nodes_in (present_rows nodes.old) x) }
    requires leaf { (y : ℕ) → IsRightBelow (nodes_in (present_rows nodes.old)) x y → ⊥ }
    requires tokens { AreTokensBut (nodes_in (present_rows nodes.old)) (present tokens.old) [] }
    requires room { (2 ≤ nodes.old.rows.spare) × (0 < tokens.old.spare) }
    ensures taken { Takes nodes.old nodes.new x }
    ensures tokens { AreTokensBut (nodes_in (present_rows nodes.new)) (present tokens.new) [] }
    ensures committed { committed tokens.new ≡ committed tokens.old }
    ensures room { (nodes.old.rows.spare ≤ nodes.new.rows.spare + 2) × (tokens.old.spare ≤ tokens.new.spare + 1) }
{
    // each node stands where it says
    let _ = nodes.limit();
    take_out(nodes, tokens, x);
    nodes.take(x);
}
