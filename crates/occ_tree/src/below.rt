// Lists of what is below a node.
ghost use Rattle.std.specs.Prelude.{◌≡◌, [], ◌∷◌, ◌++◌, Some, IsSome, IfOk, OnOk};
ghost use Rattle.undo_rows.specs.Tables.{AreListed};
ghost use Rattle.occ_tree.specs.Below.{AreTops, ListAllBelow, ListsBelow};
ghost use Rattle.occ_tree.specs.Standing.{nodes_in, present_rows, siblings_in};

use crate::nodes::Nodes;
use std::alloc::Global;
use tmm_model::NoMemory;

// The numbers of a node and of all below it, each before those below it.
pub(crate) fn list_below(alloc: Global, nodes: &Nodes, x: u32) -> Result<Vec<u32>, NoMemory>
    requires { IsSome (nodes_in (present_rows nodes.now) x) }
    ensures { IfOk result (λ numbers. ListsBelow (nodes_in (present_rows nodes.now)) x numbers.items) }
{
    // each node stands where it says
    let _ = nodes.limit();
    let mut numbers = Vec::new(alloc);
    push(&mut numbers, x)?;
    push_below(nodes, &mut numbers)?;
    Ok(numbers)
}

// Appends the numbers of all that is below these nodes, each before those below it.
pub(crate) fn push_below(nodes: &Nodes, numbers: &mut Vec<u32>) -> Result<(), NoMemory>
    requires { AreTops (nodes_in (present_rows nodes.now)) numbers.old.items }
    ensures { OnOk result (ListAllBelow (nodes_in (present_rows nodes.now)) numbers.old.items numbers.new.items) }
{
    // each node stands where it says, and its number is below the limit
    let _ = nodes.limit();
    let mut next = 0;
    while next < numbers.len() {
        push_children(nodes, numbers[next], numbers)?;
        next += 1;
    }
    Ok(())
}

// Appends the numbers of what rules lead to from a node by one more.
fn push_children(nodes: &Nodes, x: u32, numbers: &mut Vec<u32>) -> Result<(), NoMemory>
    requires { IsSome (nodes_in (present_rows nodes.now) x) }
    ensures ok { OnOk result (numbers.new.items ≡ numbers.old.items ++ siblings_in (present_rows nodes.now) (Some x)) }
    ensures listed { AreListed (present_rows nodes.now) }
{
    let mut child = nodes.first(Some(x));
    while let Some(y) = child {
        push(numbers, y)?;
        child = nodes.next(y);
    }
    Ok(())
}

// Appends a number.
pub(crate) fn push(numbers: &mut Vec<u32>, x: u32) -> Result<(), NoMemory>
    ensures { OnOk result (numbers.new.items ≡ numbers.old.items ++ x ∷ []) }
{
    numbers.reserve(1)?;
    numbers.push_reserved(x);
    Ok(())
}
