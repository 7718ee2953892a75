// Nodes that get their dates in a network.
ghost use Rattle.std.specs.Prelude.{◌≡◌, ℕ, ◌+◌, ◌*◌, ◌<◌, ◌≤◌, [], length, None, IsSome, IfOk, OnOk};
ghost use Rattle.std.specs.List.Sorted.{IsPermutation};
ghost use Rattle.row_links.specs.Lists.{IsOn, AreOnce};
ghost use Rattle.tmm_model.specs.Bounds.{IsWithin};
ghost use Rattle.dist_net.specs.Net.{IsInUse};
ghost use Rattle.spots.specs.OfLists.{HasList};
ghost use Rattle.undo_lists.specs.Changes.{present, committed};
ghost use Rattle.undo_rows.specs.Tables.{AreListed};
ghost use Rattle.occ_tree.specs.Below.{AreTops};
ghost use Rattle.occ_tree.specs.Dated.{point_early, base_early, IsRight, IsRoot, IsAppendedOrRight, AreRightBut};
ghost use Rattle.occ_tree.specs.Edits.{AreDated, Dates, Keeps};
ghost use Rattle.occ_tree.specs.Nodes.{forest_in, FollowRoots};
ghost use Rattle.occ_tree.specs.Standing.{nodes_in, siblings_in, present_rows, committed_rows, IsStanding};
ghost use Rattle.occ_tree.specs.Tokens.{AreTokensBut, HaveRoomFor};

use crate::below::{push, push_below};
use crate::nodes::Nodes;
use crate::sorting::sort_nodes;
use crate::tokens::{Tokens, put_all_in, take_all_out};
use dist_net::DistNet;
use std::alloc::Global;
use tmm_model::{Bound, NoMemory};

// Nodes that are to get other dates.
#[derive(Drop)]
pub(crate) struct Late {
    // in the order of nodes
    pub(crate) numbers: Vec<u32>,
    // whether they are of more than one root
    pub(crate) several: bool,
}

// The nodes whose dates are others in a network, with room for two changes of each node and of each
// token among them. All stays, also where there is no memory.
pub(crate) fn room_for_late(
    alloc: Global,
    net: &DistNet,
    nodes: &mut Nodes,
    tokens: &mut Tokens,
) -> Result<Late, NoMemory>
    requires list { HasList net.now.present (forest_in (nodes_in (present_rows nodes.old))) }
    requires dates { FollowRoots (nodes_in (present_rows nodes.old)) }
    ensures live { IfOk result (λ late. (y : ℕ) → IsOn late.numbers.items y → IsSome (nodes_in (present_rows nodes.old) y)) }
    ensures once { IfOk result (λ late. AreOnce late.numbers.items) }
    ensures right { IfOk result (λ late. AreRightBut net.now.present (nodes_in (present_rows nodes.old)) late.numbers.items) }
    ensures room { IfOk result (λ late. (2 * length late.numbers.items ≤ nodes.new.rows.spare) × (2 * length late.numbers.items ≤ tokens.new.spare)) }
    ensures stands { IsStanding nodes.old.rows.places (present_rows nodes.old) }
    ensures keeps { Keeps nodes.old nodes.new }
    ensures present { present tokens.new ≡ present tokens.old }
    ensures committed { committed tokens.new ≡ committed tokens.old }
{
    // each node stands where it says
    let _ = nodes.limit();
    let mut numbers = late_roots(alloc, net, nodes)?;
    let several = numbers.len() > 1;
    push_below(nodes, &mut numbers)?;
    let changes = 2 * numbers.len();
    nodes.reserve(alloc, changes)?;
    tokens.reserve(alloc, 0, 0, changes)?;
    sort_nodes(nodes, &mut numbers);
    Ok(Late { numbers, several })
}

// Gives nodes their earliest dates in a network, and their tokens their places. It takes no memory.
// The tokens are all taken out before the first one is put in, so few are moved where the nodes are
// listed in their order: the tokens of one root stand among those of others.
pub(crate) fn date_late(net: &DistNet, nodes: &mut Nodes, tokens: &mut Tokens, late: Late)
    requires list { HasList net.now.present (forest_in (nodes_in (present_rows nodes.old))) }
    requires live { (y : ℕ) → IsOn late.numbers.items y → IsSome (nodes_in (present_rows nodes.old) y) }
    requires once { AreOnce late.numbers.items }
    requires tokens { AreTokensBut (nodes_in (present_rows nodes.old)) (present tokens.old) [] }
    requires room { (length late.numbers.items ≤ nodes.old.rows.spare) × (2 * length late.numbers.items ≤ tokens.old.spare) }
    ensures dated { AreDated (present_rows nodes.old) (present_rows nodes.new) late.numbers.items (base_early net.now.present (nodes_in (present_rows nodes.old))) }
    ensures committed_rows { committed_rows nodes.new ≡ committed_rows nodes.old }
    ensures places { nodes.new.rows.places ≡ nodes.old.rows.places }
    ensures tokens { AreTokensBut (nodes_in (present_rows nodes.new)) (present tokens.new) [] }
    ensures committed { committed tokens.new ≡ committed tokens.old }
{
    let several = late.several;
    let mut numbers = late.numbers;
    date_out(net, nodes, tokens, numbers.as_slice());
    sort_if(several, nodes, &mut numbers);
    put_all_in(nodes, tokens, numbers.as_slice());
}

// Takes nodes out of the tokens of their classes, and gives them their earliest dates in a network. It
// takes no memory, and leaves room for them.
fn date_out(net: &DistNet, nodes: &mut Nodes, tokens: &mut Tokens, numbers: &[u32])
    requires list { HasList net.now.present (forest_in (nodes_in (present_rows nodes.old))) }
    requires live { (y : ℕ) → IsOn numbers.now y → IsSome (nodes_in (present_rows nodes.old) y) }
    requires once { AreOnce numbers.now }
    requires tokens { AreTokensBut (nodes_in (present_rows nodes.old)) (present tokens.old) [] }
    requires room { (length numbers.now ≤ nodes.old.rows.spare) × (2 * length numbers.now ≤ tokens.old.spare) }
    ensures dated { AreDated (present_rows nodes.old) (present_rows nodes.new) numbers.now (base_early net.now.present (nodes_in (present_rows nodes.old))) }
    ensures committed_rows { committed_rows nodes.new ≡ committed_rows nodes.old }
    ensures places { nodes.new.rows.places ≡ nodes.old.rows.places }
    ensures tokens { AreTokensBut (nodes_in (present_rows nodes.new)) (present tokens.new) numbers.now }
    ensures room { HaveRoomFor (nodes_in (present_rows nodes.new)) tokens.new numbers.now }
    ensures committed { committed tokens.new ≡ committed tokens.old }
    ensures spare { length numbers.now ≤ tokens.new.spare }
{
    // each node stands where it says
    let _ = nodes.limit();
    take_all_out(nodes, tokens, numbers);
    date_by(net, nodes, numbers);
}

// Sorts nodes of several roots by the order of nodes again: that of nodes of one root stays where
// they all get other dates. It takes no memory.
fn sort_if(several: bool, nodes: &Nodes, numbers: &mut Vec<u32>)
    ensures same { IsPermutation numbers.old.items numbers.new.items }
    ensures long { length numbers.new.items ≡ length numbers.old.items }
{
    if several {
        sort_nodes(nodes, numbers);
    }
}

// Gives nodes their earliest dates in a network. It takes no memory.
fn date_by(net: &DistNet, nodes: &mut Nodes, numbers: &[u32])
    requires list { HasList net.now.present (forest_in (nodes_in (present_rows nodes.old))) }
    requires live { (y : ℕ) → IsOn numbers.now y → IsSome (nodes_in (present_rows nodes.old) y) }
    requires room { length numbers.now ≤ nodes.old.rows.spare }
    ensures dated { AreDated (present_rows nodes.old) (present_rows nodes.new) numbers.now (base_early net.now.present (nodes_in (present_rows nodes.old))) }
    ensures committed_rows { committed_rows nodes.new ≡ committed_rows nodes.old }
    ensures places { nodes.new.rows.places ≡ nodes.old.rows.places }
{
    // each node stands where it says
    let _ = nodes.limit();
    for x in numbers {
        date_node(net, nodes, *x);
    }
}

// Gives a node its earliest date in a network. It takes no memory.
fn date_node(net: &DistNet, nodes: &mut Nodes, x: u32)
    requires list { HasList net.now.present (forest_in (nodes_in (present_rows nodes.old))) }
    requires live { IsSome (nodes_in (present_rows nodes.old) x) }
    requires spare { 0 < nodes.old.rows.spare }
    ensures dated { Dates nodes.old nodes.new x (base_early net.now.present (nodes_in (present_rows nodes.old)) x) }
    ensures spare { nodes.old.rows.spare ≤ nodes.new.rows.spare + 1 }
{
    let date = date_of(net, nodes.get(x).begin);
    nodes.date(x, date);
}

// The roots whose dates are others in a network.
fn late_roots(alloc: Global, net: &DistNet, nodes: &Nodes) -> Result<Vec<u32>, NoMemory>
    requires { HasList net.now.present (forest_in (nodes_in (present_rows nodes.now))) }
    ensures tops { IfOk result (λ numbers. AreTops (nodes_in (present_rows nodes.now)) numbers.items) }
    ensures right { IfOk result (λ numbers. (y : ℕ) → IsOn (siblings_in (present_rows nodes.now) None) y → (IsOn numbers.items y → ⊥) → IsRight net.now.present (nodes_in (present_rows nodes.now)) y) }
    ensures listed { AreListed (present_rows nodes.now) }
{
    let mut numbers = Vec::new(alloc);
    let mut next = nodes.first(None);
    while let Some(root) = next {
        push_if_late(net, nodes, root, &mut numbers)?;
        next = nodes.next(root);
    }
    Ok(numbers)
}

// Appends a root if its date is another one in a network.
fn push_if_late(
    net: &DistNet,
    nodes: &Nodes,
    root: u32,
    numbers: &mut Vec<u32>,
) -> Result<(), NoMemory>
    requires list { HasList net.now.present (forest_in (nodes_in (present_rows nodes.now))) }
    requires root { IsRoot (nodes_in (present_rows nodes.now)) root }
    ensures { OnOk result (IsAppendedOrRight net.now.present (nodes_in (present_rows nodes.now)) root numbers.old.items numbers.new.items) }
{
    let node = nodes.get(root);
    if node.early == date_of(net, node.begin) {
        return Ok(());
    }
    push(numbers, root)
}

// The earliest date of a point, in whole time units.
fn date_of(net: &DistNet, point: u16) -> i64
    requires point { IsInUse net.now.present.names point }
    requires start { IsInUse net.now.present.names 0 }
    ensures date { result ≡ point_early net.now.present point }
    ensures small { IsWithin 1000000000000 result }
{
    match net.far(point, 0) {
        Bound::Finite(far) => -far,
        Bound::Free => 0,
    }
}
