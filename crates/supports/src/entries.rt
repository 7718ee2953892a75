// The tokens of a class under the nodes above them.
ghost use Rattle.std.specs.Prelude.{◌≡◌, ℕ, List, ◌++◌, map, IfOk, OnOk};
ghost use Rattle.spots.specs.Forest.{IsOnce};
ghost use Rattle.spots.specs.Spots.{AreTokens};
ghost use Rattle.spots.specs.declared.spot.Spot.{Spot as ASpot};
ghost use Rattle.occ_tree.specs.Places.{forest};
ghost use Rattle.supports.specs.Entries.{AreEntries, AreSorted};

use crate::way::way_to;
use occ_tree::Tree;
use spots::Spot;
use std::alloc::Global;
use tmm_model::{NoMemory, TokenRow};

// That a token is under a node.
#[derive(Clone, Copy, PartialEq, Eq, PartialOrd, Ord, Debug)]
pub(crate) struct Entry {
    // The node.
    pub node: u32,
    // The place of the token in its class.
    pub place: usize,
}

// The node of a token.
pub(crate) fn node_of(row: &TokenRow<Spot>) -> u32
    requires { (x : ℕ) × (row.now.spot ≡ ASpot.Node x) }
    ensures { row.now.spot ≡ ASpot.Node result }
{
    match row.spot {
        Spot::Node(x) => x,
        Spot::Declared(_) => unreachable!(),
    }
}

// An entry for each token and each node that it is under, by the nodes and the places.
pub(crate) fn entries_of(
    alloc: Global,
    tree: &Tree,
    rows: &[TokenRow<Spot>],
) -> Result<Vec<Entry>, NoMemory>
    requires tokens { (class : List ℕ) × AreTokens (forest tree.now) class rows.now }
    requires once { IsOnce (forest tree.now) }
    ensures entries { IfOk result (λ entries. AreEntries (forest tree.now) rows.now entries.items) }
    ensures sorted { IfOk result (λ entries. AreSorted entries.items) }
{
    let mut entries = gathered(alloc, tree, rows)?;
    entries.sort_unstable();
    Ok(entries)
}

// The same in the order of the tokens.
fn gathered(alloc: Global, tree: &Tree, rows: &[TokenRow<Spot>]) -> Result<Vec<Entry>, NoMemory>
    requires tokens { (class : List ℕ) × AreTokens (forest tree.now) class rows.now }
    requires once { IsOnce (forest tree.now) }
    ensures { IfOk result (λ entries. AreEntries (forest tree.now) rows.now entries.items) }
{
    let mut entries = Vec::new(alloc);
    for place in 0..rows.len() {
        let way = way_to(alloc, tree, node_of(&rows[place]))?;
        put_under(&mut entries, &way, place)?;
    }
    Ok(entries)
}

// Adds an entry for a token under each of some nodes.
fn put_under(entries: &mut Vec<Entry>, nodes: &[u32], place: usize) -> Result<(), NoMemory>
    ensures { OnOk result (entries.new.items ≡ entries.old.items ++ map (λ x. record { node = x; place = place }) nodes.now) }
{
    for i in 0..nodes.len() {
        let node = nodes[i];
        entries.reserve(1)?;
        entries.push_reserved(Entry { node, place });
    }
    Ok(())
}
