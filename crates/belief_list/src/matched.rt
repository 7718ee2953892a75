// Rows of one tree for the nodes of another.
ghost use Rattle.std.specs.Prelude.{◌≡◌, List, map, IfOk, Some};
ghost use Rattle.std.specs.Option.{option_and_then, option_eq};
ghost use Rattle.tmm_model.specs.Moments.{same_moment};
ghost use Rattle.spots.specs.Forest.{Forest, IsLive, moment_at};
ghost use Rattle.occ_tree.specs.Places.{forest};
ghost use Rattle.belief_list.specs.declared.list.BeliefRow.{BeliefRow as ABeliefRow};
ghost use Rattle.belief_list.specs.Rows.{row_at, IsListing};
ghost use Rattle.belief_list.specs.Compared.{clip_in};
ghost use Rattle.belief_list.specs.Matches.{AreMatched, IsMatch};
ghost use Rattle.belief_list.specs.Tables.{item_under, IsTable};

use crate::list::BeliefRow;
use crate::places::{place_of, places_by_number};
use occ_tree::{ByName, Tree};
use std::alloc::Global;
use tmm_model::NoMemory;

// Rows of one tree, and the place of the row of what is each node of another.
#[derive(Clone, Copy)]
pub(crate) struct Matched<'a> {
    pub(crate) rows: &'a [BeliefRow],
    pub(crate) places: &'a [Option<usize>],
}

impl Matched<'_> {
    // The row of what is the node.
    pub(crate) fn row_of(&self, node: u32) -> Option<BeliefRow>
        ensures { result ≡ item_under self.now.rows.now self.now.places.now node }
    {
        self.rows.get(place_of(self.places, node)?).copied()
    }

    // What clips what is the node.
    pub(crate) fn clip_of(&self, node: u32) -> Option<u32>
        ensures { result ≡ option_and_then (λ r. r.clip) (item_under self.now.rows.now self.now.places.now node) }
    {
        self.row_of(node)?.clip
    }

    // Whether what clips the node clips it here too.
    pub(crate) fn is_clip_of(&self, node: u32, by: u32) -> bool
        ensures { (f other : Forest) → AreMatched f other self.now.rows.now self.now.places.now → IsLive f node → IsLive f by → result ≡ option_eq same_moment (clip_in (map (row_at other) self.now.rows.now) (moment_at f node)) (Some (moment_at f by)) }
    {
        match self.row_of(by) {
            None => false,
            Some(row) => self.clip_of(node) == Some(row.node),
        }
    }
}

// The place of the row of each node.
pub(crate) fn places_by_node(
    alloc: Global,
    rows: &[BeliefRow],
) -> Result<Vec<Option<usize>>, NoMemory>
    ensures { IfOk result (λ places. IsTable (map (λ r. r.node) rows.now) places.items) }
{
    let nodes: Vec<u32> = rows.iter().map(|row| row.node).collect(alloc)?;
    places_by_number(alloc, nodes.as_slice())
}

// The place of the row of what is each node of another tree, which has it by the same names.
pub(crate) fn places_by_name(
    alloc: Global,
    tree: &Tree,
    rows: &[BeliefRow],
    other: &Tree,
) -> Result<Vec<Option<usize>>, NoMemory>
    requires { IsListing (forest tree.now) rows.now }
    ensures { IfOk result (λ places. AreMatched (forest other.now) (forest tree.now) rows.now places.items) }
{
    let names = ByName::of(alloc, tree)?;
    let own = places_by_node(alloc, rows)?;
    let limit = other.limit();
    let mut places = Vec::from_elem(alloc, None, limit as usize)?;
    for x in 0..limit {
        places[x as usize] = same_place(&names, own.as_slice(), other, x);
    }
    Ok(places)
}

// The place of the row of what is the node of the other tree, if it has that node.
fn same_place(names: &ByName<'_>, places: &[Option<usize>], other: &Tree, x: u32) -> Option<usize>
    ensures { (rows : List ABeliefRow) → IsListing (forest names.now) rows → IsTable (map (λ r. r.node) rows) places.now → IsLive (forest other.now) x → IsMatch (moment_at (forest other.now) x) (forest names.now) rows result }
{
    if !other.is_live(x) {
        return None;
    }
    place_of(places, names.find_same(other, x)?)
}
