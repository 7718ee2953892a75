// The occurrences of nodes that are gone.
ghost use Rattle.std.specs.Prelude.{◌≡◌, ◌++◌, ◌∷◌, [], map, IfOk, OnOk};
ghost use Rattle.std.specs.Option.{option_map, option_copied};
ghost use Rattle.tmm_model.specs.Moments.{moment_of};
ghost use Rattle.belief_list.specs.LeftNodes.{if_derived};
ghost use Rattle.belief_list.specs.Tables.{item_under, IsTable};

use crate::places::{place_of, places_by_number};
use std::alloc::Global;
use tmm_model::{NoMemory, Occ, Seq};

/// The occurrence of a node that is gone.
#[derive(Clone, Copy)]
pub struct LeftNode<'a> {
    /// The number that the node had.
    pub node: u32,
    /// Its occurrence.
    pub occ: &'a Occ,
}

// The place of the occurrence of each node that is told of.
pub(crate) fn places_by_left(
    alloc: Global,
    left: &[LeftNode<'_>],
) -> Result<Vec<Option<usize>>, NoMemory>
    ensures { IfOk result (λ places. IsTable (map (λ n. n.node) left.now) places.items) }
{
    let nodes: Vec<u32> = left.iter().map(|gone| gone.node).collect(alloc)?;
    places_by_number(alloc, nodes.as_slice())
}

// What is told of a node.
pub(crate) fn told_of<'b, 'a>(
    left: &'b [LeftNode<'a>],
    places: &[Option<usize>],
    node: u32,
) -> Option<&'b LeftNode<'a>>
    ensures { option_copied result ≡ item_under left.now places.now node }
{
    left.get(place_of(places, node)?)
}

// The occurrence, if a rule brings it about.
pub(crate) fn if_derived(occ: &Occ) -> Option<&Occ>
    ensures { option_map moment_of (option_copied result) ≡ if_derived (moment_of occ.now) }
{
    if occ.rules.items().is_empty() {
        None
    } else {
        Some(occ)
    }
}

// Appends the occurrence once more.
pub(crate) fn push_copy(alloc: Global, occ: &Occ, occs: &mut Seq<Occ>) -> Result<(), NoMemory>
    ensures { OnOk result (map moment_of occs.new.items ≡ map moment_of occs.old.items ++ moment_of occ.now ∷ []) }
{
    match occs.push(occ.copy(alloc)?) {
        Ok(()) => Ok(()),
        Err(_) => Err(NoMemory),
    }
}
