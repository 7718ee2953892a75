// All that a node rests on.
ghost use Rattle.std.specs.Prelude.{◌≡◌, nat_eq, IfOk, OnOk};
ghost use Rattle.tmm_model.specs.Maps.{built};
ghost use Rattle.indexmap.specs.IndexSet.{insert_key, insert_all};
ghost use Rattle.spots.specs.Forest.{IsLive};
ghost use Rattle.spots.specs.OfLists.{HasOccurrences};
ghost use Rattle.occ_tree.specs.Places.{forest};
ghost use Rattle.supports.specs.TimeMaps.{IsTimeMap};
ghost use Rattle.justify.specs.Grounds.{AddsGrounds, AreUpholders};

use crate::grounds::{Origin, origin_of, supports_at};
use indexmap::IndexSet;
use std::alloc::Global;
use supports::TimeMap;
use tmm_model::NoMemory;

// The node and all that it rests on, directly or through others.
pub(crate) fn upholders(alloc: Global, map: &TimeMap<'_>, x: u32) -> Result<IndexSet<u32>, NoMemory>
    requires seen { IsTimeMap map.now }
    requires holds { HasOccurrences (built map.now.standing.now.present).believed (forest map.now.tree.now) }
    requires live { IsLive (forest map.now.tree.now) x }
    ensures { IfOk result (λ found. AreUpholders (built map.now.standing.now.present) (forest map.now.tree.now) x found.keys) }
{
    // no node's number reaches it, so the search ends
    let _limit = map.tree.limit();
    let mut found = IndexSet::new(alloc);
    add(&mut found, x)?;
    let mut next = 0;
    while next < found.len() {
        let y = found[next];
        add_grounds(alloc, map, y, &mut found)?;
        next += 1;
    }
    Ok(found)
}

// Adds what a node rests on directly.
fn add_grounds(
    alloc: Global,
    map: &TimeMap<'_>,
    x: u32,
    found: &mut IndexSet<u32>,
) -> Result<(), NoMemory>
    requires seen { IsTimeMap map.now }
    requires holds { HasOccurrences (built map.now.standing.now.present).believed (forest map.now.tree.now) }
    requires live { IsLive (forest map.now.tree.now) x }
    ensures { OnOk result (AddsGrounds (built map.now.standing.now.present) (forest map.now.tree.now) x found.old.keys found.new.keys) }
{
    match origin_of(map.tree, x) {
        Origin::Declared(_) => Ok(()),
        Origin::Effect { event, rule } => {
            let supports = supports_at(alloc, map, event, rule);
            add(found, event)?;
            add_all(found, supports.as_slice())
        }
    }
}

fn add_all(found: &mut IndexSet<u32>, nodes: &[u32]) -> Result<(), NoMemory>
    ensures { OnOk result (found.new.keys ≡ insert_all nat_eq found.old.keys nodes.now) }
{
    for x in nodes {
        add(found, *x)?;
    }
    Ok(())
}

fn add(found: &mut IndexSet<u32>, x: u32) -> Result<(), NoMemory>
    ensures { OnOk result (found.new.keys ≡ insert_key nat_eq found.old.keys x) }
{
    match found.insert(x) {
        Ok(_) => Ok(()),
        Err(_) => Err(NoMemory),
    }
}
