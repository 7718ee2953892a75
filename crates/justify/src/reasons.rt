// The reasons of an occurrence.
ghost use Rattle.std.specs.Prelude.{◌≡◌, None, IfErr, OnOk};
ghost use Rattle.tmm_model.specs.Lines.{IsWellFormedOcc};
ghost use Rattle.tmm_model.specs.Maps.{built};
ghost use Rattle.tmm_model.specs.Moments.{moment_of};
ghost use Rattle.tmm_model.specs.Questions.{why_cause};
ghost use Rattle.map_core.specs.Heard.{AreWhy, Hears, HearsNothing};
ghost use Rattle.map_core.specs.Naming.{point_of};
ghost use Rattle.spots.specs.Forest.{IsLive, moment_at};
ghost use Rattle.spots.specs.OfLists.{HasOccurrences};
ghost use Rattle.occ_tree.specs.OfLists.{IsTreeOf};
ghost use Rattle.occ_tree.specs.Places.{forest};
ghost use Rattle.supports.specs.TimeMaps.{IsTimeMap};
ghost use Rattle.tt_query.specs.Stops.{NamesPoint};
ghost use Rattle.justify.specs.Stops.{StopsReasons};

use crate::lines::tell_all;
use crate::upholders::upholders;
use dist_net::DistNet;
use map_core::Listener;
use occ_tree::{Order, Tree, in_order};
use premise_list::Standing;
use std::alloc::Global;
use supports::TimeMap;
use tmm_model::{NoMemory, Occ, Stop};
use tt_query::resolve_why;

/// Tells the reasons of an occurrence: the lines of it and of all that it rests on, each once, in
/// the order of occurrences, and before that of a derived one the orders that it needs. A word with
/// a cause against it is refused before any line is told; without memory it answers that.
pub fn why<R: Listener>(
    alloc: Global,
    standing: &Standing,
    net: &DistNet,
    tree: &Tree,
    occ: &Occ,
    listener: &mut R,
) -> Result<(), Stop>
    requires seen { IsTreeOf standing.now.present net.now.present tree.now }
    requires holds { HasOccurrences (built standing.now.present).believed (forest tree.now) }
    requires well_formed { IsWellFormedOcc occ.now }
    ensures known { OnOk result (why_cause (built standing.now.present) occ.now occ.now.rules.items ≡ None) }
    ensures reasons { OnOk result (Hears R.parts_of (AreWhy (built standing.now.present) (moment_of occ.now)) (R.heard listener.old) (R.heard listener.new)) }
    ensures stops { IfErr result (StopsReasons (built standing.now.present) occ.now) }
    ensures named { IfErr result (NamesPoint (point_of occ.now occ.now.rules.items)) }
    ensures unheard { IfErr result (HearsNothing (R.heard listener.old) (R.heard listener.new)) }
{
    let x = resolve_why(alloc, standing, tree, occ)?;
    let map = TimeMap {
        standing,
        tree,
        net,
    };
    match tell_reasons(alloc, &map, x, listener) {
        Ok(()) => Ok(()),
        Err(NoMemory) => Err(Stop::NoMemory),
    }
}

// Tells the reasons of a node.
fn tell_reasons<R: Listener>(
    alloc: Global,
    map: &TimeMap<'_>,
    x: u32,
    listener: &mut R,
) -> Result<(), NoMemory>
    requires seen { IsTimeMap map.now }
    requires holds { HasOccurrences (built map.now.standing.now.present).believed (forest map.now.tree.now) }
    requires live { IsLive (forest map.now.tree.now) x }
    ensures { OnOk result (Hears R.parts_of (AreWhy (built map.now.standing.now.present) (moment_at (forest map.now.tree.now) x)) (R.heard listener.old) (R.heard listener.new)) }
{
    let found = upholders(alloc, map, x)?;
    let order = Order {
        tree: map.tree,
        net: map.net,
    };
    let ranked = in_order(alloc, &order, found.as_slice())?;
    tell_all(alloc, map, ranked.as_slice(), listener)
}
