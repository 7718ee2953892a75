// The lines of occurrences, each handed on as soon as it is made.
ghost use Rattle.std.specs.Prelude.{◌≡◌, ◌∷◌, [], map as mapped, IsTrue, IfOk, OnOk};
ghost use Rattle.std.specs.List.{All, flat_map};
ghost use Rattle.tmm_model.specs.Maps.{built};
ghost use Rattle.tmm_model.specs.Moments.{is_derived, moment_of, moment_of_point};
ghost use Rattle.tmm_model.specs.Reasons.{IsOrderLine, by_rule, pairs_of, reason_of};
ghost use Rattle.map_core.specs.Heard.{Hears};
ghost use Rattle.map_core.specs.Shapes.{IsShapedLine, IsShapedPoint};
ghost use Rattle.spots.specs.Forest.{IsLive, moment_at};
ghost use Rattle.spots.specs.OfLists.{HasOccurrences};
ghost use Rattle.spots.specs.Spots.{IsSpot, spot_moment};
ghost use Rattle.justify.specs.Lines.{IsInOrder, AreOrders, AreLinesOf, AreLinesOfAll};
ghost use Rattle.occ_tree.specs.Ranks.{nodes_of};
ghost use Rattle.occ_tree.specs.Places.{forest};
ghost use Rattle.supports.specs.TimeMaps.{IsTimeMap};

use crate::grounds::{Origin, exceptions_of, origin_of, supports_at};
use crate::walks::steps_between;
use arrayvec::ArrayVec;
use dist_net::DistNet;
use map_core::Listener;
use occ_tree::{Ranked, Tree};
use spots::Spot;
use std::alloc::Global;
use supports::TimeMap;
use tmm_model::{Bound, MOST_EXCEPTIONS, Name, NoMemory, Occ, PointName, QueryPoint, Seq, WhyLine};

// Tells the lines of the nodes, one after the other: the orders that each needs, and then its own
// line.
pub(crate) fn tell_all<R: Listener>(
    alloc: Global,
    map: &TimeMap<'_>,
    ranked: &[Ranked],
    listener: &mut R,
) -> Result<(), NoMemory>
    requires seen { IsTimeMap map.now }
    requires holds { HasOccurrences (built map.now.standing.now.present).believed (forest map.now.tree.now) }
    requires live { All (IsLive (forest map.now.tree.now)) (nodes_of ranked.now) }
    ensures { OnOk result (Hears R.parts_of (AreLinesOfAll (built map.now.standing.now.present) (mapped (moment_at (forest map.now.tree.now)) (nodes_of ranked.now))) (R.heard listener.old) (R.heard listener.new)) }
{
    for rank in ranked {
        tell_node(alloc, map, rank.node, listener)?;
    }
    Ok(())
}

// Tells the lines of a node.
fn tell_node<R: Listener>(
    alloc: Global,
    map: &TimeMap<'_>,
    x: u32,
    listener: &mut R,
) -> Result<(), NoMemory>
    requires seen { IsTimeMap map.now }
    requires holds { HasOccurrences (built map.now.standing.now.present).believed (forest map.now.tree.now) }
    requires live { IsLive (forest map.now.tree.now) x }
    ensures { OnOk result (Hears R.parts_of (AreLinesOf (built map.now.standing.now.present) (moment_at (forest map.now.tree.now) x)) (R.heard listener.old) (R.heard listener.new)) }
{
    match origin_of(map.tree, x) {
        Origin::Declared(name) => listener.hear(WhyLine::Premise(name)),
        Origin::Effect { event, rule } => {
            let supports = supports_at(alloc, map, event, rule);
            let nodes = supports.as_slice();
            tell_orders(alloc, map, event, nodes, listener)?;
            let exceptions = exceptions_of(map.standing, rule);
            listener.hear(derived_line(alloc, map.tree, x, rule, event, nodes, exceptions)?)
        }
    }
}

// The line of the effect of a rule on an event, with what supports its antecedents, and its
// exceptions.
fn derived_line(
    alloc: Global,
    tree: &Tree,
    x: u32,
    rule: Name,
    event: u32,
    supports: &[u32],
    unless_facts: ArrayVec<Name, MOST_EXCEPTIONS>,
) -> Result<WhyLine, NoMemory>
    requires live { IsLive (forest tree.now) x }
    requires event { IsLive (forest tree.now) event }
    requires supports { All (IsLive (forest tree.now)) supports.now }
    ensures reason { IfOk result (λ line. reason_of line ≡ by_rule (moment_at (forest tree.now) x) rule (moment_at (forest tree.now) event) (mapped (moment_at (forest tree.now)) supports.now) unless_facts.items) }
    ensures shaped { IfOk result (λ line. IsTrue (is_derived (moment_at (forest tree.now) x)) → IsShapedLine line) }
{
    Ok(WhyLine::Derived {
        occ: tree.occ_of(alloc, x)?,
        rule,
        trigger: tree.occ_of(alloc, event)?,
        supports: occs_of(alloc, tree, supports)?,
        unless_facts,
    })
}

// The occurrences of nodes.
fn occs_of(alloc: Global, tree: &Tree, nodes: &[u32]) -> Result<Seq<Occ>, NoMemory>
    requires { All (IsLive (forest tree.now)) nodes.now }
    ensures { IfOk result (λ occs. mapped moment_of occs.items ≡ mapped (moment_at (forest tree.now)) nodes.now) }
{
    let mut occs = Seq::make(alloc);
    for x in nodes {
        match occs.push(tree.occ_of(alloc, *x)?) {
            Ok(()) => {}
            Err(_) => return Err(NoMemory),
        }
    }
    Ok(occs)
}

// Tells the orders that the supporters at an event need.
fn tell_orders<R: Listener>(
    alloc: Global,
    map: &TimeMap<'_>,
    event: u32,
    supports: &[u32],
    listener: &mut R,
) -> Result<(), NoMemory>
    requires seen { IsTimeMap map.now }
    requires event { IsLive (forest map.now.tree.now) event }
    requires supports { All (IsLive (forest map.now.tree.now)) supports.now }
    requires in_order { All (λ x. All (IsInOrder (built map.now.standing.now.present)) (pairs_of (built map.now.standing.now.present) (moment_at (forest map.now.tree.now) event) (moment_at (forest map.now.tree.now) x))) supports.now }
    ensures { OnOk result (Hears R.parts_of (AreOrders (built map.now.standing.now.present) (flat_map (pairs_of (built map.now.standing.now.present) (moment_at (forest map.now.tree.now) event)) (mapped (moment_at (forest map.now.tree.now)) supports.now))) (R.heard listener.old) (R.heard listener.new)) }
{
    for x in supports {
        tell_orders_of(alloc, map, event, *x, listener)?;
    }
    Ok(())
}

// Tells the orders that a supporter at an event needs: it begins surely at or before the event, and
// where it is a span the event is surely at or before its end.
fn tell_orders_of<R: Listener>(
    alloc: Global,
    map: &TimeMap<'_>,
    event: u32,
    x: u32,
    listener: &mut R,
) -> Result<(), NoMemory>
    requires seen { IsTimeMap map.now }
    requires event { IsLive (forest map.now.tree.now) event }
    requires live { IsLive (forest map.now.tree.now) x }
    requires in_order { All (IsInOrder (built map.now.standing.now.present)) (pairs_of (built map.now.standing.now.present) (moment_at (forest map.now.tree.now) event) (moment_at (forest map.now.tree.now) x)) }
    ensures { OnOk result (Hears R.parts_of (AreOrders (built map.now.standing.now.present) (pairs_of (built map.now.standing.now.present) (moment_at (forest map.now.tree.now) event) (moment_at (forest map.now.tree.now) x))) (R.heard listener.old) (R.heard listener.new)) }
{
    let at = Spot::Node(event);
    tell_order(alloc, map, Spot::Node(x), at, listener)?;
    match map.tree.row(x).end {
        Some(end) => tell_order(alloc, map, at, Spot::Declared(end), listener),
        None => Ok(()),
    }
}

// Tells that one spot is surely at or before another.
fn tell_order<R: Listener>(
    alloc: Global,
    map: &TimeMap<'_>,
    first: Spot,
    second: Spot,
    listener: &mut R,
) -> Result<(), NoMemory>
    requires seen { IsTimeMap map.now }
    requires first { IsSpot map.now.net.now.present.names (forest map.now.tree.now) first }
    requires second { IsSpot map.now.net.now.present.names (forest map.now.tree.now) second }
    requires in_order { IsInOrder (built map.now.standing.now.present) (spot_moment map.now.net.now.present.names (forest map.now.tree.now) first, spot_moment map.now.net.now.present.names (forest map.now.tree.now) second) }
    ensures { OnOk result (Hears R.parts_of (AreOrders (built map.now.standing.now.present) ((spot_moment map.now.net.now.present.names (forest map.now.tree.now) first, spot_moment map.now.net.now.present.names (forest map.now.tree.now) second) ∷ [])) (R.heard listener.old) (R.heard listener.new)) }
{
    listener.hear(order_line(alloc, map, first, second)?)
}

// The line that one spot is surely at or before another: the distance back, and constraints that
// give it.
fn order_line(
    alloc: Global,
    map: &TimeMap<'_>,
    first: Spot,
    second: Spot,
) -> Result<WhyLine, NoMemory>
    requires seen { IsTimeMap map.now }
    requires first { IsSpot map.now.net.now.present.names (forest map.now.tree.now) first }
    requires second { IsSpot map.now.net.now.present.names (forest map.now.tree.now) second }
    requires in_order { IsInOrder (built map.now.standing.now.present) (spot_moment map.now.net.now.present.names (forest map.now.tree.now) first, spot_moment map.now.net.now.present.names (forest map.now.tree.now) second) }
    ensures order { IfOk result (λ line. IsOrderLine (built map.now.standing.now.present) (spot_moment map.now.net.now.present.names (forest map.now.tree.now) first, spot_moment map.now.net.now.present.names (forest map.now.tree.now) second) (reason_of line)) }
    ensures shaped { IfOk result IsShapedLine }
{
    let bound = map.tree.far(map.net, second, first);
    let steps = steps_between(alloc, map.standing, map.tree, map.net, second, first, bound)?;
    match bound {
        Bound::Finite(far) => Ok(WhyLine::Order {
            first: point_at(alloc, map.tree, map.net, first)?,
            second: point_at(alloc, map.tree, map.net, second)?,
            far,
            steps,
        }),
        Bound::Free => unreachable!(),
    }
}

// A spot as a question names it.
fn point_at(alloc: Global, tree: &Tree, net: &DistNet, spot: Spot) -> Result<QueryPoint, NoMemory>
    requires { IsSpot net.now.present.names (forest tree.now) spot }
    ensures moment { IfOk result (λ point. moment_of_point point ≡ spot_moment net.now.present.names (forest tree.now) spot) }
    ensures shaped { IfOk result IsShapedPoint }
{
    match spot {
        Spot::Declared(p) => Ok(QueryPoint::Declared(net.name_of(p).unwrap_or(PointName::Start))),
        Spot::Node(x) => match origin_of(tree, x) {
            Origin::Declared(name) => Ok(QueryPoint::Declared(PointName::Begin(name))),
            Origin::Effect { .. } => Ok(QueryPoint::Derived(tree.occ_of(alloc, x)?)),
        },
    }
}
