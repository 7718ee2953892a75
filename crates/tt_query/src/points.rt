// The spot of a point that a question names.
ghost use Rattle.std.specs.Prelude.{◌≡◌, [], None, IfOk, IfErr};
ghost use Rattle.tmm_model.specs.Lines.{IsWellFormedQueryPoint, IsWellFormedOcc};
ghost use Rattle.tmm_model.specs.Maps.{built};
ghost use Rattle.tmm_model.specs.Moments.{moment_of, moment_of_point};
ghost use Rattle.tmm_model.specs.Questions.{point_cause, why_cause};
ghost use Rattle.map_core.specs.Naming.{point_of};
ghost use Rattle.dist_net.specs.Net.{Net};
ghost use Rattle.spots.specs.Forest.{IsLive, moment_at};
ghost use Rattle.spots.specs.OfLists.{IsForestOf, HasOccurrences};
ghost use Rattle.spots.specs.Spots.{IsSpot, spot_moment};
ghost use Rattle.occ_tree.specs.OfLists.{IsTreeOf};
ghost use Rattle.occ_tree.specs.Places.{forest};
ghost use Rattle.tt_query.specs.Stops.{StopsPoint, StopsWhy, StopsUnknown, NamesPoint};

use crate::refused::name_refused;
use dist_net::DistNet;
use list_net::number_of;
use occ_tree::Tree;
use premise_list::Standing;
use spots::Spot;
use std::alloc::Global;
use tmm_model::{Occ, PointName, QueryPoint, Refusal, Stop};

/// The spot of a point that a question names, or the cause against its word, with the point as the
/// question names it. Memory is asked for only for the word of an occurrence that is not believed.
pub fn resolve(
    alloc: Global,
    standing: &Standing,
    tree: &Tree,
    net: &DistNet,
    point: &QueryPoint,
) -> Result<Spot, Stop>
    requires seen { IsTreeOf standing.now.present net.now.present tree.now }
    requires holds { HasOccurrences (built standing.now.present).believed (forest tree.now) }
    requires well_formed { IsWellFormedQueryPoint point.now }
    ensures known { IfOk result (λ spot. point_cause (built standing.now.present) point.now ≡ None) }
    ensures spot { IfOk result (IsSpot net.now.present.names (forest tree.now)) }
    ensures moment { IfOk result (λ spot. spot_moment net.now.present.names (forest tree.now) spot ≡ moment_of_point point.now) }
    ensures stops { IfErr result (StopsPoint (built standing.now.present) point.now) }
    ensures named { IfErr result (NamesPoint point.now) }
{
    match point {
        QueryPoint::Declared(place) => match standing.check_place(*place) {
            Ok(()) => Ok(Spot::Declared(number_of(net, *place))),
            Err(refusal) => Err(Stop::Refused(name_refused(refusal, *place))),
        },
        QueryPoint::Derived(occ) => match tree.find(occ) {
            Some(x) => Ok(Spot::Node(x)),
            None => Err(unknown(alloc, occ)),
        },
    }
}

/// The node of an occurrence whose reasons are asked for, or the cause against its word, with the
/// occurrence as a question names it: without rules it is a declared point. Memory is asked for
/// only for the word of an occurrence that is not believed.
pub fn resolve_why(alloc: Global, standing: &Standing, tree: &Tree, occ: &Occ) -> Result<u32, Stop>
    requires seen { (net : Net) × IsForestOf standing.now.present net (forest tree.now) }
    requires holds { HasOccurrences (built standing.now.present).believed (forest tree.now) }
    requires well_formed { IsWellFormedOcc occ.now }
    ensures known { IfOk result (λ x. why_cause (built standing.now.present) occ.now occ.now.rules.items ≡ None) }
    ensures there { IfOk result (IsLive (forest tree.now)) }
    ensures moment { IfOk result (λ x. moment_at (forest tree.now) x ≡ moment_of occ.now) }
    ensures stops { IfErr result (StopsWhy (built standing.now.present) occ.now) }
    ensures named { IfErr result (NamesPoint (point_of occ.now occ.now.rules.items)) }
{
    if occ.rules.items().is_empty() {
        return resolve_root(standing, tree, occ);
    }
    match tree.find(occ) {
        Some(x) => Ok(x),
        None => Err(unknown(alloc, occ)),
    }
}

// The node of a declared event, token or span.
fn resolve_root(standing: &Standing, tree: &Tree, occ: &Occ) -> Result<u32, Stop>
    requires seen { (net : Net) × IsForestOf standing.now.present net (forest tree.now) }
    requires holds { HasOccurrences (built standing.now.present).believed (forest tree.now) }
    requires root { occ.now.rules.items ≡ [] }
    ensures known { IfOk result (λ x. why_cause (built standing.now.present) occ.now [] ≡ None) }
    ensures there { IfOk result (IsLive (forest tree.now)) }
    ensures moment { IfOk result (λ x. moment_at (forest tree.now) x ≡ moment_of occ.now) }
    ensures stops { IfErr result (StopsWhy (built standing.now.present) occ.now) }
    ensures named { IfErr result (NamesPoint (point_of occ.now occ.now.rules.items)) }
{
    let root = occ.root;
    if let Err(refusal) = standing.check_place(PointName::Begin(root)) {
        return Err(Stop::Refused(name_refused(refusal, PointName::Begin(root))));
    }
    // of what begins at a point, only a plain point is no occurrence
    match tree.find(occ) {
        Some(x) => Ok(x),
        None => Err(Stop::Refused(Refusal::Sort(QueryPoint::Declared(PointName::Begin(root))))),
    }
}

// The refusal of an occurrence that is not believed.
fn unknown(alloc: Global, occ: &Occ) -> Stop
    ensures stops { StopsUnknown occ.now result }
    ensures named { NamesPoint (QueryPoint.Derived occ.now) result }
{
    match occ.copy(alloc) {
        Ok(occ) => Stop::Refused(Refusal::Unknown(QueryPoint::Derived(occ))),
        Err(_) => Stop::NoMemory,
    }
}
