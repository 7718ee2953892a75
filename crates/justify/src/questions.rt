// Questions of points, and of an occurrence.
ghost use Rattle.std.specs.Prelude.{◌≡◌, None, IfOk, IfErr, OnOk};
ghost use Rattle.tmm_model.specs.declared.line.Query.TheVariants.{Bounds as BoundsLine, Path as PathLine, Ask as AskLine, Why as WhyQuery};
ghost use Rattle.tmm_model.specs.Answers.{ask, finding_of};
ghost use Rattle.tmm_model.specs.Bounds.{bound_negated};
ghost use Rattle.tmm_model.specs.Lines.{IsWellFormedQueryPoint, IsWellFormedOcc};
ghost use Rattle.tmm_model.specs.Maps.{built, gap};
ghost use Rattle.tmm_model.specs.Moments.{moment_of, moment_of_point};
ghost use Rattle.tmm_model.specs.Paths.{GivesPath};
ghost use Rattle.tmm_model.specs.Questions.{query_cause};
ghost use Rattle.spots.specs.OfLists.{IsForestOf, HasOccurrences};
ghost use Rattle.spots.specs.Spots.{IsSpot, spot_moment};
ghost use Rattle.occ_tree.specs.Places.{forest};
ghost use Rattle.supports.specs.TimeMaps.{IsTimeMap};
ghost use Rattle.map_core.specs.Heard.{AreWhy, Hears, HearsNothing};
ghost use Rattle.map_core.specs.Stops.{StopsQuery, NamesRefused};
ghost use Rattle.justify.specs.Questions.{points_cause, StopsPoints, NamesPoints};

use crate::reasons::why;
use crate::walks::steps_between;
use map_core::Listener;
use spots::Spot;
use std::alloc::Global;
use supports::TimeMap;
use tmm_model::{Answer, Bound, Name, NoMemory, Occ, PointName, QueryPoint, Seq, Stop, WalkStep};
use tt_query::{ask, bounds, name_refused, resolve};

// The spots of two points, the first cause from the left.
fn resolve_both(
    alloc: Global,
    map: &TimeMap<'_>,
    p: &QueryPoint,
    q: &QueryPoint,
) -> Result<(Spot, Spot), Stop>
    requires seen { IsTimeMap map.now }
    requires holds { HasOccurrences (built map.now.standing.now.present).believed (forest map.now.tree.now) }
    requires p_well_formed { IsWellFormedQueryPoint p.now }
    requires q_well_formed { IsWellFormedQueryPoint q.now }
    ensures known { IfOk result (λ spots. points_cause (built map.now.standing.now.present) p.now q.now ≡ None) }
    ensures from { IfOk result (λ spots. IsSpot map.now.net.now.present.names (forest map.now.tree.now) spots.0 × (spot_moment map.now.net.now.present.names (forest map.now.tree.now) spots.0 ≡ moment_of_point p.now)) }
    ensures to { IfOk result (λ spots. IsSpot map.now.net.now.present.names (forest map.now.tree.now) spots.1 × (spot_moment map.now.net.now.present.names (forest map.now.tree.now) spots.1 ≡ moment_of_point q.now)) }
    ensures stops { IfErr result (StopsPoints (built map.now.standing.now.present) p.now q.now) }
    ensures named { IfErr result (NamesPoints (built map.now.standing.now.present) p.now q.now) }
{
    let from = resolve(alloc, map.standing, map.tree, map.net, p)?;
    let to = resolve(alloc, map.standing, map.tree, map.net, q)?;
    Ok((from, to))
}

/// The lower and the upper bound on the date of the second point less that of the first.
pub fn bounds_between(
    alloc: Global,
    map: &TimeMap<'_>,
    p: &QueryPoint,
    q: &QueryPoint,
) -> Result<(Bound, Bound), Stop>
    requires seen { IsTimeMap map.now }
    requires holds { HasOccurrences (built map.now.standing.now.present).believed (forest map.now.tree.now) }
    requires p_well_formed { IsWellFormedQueryPoint p.now }
    requires q_well_formed { IsWellFormedQueryPoint q.now }
    ensures known { IfOk result (λ found. query_cause (built map.now.standing.now.present) (BoundsLine p.now q.now) ≡ None) }
    ensures low { IfOk result (λ found. found.0 ≡ bound_negated (gap (built map.now.standing.now.present) (moment_of_point q.now) (moment_of_point p.now))) }
    ensures high { IfOk result (λ found. found.1 ≡ gap (built map.now.standing.now.present) (moment_of_point p.now) (moment_of_point q.now)) }
    ensures stops { IfErr result (StopsQuery map.now.standing.now.present (BoundsLine p.now q.now)) }
    ensures named { IfErr result (NamesRefused map.now.standing.now.present (BoundsLine p.now q.now)) }
{
    let (from, to) = resolve_both(alloc, map, p, q)?;
    Ok(bounds(map.tree, map.net, from, to))
}

/// Whether a fact holds from one point to another.
pub fn ask_between(
    alloc: Global,
    map: &TimeMap<'_>,
    fact: Name,
    p: &QueryPoint,
    q: &QueryPoint,
) -> Result<Answer, Stop>
    requires seen { IsTimeMap map.now }
    requires holds { HasOccurrences (built map.now.standing.now.present).believed (forest map.now.tree.now) }
    requires p_well_formed { IsWellFormedQueryPoint p.now }
    requires q_well_formed { IsWellFormedQueryPoint q.now }
    ensures known { IfOk result (λ answer. query_cause (built map.now.standing.now.present) (AskLine fact p.now q.now) ≡ None) }
    ensures answer { IfOk result (λ answer. finding_of answer ≡ ask (built map.now.standing.now.present) fact (moment_of_point p.now) (moment_of_point q.now)) }
    ensures stops { IfErr result (StopsQuery map.now.standing.now.present (AskLine fact p.now q.now)) }
    ensures named { IfErr result (NamesRefused map.now.standing.now.present (AskLine fact p.now q.now)) }
{
    if let Err(refusal) = map.standing.check_fact(fact) {
        return Err(Stop::Refused(name_refused(refusal, PointName::Begin(fact))));
    }
    let (from, to) = resolve_both(alloc, map, p, q)?;
    match ask(alloc, map.standing, map.tree, map.net, fact, from, to) {
        Ok(answer) => Ok(answer),
        Err(NoMemory) => Err(Stop::NoMemory),
    }
}

/// The upper bound on the date of the second point less that of the first, and where there is one,
/// the constraints of a walk between their declared points.
pub fn path_between(
    alloc: Global,
    map: &TimeMap<'_>,
    p: &QueryPoint,
    q: &QueryPoint,
) -> Result<(Bound, Seq<WalkStep>), Stop>
    requires seen { IsTimeMap map.now }
    requires holds { HasOccurrences (built map.now.standing.now.present).believed (forest map.now.tree.now) }
    requires p_well_formed { IsWellFormedQueryPoint p.now }
    requires q_well_formed { IsWellFormedQueryPoint q.now }
    ensures known { IfOk result (λ found. query_cause (built map.now.standing.now.present) (PathLine p.now q.now) ≡ None) }
    ensures gives { IfOk result (λ found. GivesPath (built map.now.standing.now.present) (moment_of_point p.now) (moment_of_point q.now) found.0 found.1.items) }
    ensures stops { IfErr result (StopsQuery map.now.standing.now.present (PathLine p.now q.now)) }
    ensures named { IfErr result (NamesRefused map.now.standing.now.present (PathLine p.now q.now)) }
{
    let (from, to) = resolve_both(alloc, map, p, q)?;
    let (_, far) = bounds(map.tree, map.net, from, to);
    match steps_between(alloc, map.standing, map.tree, map.net, from, to, far) {
        Ok(steps) => Ok((far, steps)),
        Err(NoMemory) => Err(Stop::NoMemory),
    }
}

/// Tells the reasons of an occurrence.
pub fn tell_why<R: Listener>(
    alloc: Global,
    map: &TimeMap<'_>,
    occ: &Occ,
    listener: &mut R,
) -> Result<(), Stop>
    requires seen { IsTimeMap map.now }
    requires holds { HasOccurrences (built map.now.standing.now.present).believed (forest map.now.tree.now) }
    requires well_formed { IsWellFormedOcc occ.now }
    ensures known { OnOk result (query_cause (built map.now.standing.now.present) (WhyQuery occ.now) ≡ None) }
    ensures reasons { OnOk result (Hears R.parts_of (AreWhy (built map.now.standing.now.present) (moment_of occ.now)) (R.heard listener.old) (R.heard listener.new)) }
    ensures stops { IfErr result (StopsQuery map.now.standing.now.present (WhyQuery occ.now)) }
    ensures named { IfErr result (NamesRefused map.now.standing.now.present (WhyQuery occ.now)) }
    ensures unheard { IfErr result (HearsNothing (R.heard listener.old) (R.heard listener.new)) }
{
    why(alloc, map.standing, map.net, map.tree, occ, listener)
}
