// The earliest dates of points.
ghost use Rattle.std.specs.Prelude.{◌≡◌, ◌++◌, None, map, IfOk, OnOk};
ghost use Rattle.tmm_model.specs.Lines.{IsWellFormedPoint};
ghost use Rattle.tmm_model.specs.Maps.{built};
ghost use Rattle.tmm_model.specs.Moments.{At};
ghost use Rattle.tmm_model.specs.Standing.{points_of};
ghost use Rattle.tmm_model.specs.Verdicts.{place_cause};
ghost use Rattle.belief_theory.specs.KeptLists.{IsKept};
ghost use Rattle.list_theory.proofs.Elements.{In};
ghost use Rattle.timeline.specs.Days.{date, point_date, point_dates};
ghost use Rattle.timeline.specs.Told.{date_of};

use map_core::MapCore;
use std::alloc::Global;
use tmm_model::{Bound, NoMemory, PointDate, PointName, Premise, QueryPoint, Seq};

/// The earliest date of a declared point, in whole time units.
pub(crate) fn date_of<M: MapCore>(alloc: Global, core: &M, point: PointName) -> i64
    requires idle { M.pending core.now ≡ None }
    requires formed { IsWellFormedPoint point }
    requires declared { place_cause (M.list core.now).premises point ≡ None }
    ensures { result ≡ date (built (M.list core.now)) (At point) }
{
    let start = QueryPoint::Declared(PointName::Start);
    match core.bounds(alloc, &start, &QueryPoint::Declared(point)) {
        Ok((Bound::Finite(date), _)) => date,
        Ok((Bound::Free, _)) => 0,
        Err(_) => unreachable!(),
    }
}

/// The dates of all points but `start`, in the order of premises, a span's end after its begin.
pub(crate) fn point_dates<M: MapCore>(alloc: Global, core: &M) -> Result<Seq<PointDate>, NoMemory>
    requires idle { M.pending core.now ≡ None }
    requires kept { IsKept (M.list core.now) }
    ensures { IfOk result (λ dates. map date_of dates.items ≡ point_dates (built (M.list core.now))) }
{
    let standing = core.standing();
    let mut dates = Seq::make(alloc);
    for place in 0..standing.len() {
        if let Some(premise) = standing.at(place) {
            add_points(alloc, core, premise, &mut dates)?;
        }
    }
    Ok(dates)
}

// Adds the dates of the points that a premise declares.
fn add_points<M: MapCore>(
    alloc: Global,
    core: &M,
    premise: &Premise,
    dates: &mut Seq<PointDate>,
) -> Result<(), NoMemory>
    requires idle { M.pending core.now ≡ None }
    requires kept { IsKept (M.list core.now) }
    requires stands { In premise.now (M.list core.now).premises }
    ensures { OnOk result (map date_of dates.new.items ≡ map date_of dates.old.items ++ map (point_date (built (M.list core.now))) (points_of premise.now)) }
{
    for point in premise.points().as_slice() {
        let date = date_of(alloc, core, *point);
        dates.append(PointDate {
            point: *point,
            date,
        })?;
    }
    Ok(())
}
