// What an edit changes, of beliefs and of protections.
ghost use Rattle.std.specs.Prelude.{◌≡◌, map, IfOk};
ghost use Rattle.tmm_model.specs.Answers.{reports, report_of};
ghost use Rattle.tmm_model.specs.Changes.{changes, delta, delta_of};
ghost use Rattle.tmm_model.specs.Maps.{TimeMap, built};
ghost use Rattle.tmm_model.specs.Standing.{Standing as List};
ghost use Rattle.list_theory.specs.LeftOut.{IsLeftOut};
ghost use Rattle.belief_list.specs.Compared.{AreChanges};

use belief_list::{BeliefChanges, with_protections};
use premise_list::Standing;
use protections::delta;
use std::alloc::Global;
use tmm_model::{Changes, Name, NoMemory, Report, Seq};

// What changes from the map of one list to that of another, from which these premises are gone,
// where it is told what changes of belief.
pub(crate) fn with_reports(
    alloc: Global,
    standing: &Standing,
    erased: Seq<Name>,
    believed: BeliefChanges,
    before: &[Report],
    after: &[Report],
) -> Result<Changes, NoMemory>
    ensures { (list : List) → map report_of before.now ≡ reports (built list) → map report_of after.now ≡ reports (built standing.now.present)
        → AreChanges (built list) (built standing.now.present) believed → IsLeftOut list standing.now.present erased.items
        → IfOk result (λ told. delta_of told ≡ changes list standing.now.present) }
{
    let (broken, mended) = delta(alloc, before, after, standing)?;
    Ok(with_protections(erased, believed, broken, mended))
}
