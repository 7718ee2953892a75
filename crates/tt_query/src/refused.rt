// How a refusal names what is refused.
ghost use Rattle.std.specs.Prelude.{◌≡◌, Option};
ghost use Rattle.tmm_model.specs.Points.{point_word};
ghost use Rattle.tmm_model.specs.Verdicts.{Cause, Tells, told_cause};
ghost use Rattle.map_core.specs.Naming.{Names};
ghost use Rattle.tt_query.specs.Stops.{IsOfWord};

use tmm_model::{PointName, QueryPoint, Refusal};

/// The refusal of a word, which names it as this point.
pub fn name_refused(refusal: Refusal, point: PointName) -> Refusal
    requires { (cause : Option Cause) × Tells refusal cause × IsOfWord (point_word point) cause }
    ensures told { told_cause result ≡ told_cause refusal }
    ensures named { Names (QueryPoint.Declared point) result }
{
    match refusal {
        Refusal::Unknown(_) => Refusal::Unknown(QueryPoint::Declared(point)),
        Refusal::Sort(_) => Refusal::Sort(QueryPoint::Declared(point)),
        other => other,
    }
}
