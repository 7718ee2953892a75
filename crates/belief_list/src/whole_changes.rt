// What an edit changes, of beliefs and of protections.
ghost use Rattle.std.specs.Prelude.{◌≡◌};

use crate::changes::BeliefChanges;
use tmm_model::{Changes, Name, Report, Seq};

/// These changes together.
pub fn with_protections(
    erased: Seq<Name>,
    believed: BeliefChanges,
    broken: Seq<Report>,
    mended: Seq<Name>,
) -> Changes
    ensures { result ≡ record { erased = erased; left = believed.left; entered = believed.entered; loose = believed.loose; clips = believed.clips; broken = broken; mended = mended } }
{
    let BeliefChanges {
        left,
        entered,
        loose,
        clips,
    } = believed;
    Changes {
        erased,
        left,
        entered,
        loose,
        clips,
        broken,
        mended,
    }
}
