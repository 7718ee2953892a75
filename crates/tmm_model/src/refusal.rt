// Why a line is refused.
ghost use Rattle.std.specs.Prelude.{◌≡◌};

use crate::memory::NoMemory;
use crate::point::QueryPoint;
use crate::seq::Seq;
use crate::walk::WalkStep;

/// Why a line is refused. A word is given as it stands in the line: a plain name as the begin of
/// that name, the word `start` among them.
#[derive(Drop)]
pub enum Refusal {
    /// The line has more than 400 bytes.
    LimitLine,
    /// The line is in no form of the grammar, or opens a version that the list does not take.
    Form,
    /// The line declares this word, which is reserved or declared.
    Taken(QueryPoint),
    /// This word is not declared.
    Unknown(QueryPoint),
    /// This word is declared as something else than is wanted here.
    Sort(QueryPoint),
    /// 2,000 premises stand, and one more is declared.
    LimitPremises,
    /// There would be more than 256 points.
    LimitPoints,
    /// No dates satisfy the constraint: it closes this walk, whose sum is negative, in whole time
    /// units.
    Cycle { sum: i64, steps: Seq<WalkStep> },
    /// The size of the map would be above 100,000.
    LimitSize,
}

/// Why a call gives no answer.
#[derive(Drop)]
pub enum Stop {
    /// The line is refused, for this cause.
    Refused(Refusal),
    /// There was no memory.
    NoMemory,
}

impl From<NoMemory> for Stop {
    ghost use Rattle.tmm_model.specs.declared.refusal.Stop.TheVariants.{NoMemory as Wanting};

    ghost from_gives = { λ _ stop. stop ≡ Wanting };

    fn from(_: NoMemory) -> Stop {
        Stop::NoMemory
    }
}
