// Spots in time with their earliest dates.
ghost use Rattle.std.specs.Prelude.{◌≡◌, ℤ};
ghost use Rattle.clipping.specs.ByDate.{AreDatesOn};

use tmm_model::Sure;

/// Points in time whose order is sure or not, with their earliest dates.
pub trait Dated: Sure {
    /// The earliest date of a spot.
    ghost date: { Self → Self.Spot → ℤ };

    /// The earliest date of a spot, in whole time units.
    fn date(&self, spot: Self::Spot) -> i64
        requires live { Self.live self.now spot }
        ensures { result ≡ date self.now spot };

    /// The dates meet the distances.
    ghost dated: { (s : Self) → AreDatesOn (Self.live s) (Self.distance s) (date s) };
}
