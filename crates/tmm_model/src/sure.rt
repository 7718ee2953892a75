// What is sure about the spots at which tokens stand.
ghost use Rattle.std.specs.Prelude.{◌≡◌, Bool, ℤ, pos, ◌+ℤ◌, ◌≤ℤ◌, IsTrue, ◌↔◌};
ghost use Rattle.std.specs.declared.cmp.Ordering.{Ordering as Order};
ghost use Rattle.tmm_model.specs.declared.bound.Bound.{Bound};
ghost use Rattle.tmm_model.specs.declared.bound.Bound.TheVariants.{Finite};
ghost use Rattle.tmm_model.specs.Bounds.{bound_at_most, bound_plus};
ghost use Rattle.tmm_model.specs.Types.{IsTighter, IsOrderOn};

use std::cmp::Ordering;

/// What is sure about spots in time: their tightest distances, in whole time units, and a total
/// order of them.
pub trait Sure {
    /// A point in time.
    type Spot: Copy;

    /// Which spots are there.
    ghost live: { Self → Self.Spot → Type 0 };

    /// The upper bound on the date of the second spot less that of the first.
    ghost distance: { Self → Self.Spot → Self.Spot → Bound };

    /// Which of two spots is first.
    ghost order: { Self → Self.Spot → Self.Spot → Order };

    /// Whether `to` is surely at most `w` after `from`.
    fn at_most(&self, from: Self::Spot, to: Self::Spot, w: i64) -> bool
        requires from_live { live self.now from }
        requires to_live { live self.now to }
        ensures { result ≡ bound_at_most (distance self.now from to) w };

    /// The order of two spots.
    fn rank(&self, a: Self::Spot, b: Self::Spot) -> Ordering
        requires a_live { live self.now a }
        requires b_live { live self.now b }
        ensures { result ≡ order self.now a b };

    /// A spot is no distance from itself.
    ghost itself: { (s : Self) (p : Self.Spot) → live s p → distance s p p ≡ Finite (pos 0) };

    /// A way by a third spot is no shorter.
    ghost triangle: { (s : Self) (p q r : Self.Spot) → live s p → live s q → live s r → IsTighter (distance s p r) (bound_plus (distance s p q) (distance s q r)) };

    /// Two different spots never tie.
    ghost ordered: { (s : Self) → IsOrderOn (live s) (order s) };
}
