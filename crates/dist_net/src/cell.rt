// A bound in eight bytes.
ghost use Rattle.std.specs.Prelude.{◌≡◌, IsTrue, IsFalse, ◌↔◌, ◌≤ℤ◌};
ghost use Rattle.tmm_model.specs.Types.{IsSmall};
ghost use Rattle.tmm_model.specs.Bounds.{IfFinite, lesser};
ghost use Rattle.walk_theory.specs.LeastWalks.{AtMost};
ghost use Rattle.dist_net.specs.Cells.{addend_of, number_of, seen};

use std::marker::Model;
use tmm_model::Bound;

// stands for no bound. Four times as great would not fit, and twice does.
const NONE: i64 = i64::MAX / 4;

/// An upper bound on a distance, in half the room of a `Bound`.
#[derive(Clone, Copy)]
pub struct Cell {
    // the number, or `NONE`
    number: i64,
}

impl Model for Cell {
    ghost use Rattle.std.specs.Prelude.{pos, ◌≤ℤ◌};
    ghost use Rattle.tmm_model.specs.declared.bound.Bound.{Bound};
    ghost use Rattle.dist_net.specs.Cells.{number_of, seen, number_of-seen};

    ghost Value = { Bound };

    ghost view = { λ c. seen c.number };

    ghost invariant = { λ c. c.number ≤ℤ pos 2305843009213693951 };

    ghost inverse = { λ x. record { number = number_of x } };

    ghost inverse_ok = { λ a h. λ i. record { number = number_of-seen a.number h i } };
}

impl Cell {
    /// No bound.
    pub const FREE: Cell = Cell { number: NONE };

    /// The cell of this bound.
    pub fn of(bound: Bound) -> Cell
        requires { IsSmall bound }
        ensures { result ≡ bound }
    {
        match bound {
            Bound::Finite(number) => Cell { number },
            Bound::Free => Cell { number: NONE },
        }
    }

    /// Its bound.
    pub fn bound(self) -> Bound
        ensures { result ≡ self }
    {
        if self.number < NONE {
            Bound::Finite(self.number)
        } else {
            Bound::Free
        }
    }

    /// Whether the two are the same.
    pub fn is(self, other: Cell) -> bool
        ensures { IsTrue result ↔ (self ≡ other) }
    {
        self.number == other.number
    }

    /// A number for sums: that of the bound, or one that is so great that the sum with any way is
    /// no bound.
    pub fn addend(self) -> i64
        ensures { result ≡ addend_of self }
    {
        if self.number < NONE {
            self.number
        } else {
            2 * NONE
        }
    }

    /// Whether it is greater than a sum, of which those from `NONE` on are no bound.
    pub fn exceeds(self, sum: i64) -> bool
        ensures greater { IsTrue result → (seen sum ≡ Bound.Finite sum) × (AtMost self sum → ⊥) }
        ensures other { IsFalse result → IfFinite (seen sum) (AtMost self) }
    {
        sum < self.number
    }

    /// Whether it is no bound, or no less than a sum.
    pub fn reaches(self, sum: i64) -> bool
        ensures { IsTrue result → IfFinite self (λ number. sum ≤ℤ number) }
    {
        sum <= self.number
    }

    /// The less of the bound and a sum, of which those from `NONE` on are no bound.
    pub fn lesser(self, sum: i64) -> Cell
        ensures { result ≡ lesser self (seen sum) }
    {
        if sum < self.number {
            Cell { number: sum }
        } else {
            self
        }
    }
}

impl Default for Cell {
    /// No bound.
    fn default() -> Cell {
        Cell::FREE
    }
}
