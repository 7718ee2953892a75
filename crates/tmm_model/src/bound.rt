// Upper bounds on distances.
ghost use Rattle.std.specs.Prelude.{◌≡◌, ℕ, ◌+◌, ◌-◌, ◌<◌, ◌≤◌, length, IsTrue, ◌↔◌};
ghost use Rattle.tmm_model.specs.Bounds.{lesser, bound_negated, IsWithin};
ghost use Rattle.tmm_model.specs.Types.{through, IsSmall};

/// An upper bound on the distance from one point to another, in whole time units: a number, or
/// none.
#[derive(Clone, Copy, PartialEq, Eq, Debug)]
pub enum Bound {
    /// The distance is at most this number.
    Finite(i64),
    /// There is no bound; shown as `*`.
    Free,
}

impl Bound {
    /// The less of the two.
    pub fn lesser(self, other: Bound) -> Bound
        ensures { result ≡ lesser self other }
    {
        match self {
            Bound::Finite(x) => match other {
                Bound::Finite(y) => Bound::Finite(if y < x { y } else { x }),
                Bound::Free => self,
            },
            Bound::Free => other,
        }
    }

    /// This distance, a step of this weight, and the other distance, one after the other.
    pub fn through(self, weight: i64, rest: Bound) -> Bound
        requires first { IsSmall self }
        requires step { IsWithin 1000000000 weight }
        requires second { IsSmall rest }
        ensures { result ≡ through self weight rest }
    {
        match self {
            Bound::Finite(x) => match rest {
                Bound::Finite(y) => Bound::Finite(x + weight + y),
                Bound::Free => Bound::Free,
            },
            Bound::Free => Bound::Free,
        }
    }

    /// With its sign turned: the lower bound on the distance the other way.
    pub fn negated(self) -> Bound
        requires { IsSmall self }
        ensures { result ≡ bound_negated self }
    {
        match self {
            Bound::Finite(x) => Bound::Finite(-x),
            Bound::Free => Bound::Free,
        }
    }

    /// Whether the two are the same.
    pub fn is(self, other: Bound) -> bool
        ensures { IsTrue result ↔ (self ≡ other) }
    {
        match self {
            Bound::Finite(x) => match other {
                Bound::Finite(y) => x == y,
                Bound::Free => false,
            },
            Bound::Free => match other {
                Bound::Finite(_) => false,
                Bound::Free => true,
            },
        }
    }
}
