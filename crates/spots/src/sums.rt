// Sums over the rules on the way to an occurrence.
ghost use Rattle.std.specs.Prelude.{◌≡◌, List, [], ◌∷◌, ◌++◌};
ghost use Rattle.spots.specs.declared.link.Link.{Link as ALink};
ghost use Rattle.spots.specs.Light.{IsLight};
ghost use Rattle.spots.specs.Sums.{AreSums, HasRoom, IsFrontOf, ArePartedBy, HaveParted, high_of};
ghost use Rattle.spots.specs.Spots.{links_apart};
ghost use Rattle.tmm_model.specs.Bounds.{bound_plus, bound_less, IfFinite, IsWithin};

use crate::link::Link;
use tmm_model::Bound;

/// Sums of the delays of some rules, in whole time units.
#[derive(Clone, Copy)]
pub struct Sums {
    /// The least delays.
    pub low: i64,
    /// The most delays, of the rules that have one.
    pub bounded: i64,
    /// How many rules have none.
    pub unbounded: u32,
}

impl Sums {
    /// Those of no rules.
    pub fn of_none() -> Sums
        ensures { AreSums result [] }
    {
        Sums {
            low: 0,
            bounded: 0,
            unbounded: 0,
        }
    }

    /// Those with one rule more.
    pub fn with(self, link: &Link) -> Sums
        requires room { HasRoom self }
        requires light { IsLight link.now }
        ensures { (links : List ALink) → AreSums self links → AreSums result (links ++ link.now ∷ []) }
    {
        let low = self.low + link.lo;
        match link.hi {
            Bound::Finite(hi) => Sums {
                low,
                bounded: self.bounded + hi,
                ..self
            },
            Bound::Free => Sums {
                low,
                unbounded: self.unbounded + 1,
                ..self
            },
        }
    }

    /// Those of the rules behind the first ones, whose sums are given.
    pub fn behind(self, first: Sums) -> Sums
        requires { IsFrontOf first self }
        ensures { (u v : List ALink) → AreSums first u → AreSums self (u ++ v) → AreSums result v }
    {
        Sums {
            low: self.low - first.low,
            bounded: self.bounded - first.bounded,
            unbounded: self.unbounded - first.unbounded,
        }
    }

    /// The most time that the rules take, in whole time units; none where one of them has no bound.
    pub fn high(self) -> Bound
        ensures { result ≡ high_of self.bounded self.unbounded }
    {
        if self.unbounded == 0 {
            Bound::Finite(self.bounded)
        } else {
            Bound::Free
        }
    }
}

/// From where some rules lead to where others lead, from one point, by the sums of those, of the
/// others, and of the rules that both begin with.
pub fn between(from: Sums, to: Sums, shared: Sums) -> Bound
    requires { HaveParted from to shared }
    ensures exact { (u v : List ALink) → ArePartedBy shared u v → AreSums from u → AreSums to v → result ≡ links_apart u v }
    ensures small { IfFinite result (IsWithin 200000000000000) }
{
    less(to.behind(shared).high(), from.behind(shared).low)
}

/// One bound and then another, none where a part is none.
pub fn plus(first: Bound, second: Bound) -> Bound
    requires first { IfFinite first (IsWithin 1000000000000000) }
    requires second { IfFinite second (IsWithin 1000000000000000) }
    ensures { result ≡ bound_plus first second }
{
    match (first, second) {
        (Bound::Finite(x), Bound::Finite(y)) => Bound::Finite(x + y),
        _ => Bound::Free,
    }
}

/// A bound less a number.
pub fn less(bound: Bound, by: i64) -> Bound
    requires bound { IfFinite bound (IsWithin 1000000000000000) }
    requires by { IsWithin 1000000000000000 by }
    ensures { result ≡ bound_less bound by }
{
    match bound {
        Bound::Finite(x) => Bound::Finite(x - by),
        Bound::Free => Bound::Free,
    }
}
