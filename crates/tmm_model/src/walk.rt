// Constraints as steps of a walk.
use crate::name::Name;
use crate::point::PointName;

/// Which of a premise's constraints a step is.
#[derive(Clone, Copy, PartialEq, Eq, Debug)]
pub enum Side {
    /// The upper bound of a `dist`.
    Hi,
    /// The lower bound of a `dist`.
    Lo,
    /// No point is before `start`.
    Base,
    /// A span lasts at least 1 time unit.
    Length,
}

/// A constraint of a premise: the date of `to` is at most `weight` whole time units after that of
/// `from`.
#[derive(Clone, Copy, PartialEq, Eq, Debug)]
pub struct WalkStep {
    /// The name of the premise.
    pub premise: Name,
    /// Which of its constraints it is.
    pub side: Side,
    /// The point from which it leads.
    pub from: PointName,
    /// The point to which it leads.
    pub to: PointName,
    /// In whole time units.
    pub weight: i64,
}
