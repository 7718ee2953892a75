// Small changes that mend a broken protection.
use crate::name::Name;
use crate::point::PointName;

/// A small change of the standing premises.
#[derive(Clone, Copy, PartialEq, Eq, Debug)]
pub enum Fix {
    /// To add a constraint: the second point is at least `lo` whole time units after the first.
    Add {
        from: PointName,
        to: PointName,
        lo: i64,
    },
    /// To erase the premise of this name.
    Erase(Name),
    /// To give up the lower bound of the constraint of this name.
    LoosenLo(Name),
    /// To give up the upper bound of the constraint of this name.
    LoosenHi(Name),
}
