// What happens where each point comes at its earliest date.
use crate::bound::Bound;
use crate::name::Name;
use crate::point::{Occ, PointName};
use crate::seq::Seq;

/// The earliest date of a point.
#[derive(Drop)]
pub struct PointDate {
    /// The point.
    pub point: PointName,
    /// Its date, in whole time units.
    pub date: i64,
}

/// An occurrence on its date.
#[derive(Drop)]
pub struct Dated {
    /// Its date, in whole time units.
    pub date: i64,
    /// The occurrence.
    pub occ: Occ,
    /// The kind of an event, or the fact of a token.
    pub what: Name,
    /// When a token ends, in whole time units, and no number where it lasts; none for an event.
    pub until: Option<Bound>,
}

/// What happens where each point comes at its earliest date.
#[derive(Drop)]
pub struct Timeline {
    /// The points in the order of their premises, a span's end after its begin.
    pub points: Seq<PointDate>,
    /// What occurs, by date and then by name.
    pub rows: Seq<Dated>,
}
