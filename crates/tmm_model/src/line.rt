// What a line of a script says.
use crate::name::Name;
use crate::point::{Occ, QueryPoint};
use crate::premise::Edit;

/// A question about the map.
#[derive(Drop)]
pub enum Query {
    /// The bounds on the date of the second point less that of the first.
    Bounds(QueryPoint, QueryPoint),
    /// The upper bound on the same, and constraints that give it.
    Path(QueryPoint, QueryPoint),
    /// Whether the fact holds from the first point to the last.
    Ask(Name, QueryPoint, QueryPoint),
    /// The reasons of an occurrence.
    Why(Occ),
    /// The broken protections.
    Check,
    /// The believed occurrences.
    List,
    /// The standing premises, as a script.
    Dump,
    /// Whether the kept beliefs are those of the list, found anew from it.
    Audit,
    /// The size of the map.
    Size,
}

/// A line of a script, read.
#[derive(Drop)]
pub enum Line {
    /// A blank line or a comment.
    Silent,
    /// A change of the standing list.
    Change(Edit),
    /// A question, which changes nothing.
    Question(Query),
}
