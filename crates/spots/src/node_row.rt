// What is told of a node.
use tmm_model::{Bound, Name, Shape};

/// What is told of a node.
#[derive(Clone, Copy)]
pub struct NodeRow {
    /// The event whose effect it is, none for a root.
    pub parent: Option<u32>,
    /// The name of the root, or of the last rule.
    pub name: Name,
    /// The node of its root.
    pub root: u32,
    /// The number of rules.
    pub rules: u32,
    /// The sum of their least delays, in whole time units.
    pub low: i64,
    /// The sum of their most delays, none where one of them has no bound.
    pub high: Bound,
    /// The number of the root's point.
    pub begin: u16,
    /// The number of a span's end.
    pub end: Option<u16>,
    /// The kind of an event, or the fact of a token.
    pub what: Name,
    /// The class of a token's fact.
    pub class: Option<Name>,
    /// Whether it is an event, a persistence or a span.
    pub shape: Shape,
}
