// Tokens of facts.
use crate::name::Name;

/// What an occurrence is.
#[derive(Clone, Copy, PartialEq, Eq, Debug)]
pub enum Shape {
    /// An event of a kind.
    Event,
    /// A token that lasts until it is clipped.
    Persistence,
    /// A token with a declared end.
    Span,
}

/// A token of a fact that begins at a spot. A span has an end; a persistence has none.
#[derive(Clone, Copy)]
pub struct TokenRow<P> {
    /// Where it begins.
    pub spot: P,
    /// Where a span ends.
    pub end: Option<P>,
    /// Its fact.
    pub fact: Name,
    /// The class that declares its fact.
    pub class: Name,
}
