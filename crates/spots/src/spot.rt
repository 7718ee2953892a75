// Spots in time.

/// A point in time: a declared point by its number in the network, or the begin of a node.
#[derive(Clone, Copy, PartialEq, Eq, Debug)]
pub enum Spot {
    /// The declared point of this number.
    Declared(u16),
    /// The beginning of the occurrence of this node.
    Node(u32),
}
