// What a node keeps.
ghost use Rattle.std.specs.Prelude.{◌≡◌};
ghost use Rattle.occ_tree.specs.Nodes.{link_of, parent_of, root_of, jump_of};
ghost use Rattle.occ_tree.specs.Standing.{head_for};

use spots::{Link, Sums};
use tmm_model::{Bound, Name, Shape};

/// Which nodes stand above one that is no root.
#[derive(Clone, Copy)]
pub struct Above {
    /// The node of the event whose effect it is.
    pub parent: u32,
    /// The node of its root.
    pub root: u32,
    /// A node further up, from which it is not far to any other above.
    pub jump: u32,
}

/// An occurrence, and where it stands in the tree.
#[derive(Clone, Copy)]
pub struct Node {
    /// The name of the root, or of the last rule.
    pub name: Name,
    /// The least delay of that rule, in whole time units.
    pub lo: i64,
    /// Its most delay, none where it has no bound.
    pub hi: Bound,
    /// The nodes above it, none for a root.
    pub above: Option<Above>,
    /// How many rules lead to it.
    pub depth: u32,
    /// The sums of their delays.
    pub sums: Sums,
    /// The number of the root's point.
    pub begin: u16,
    /// The number of a span's end.
    pub end: Option<u16>,
    /// The kind of an event, or the fact of a token.
    pub what: Name,
    /// The class of a token's fact.
    pub class: Option<Name>,
    /// The small number of that class.
    pub list: Option<u32>,
    /// Whether it is an event, a persistence or a span.
    pub shape: Shape,
    /// Its earliest date, in whole time units.
    pub early: i64,
}

impl Node {
    // The rule that leads to it from its parent; of a root, its name.
    pub(crate) fn link(&self) -> Link
        ensures { result ≡ link_of self.now }
    {
        Link {
            rule: self.name,
            lo: self.lo,
            hi: self.hi,
        }
    }

    // The node right above it, none for a root.
    pub(crate) fn parent(&self) -> Option<u32>
        ensures { result ≡ parent_of self.now }
    {
        Some(self.above?.parent)
    }

    // The root of node x, which this is.
    pub(crate) fn root(&self, x: u32) -> u32
        ensures { result ≡ root_of x self.now }
    {
        match self.above {
            Some(above) => above.root,
            None => x,
        }
    }

    // Where node x jumps, which this is.
    pub(crate) fn jump(&self, x: u32) -> u32
        ensures { result ≡ jump_of x self.now }
    {
        match self.above {
            Some(above) => above.jump,
            None => x,
        }
    }
}
