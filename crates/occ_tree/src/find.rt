// Nodes by their occurrences.
ghost use Rattle.std.specs.Prelude.{ℕ, IsSome, IfSome, MatchOption};
ghost use Rattle.tmm_model.specs.Moments.{After, moment_of};
ghost use Rattle.spots.specs.Forest.{IsFound, IsLive, moment_at};
ghost use Rattle.occ_tree.specs.Named.{IsNamed};
ghost use Rattle.occ_tree.specs.Nodes.{ArePlaced};
ghost use Rattle.occ_tree.specs.Standing.{nodes_in, present_rows, present, forest};

use crate::nodes::Nodes;
use crate::tree::Tree;
use tmm_model::{Name, Occ};

impl Tree {
    /// The number of an occurrence, none exactly where no node is of it. It looks through the
    /// roots, and for each rule through what is right below a node.
    pub fn find(&self, occ: &Occ) -> Option<u32>
        ensures { IsFound (forest (present self.now)) (moment_of occ.now) result }
    {
        let nodes = self.nodes();
        let mut x = named(nodes, None, &occ.root)?;
        for rule in occ.rules.items() {
            x = named(nodes, Some(x), rule)?;
        }
        Some(x)
    }

    /// The number of what a rule leads to from a node, none exactly where no node is of it. It
    /// looks through what is right below the node.
    pub fn find_effect(&self, x: u32, rule: &Name) -> Option<u32>
        requires { IsLive (forest (present self.now)) x }
        ensures { IsFound (forest (present self.now)) (After (moment_at (forest (present self.now)) x) rule.now) result }
    {
        named(self.nodes(), Some(x), rule)
    }
}

// The node of this name that has this parent; without one, the root of this name.
fn named(nodes: &Nodes, parent: Option<u32>, name: &Name) -> Option<u32>
    requires { IfSome parent (λ p. IsSome (nodes_in (present_rows nodes.now) p)) }
    ensures named { MatchOption result ((x : ℕ) → IsNamed (nodes_in (present_rows nodes.now)) parent name.now x → ⊥) (IsNamed (nodes_in (present_rows nodes.now)) parent name.now) }
    ensures placed { ArePlaced (nodes_in (present_rows nodes.now)) }
{
    let mut next = nodes.first(parent);
    while let Some(x) = next {
        if nodes.get(x).name == *name {
            return Some(x);
        }
        next = nodes.next(x);
    }
    None
}
