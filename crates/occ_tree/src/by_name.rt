// The nodes of a tree under their names.
ghost use Rattle.std.specs.Prelude.{◌≡◌, ℕ, IfOk, MatchOption};
ghost use Rattle.tmm_model.specs.Moments.{moment_of};
ghost use Rattle.spots.specs.Forest.{IsLive, IsFound, moment_at};
ghost use Rattle.occ_tree.specs.Index.{IsIndex, key_of};
ghost use Rattle.occ_tree.specs.Named.{IsNamed};
ghost use Rattle.occ_tree.specs.Nodes.{ArePlaced};
ghost use Rattle.occ_tree.specs.Standing.{nodes_in, present_rows, present, forest};

use crate::node::Node;
use crate::tree::Tree;
use ancestors::ancestor_at;
use indexmap::IndexMap;
use std::alloc::Global;
use std::marker::Model;
use tmm_model::{Name, NoMemory, Occ};

// What tells a node from all others: its parent, none for a root, and its name.
#[derive(Clone, Copy, PartialEq, Eq, Hash)]
struct Key {
    parent: Option<u32>,
    name: Name,
}

impl Key {
    // Under what a node is found.
    fn of(node: &Node) -> Key
        ensures { result ≡ key_of node.now }
    {
        Key {
            parent: node.parent(),
            name: node.name,
        }
    }
}

/// The nodes of a tree under their parents and names, each found without a walk through its
/// siblings.
#[derive(Drop)]
pub struct ByName<'a> {
    tree: &'a Tree,
    numbers: IndexMap<Key, u32>,
}

impl<'a> Model for ByName<'a> {
    ghost use Rattle.occ_tree.specs.Standing.{Kept, nodes_in, present_rows};
    ghost use Rattle.occ_tree.specs.Index.{IsIndex};

    ghost Value = { Kept };

    ghost view = { λ b. b.tree.now };

    ghost invariant = { λ b. IsIndex (nodes_in (present_rows b.tree.now.nodes)) b.numbers.entries };
}

impl<'a> ByName<'a> {
    /// The nodes that a tree has. Without memory it answers that.
    pub fn of(alloc: Global, tree: &'a Tree) -> Result<ByName<'a>, NoMemory>
        ensures { IfOk result (λ index. index ≡ tree.now) }
    {
        let nodes = tree.nodes();
        let limit = nodes.limit();
        let mut numbers = IndexMap::new(alloc);
        for x in 0..limit {
            if nodes.is_live(x) {
                match numbers.insert(Key::of(nodes.get(x)), x) {
                    Ok(_) => {}
                    Err(_) => return Err(NoMemory),
                }
            }
        }
        Ok(ByName { tree, numbers })
    }

    /// The number of an occurrence, none exactly where no node is of it.
    pub fn find(&self, occ: &Occ) -> Option<u32>
        ensures { IsFound (forest (present self.now)) (moment_of occ.now) result }
    {
        let mut x = self.named(None, &occ.root)?;
        for rule in occ.rules.items() {
            x = self.named(Some(x), rule)?;
        }
        Some(x)
    }

    /// The number here of what is node `x` of another tree, none exactly where no node is of it.
    pub fn find_same(&self, other: &Tree, x: u32) -> Option<u32>
        requires { IsLive (forest (present other.now)) x }
        ensures { IsFound (forest (present self.now)) (moment_at (forest (present other.now)) x) result }
    {
        let nodes = other.nodes();
        let node = nodes.get(x);
        let mut same = self.named(None, &nodes.get(node.root(x)).name)?;
        for above in 0..node.depth {
            let at = ancestor_at(nodes, x, above + 1);
            same = self.named(Some(same), &nodes.get(at).name)?;
        }
        Some(same)
    }

    // The node of this name that has this parent; without one, the root of this name.
    fn named(&self, parent: Option<u32>, name: &Name) -> Option<u32>
        ensures named { MatchOption result ((x : ℕ) → IsNamed (nodes_in (present_rows self.now.nodes)) parent name.now x → ⊥) (IsNamed (nodes_in (present_rows self.now.nodes)) parent name.now) }
        ensures placed { ArePlaced (nodes_in (present_rows self.now.nodes)) }
    {
        // each node stands where it says
        let tree = self.tree;
        let _ = tree.nodes().limit();
        let key = Key {
            parent,
            name: *name,
        };
        self.numbers.get(&key).copied()
    }
}
