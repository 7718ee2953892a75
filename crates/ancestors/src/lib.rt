//! Common ancestors of nodes of a tree.
//!
//! It stands on no other crate. An `Ancestry` knows of each node how deep it is, the node right
//! above it, and one node further up to which it jumps. Nodes of one depth jump to one depth, so
//! two of them go up side by side, and what they share is found in a number of steps that goes with
//! the logarithm of their depth. No call takes memory.
#![tactic(auto)]

ghost use Rattle.std.specs.Prelude.{◌≡◌, ℕ, List, ◌+◌, ◌<◌, ◌≤◌, [], ◌∷◌, ◌++◌, length, take, MatchOption, IfSome};
ghost use Rattle.ancestors.specs.Ways.{IsNode, EndsWith, shared_front};
ghost use Rattle.ancestors.specs.Jumps.{jump_depth};

/// The nodes of a tree, or of several, by their numbers.
pub trait Ancestry {
    /// The nodes on the way to a node, its root first and itself last; none where the number is of
    /// no node.
    ghost way: { Self → ℕ → List ℕ };

    /// How many nodes are above a node.
    fn depth(&self, x: u32) -> u32
        requires { IsNode (way self.now) x }
        ensures { length (way self.now x) ≡ result + 1 };

    /// The node right above one that is no root.
    fn parent(&self, x: u32) -> u32
        requires { 1 < length (way self.now x) }
        ensures { way self.now x ≡ way self.now result ++ x ∷ [] };

    /// The node on the way to one that has the depth to which nodes of its depth jump.
    fn jump(&self, x: u32) -> u32
        requires { IsNode (way self.now) x }
        ensures { (d : ℕ) → length (way self.now x) ≡ d + 1 → way self.now result ≡ take (jump_depth d + 1) (way self.now x) };

    /// The way to a node ends with it.
    ghost ends: { (s : Self) (x : ℕ) → IsNode (way s) x → EndsWith (way s x) x };
}

/// The node to which a new node right below another is to jump.
pub fn jump_below<A: Ancestry>(tree: &A, parent: u32) -> u32
    requires { IsNode (A.way tree.now) parent }
    ensures { (d : ℕ) → length (A.way tree.now parent) ≡ d + 1 → A.way tree.now result ≡ take (jump_depth (d + 1) + 1) (A.way tree.now parent) }
{
    let first = tree.jump(parent);
    let second = tree.jump(first);
    let depth = tree.depth(first);
    if tree.depth(parent) - depth == depth - tree.depth(second) {
        second
    } else {
        parent
    }
}

/// The node of this depth on the way to another.
pub fn ancestor_at<A: Ancestry>(tree: &A, x: u32, depth: u32) -> u32
    requires node { depth < length (A.way tree.now x) }
    ensures { A.way tree.now result ≡ take (depth + 1) (A.way tree.now x) }
{
    let mut at = x;
    while tree.depth(at) > depth {
        at = nearer(tree, at, depth);
    }
    at
}

// A node further up that is not above the depth.
fn nearer<A: Ancestry>(tree: &A, x: u32, depth: u32) -> u32
    requires { depth + 1 < length (A.way tree.now x) }
    ensures within { (depth < length (A.way tree.now result)) × (length (A.way tree.now result) < length (A.way tree.now x)) }
    ensures front { A.way tree.now result ≡ take (length (A.way tree.now result)) (A.way tree.now x) }
{
    let jump = tree.jump(x);
    if tree.depth(jump) >= depth {
        jump
    } else {
        tree.parent(x)
    }
}

/// The last node that is on the ways to both, none exactly where no node is.
pub fn lowest_common<A: Ancestry>(tree: &A, x: u32, y: u32) -> Option<u32>
    requires x { IsNode (A.way tree.now) x }
    requires y { IsNode (A.way tree.now) y }
    ensures shared { MatchOption result (shared_front (A.way tree.now x) (A.way tree.now y) ≡ []) (λ z. A.way tree.now z ≡ shared_front (A.way tree.now x) (A.way tree.now y)) }
    ensures node { IfSome result (IsNode (A.way tree.now)) }
{
    let depth = tree.depth(x).min(tree.depth(y));
    let mut first = ancestor_at(tree, x, depth);
    let mut second = ancestor_at(tree, y, depth);
    while first != second {
        if tree.depth(first) == 0 {
            return None;
        }
        let both = (tree.jump(first), tree.jump(second));
        if both.0 == both.1 {
            first = tree.parent(first);
            second = tree.parent(second);
        } else {
            (first, second) = both;
        }
    }
    Some(first)
}

#[cfg(test)]
mod tests;
