// Whether a node is an occurrence, told by its word.
ghost use Rattle.std.specs.Prelude.{◌≡◌, IsTrue};
ghost use Rattle.tmm_model.specs.Moments.{moment_of};
ghost use Rattle.spots.specs.Forest.{IsLive, moment_at};
ghost use Rattle.occ_tree.specs.Places.{forest};

use occ_tree::Tree;
use tmm_model::Occ;

// Whether the number is of a node that is this occurrence. It goes up from the node, name by name,
// so it looks at no other effect of an event on the way.
pub(crate) fn is_at(tree: &Tree, x: u32, occ: &Occ) -> bool
    ensures { IsTrue result → IsLive (forest tree.now) x × (moment_at (forest tree.now) x ≡ moment_of occ.now) }
{
    tree.is_live(x) && is_told(tree, x, occ)
}

// Whether a node is this occurrence.
fn is_told(tree: &Tree, x: u32, occ: &Occ) -> bool
    requires { IsLive (forest tree.now) x }
    ensures { IsTrue result → moment_at (forest tree.now) x ≡ moment_of occ.now }
{
    let rules = occ.rules.items();
    let mut node = x;
    let mut left = rules.len();
    while left > 0 {
        left -= 1;
        let row = tree.row(node);
        let Some(parent) = row.parent else {
            return false;
        };
        if row.name != rules[left] {
            return false;
        }
        node = parent;
    }
    let row = tree.row(node);
    row.rules == 0 && row.name == occ.root
}
