// Walks of constraints between the declared points of spots.
ghost use Rattle.std.specs.Prelude.{◌≡◌, IfOk};
ghost use Rattle.tmm_model.specs.Maps.{built, gap};
ghost use Rattle.tmm_model.specs.Paths.{WalksIf};
ghost use Rattle.spots.specs.Spots.{IsSpot, spot_moment, base_of};
ghost use Rattle.occ_tree.specs.OfLists.{IsTreeOf};
ghost use Rattle.occ_tree.specs.Places.{forest};

use dist_net::DistNet;
use neg_cycle::walk;
use occ_tree::Tree;
use premise_list::Standing;
use spots::Spot;
use std::alloc::Global;
use tmm_model::{Bound, NoMemory, Seq, WalkStep};

/// Where there is a bound, the constraints of a least walk between the declared points of two
/// spots; where there is none, no constraint. Without memory it answers that.
pub fn steps_between(
    alloc: Global,
    standing: &Standing,
    tree: &Tree,
    net: &DistNet,
    from: Spot,
    to: Spot,
    far: Bound,
) -> Result<Seq<WalkStep>, NoMemory>
    requires seen { IsTreeOf standing.now.present net.now.present tree.now }
    requires from { IsSpot net.now.present.names (forest tree.now) from }
    requires to { IsSpot net.now.present.names (forest tree.now) to }
    requires far { far ≡ gap (built standing.now.present) (spot_moment net.now.present.names (forest tree.now) from) (spot_moment net.now.present.names (forest tree.now) to) }
    ensures { IfOk result (λ steps. WalksIf (built standing.now.present) (spot_moment net.now.present.names (forest tree.now) from) (spot_moment net.now.present.names (forest tree.now) to) far steps.items) }
{
    match far {
        Bound::Free => Ok(Seq::make(alloc)),
        Bound::Finite(_) => {
            let a = base_point(tree, net, from);
            let b = base_point(tree, net, to);
            match walk(alloc, net, a, b)? {
                Some(steps) => Ok(steps),
                None => Ok(Seq::make(alloc)),
            }
        }
    }
}

// The number of the declared point from which rules lead to a spot.
fn base_point(tree: &Tree, net: &DistNet, spot: Spot) -> u16
    requires { IsSpot net.now.present.names (forest tree.now) spot }
    ensures { result ≡ base_of (forest tree.now) spot }
{
    match spot {
        Spot::Declared(p) => p,
        Spot::Node(x) => tree.row(x).begin,
    }
}
