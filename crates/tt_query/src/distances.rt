// The bounds on the distance of two spots.
ghost use Rattle.std.specs.Prelude.{◌≡◌};
ghost use Rattle.tmm_model.specs.Bounds.{bound_negated, IfFinite, IsWithin};
ghost use Rattle.tmm_model.specs.Maps.{built, gap};
ghost use Rattle.tmm_model.specs.Standing.{Standing};
ghost use Rattle.spots.specs.OfLists.{IsForestOf, HasList};
ghost use Rattle.spots.specs.Spots.{IsSpot, spot_moment};
ghost use Rattle.occ_tree.specs.OfLists.{IsTreeIn};
ghost use Rattle.occ_tree.specs.Places.{forest};

use dist_net::DistNet;
use occ_tree::Tree;
use spots::Spot;
use tmm_model::Bound;

/// The lower and the upper bound on the date of the second spot less that of the first, in whole
/// time units.
pub fn bounds(tree: &Tree, net: &DistNet, p: Spot, q: Spot) -> (Bound, Bound)
    requires dates { IsTreeIn net.now.present tree.now }
    requires p { IsSpot net.now.present.names (forest tree.now) p }
    requires q { IsSpot net.now.present.names (forest tree.now) q }
    ensures low { (s : Standing) → IsForestOf s net.now.present (forest tree.now) → result.0 ≡ bound_negated (gap (built s) (spot_moment net.now.present.names (forest tree.now) q) (spot_moment net.now.present.names (forest tree.now) p)) }
    ensures high { (s : Standing) → IsForestOf s net.now.present (forest tree.now) → result.1 ≡ gap (built s) (spot_moment net.now.present.names (forest tree.now) p) (spot_moment net.now.present.names (forest tree.now) q) }
{
    (negated(tree.far(net, q, p)), tree.far(net, p, q))
}

// With its sign turned: the lower bound on the distance the other way.
fn negated(bound: Bound) -> Bound
    requires { IfFinite bound (IsWithin 1000000000000000) }
    ensures { result ≡ bound_negated bound }
{
    match bound {
        Bound::Finite(x) => Bound::Finite(-x),
        Bound::Free => Bound::Free,
    }
}
