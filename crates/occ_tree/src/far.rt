// How far apart spots are.
ghost use Rattle.std.specs.Prelude.{◌≡◌, IsSome};
ghost use Rattle.tmm_model.specs.Bounds.{IfFinite, IsWithin};
ghost use Rattle.spots.specs.Light.{AreLight};
ghost use Rattle.spots.specs.OfLists.{HasList};
ghost use Rattle.spots.specs.Spots.{IsSpot, base_of, links_of, spot_distance};
ghost use Rattle.spots.specs.Sums.{AreSums, ArePartedBy};
ghost use Rattle.occ_tree.specs.Asked.{IsThere, AreOfOneRoot};
ghost use Rattle.occ_tree.specs.Nodes.{way_to};
ghost use Rattle.occ_tree.specs.Standing.{nodes_in, present_rows, present, forest};

use crate::nodes::Nodes;
use crate::tree::Tree;
use ancestors::lowest_common;
use dist_net::DistNet;
use spots::{Spot, Sums, between, less, plus};
use tmm_model::Bound;

impl Tree {
    /// The tightest upper bound on the date of the second spot less that of the first, in whole
    /// time units.
    pub fn far(&self, net: &DistNet, from: Spot, to: Spot) -> Bound
        requires list { HasList net.now.present (forest (present self.now)) }
        requires from { IsSpot net.now.present.names (forest (present self.now)) from }
        requires to { IsSpot net.now.present.names (forest (present self.now)) to }
        ensures exact { result ≡ spot_distance net.now.present (forest (present self.now)) from to }
        ensures small { IfFinite result (IsWithin 1000000000000000) }
    {
        let start = self.place(from);
        let end = self.place(to);
        if start.base == end.base {
            let shared = self.shared_sums(from, to);
            between(start.sums, end.sums, shared)
        } else {
            less(
                plus(net.far(start.base, end.base), end.sums.high()),
                start.sums.low,
            )
        }
    }

    // The sums of the rules that lead to both of two spots of one root.
    fn shared_sums(&self, from: Spot, to: Spot) -> Sums
        requires from { IsThere (forest (present self.now)) from }
        requires to { IsThere (forest (present self.now)) to }
        requires root { AreOfOneRoot (forest (present self.now)) from to }
        ensures { ArePartedBy result (links_of (forest (present self.now)) from) (links_of (forest (present self.now)) to) }
    {
        match from {
            Spot::Declared(_) => Sums::of_none(),
            Spot::Node(x) => match to {
                Spot::Declared(_) => Sums::of_none(),
                Spot::Node(y) => shared_sums(self.nodes(), x, y),
            },
        }
    }

    // Where a spot is.
    fn place(&self, spot: Spot) -> Place
        requires { IsThere (forest (present self.now)) spot }
        ensures base { result.base ≡ base_of (forest (present self.now)) spot }
        ensures sums { AreSums result.sums (links_of (forest (present self.now)) spot) }
        ensures light { AreLight (links_of (forest (present self.now)) spot) }
    {
        match spot {
            Spot::Declared(base) => Place {
                base,
                sums: Sums::of_none(),
            },
            Spot::Node(x) => {
                let node = self.nodes().get(x);
                Place {
                    base: node.begin,
                    sums: node.sums,
                }
            }
        }
    }
}

// Where a spot is: the declared point from which rules lead to it, and the sums of the rules.
#[derive(Clone, Copy)]
struct Place {
    base: u16,
    sums: Sums,
}

// The sums of the rules that lead to both of two nodes of one root.
fn shared_sums(nodes: &Nodes, x: u32, y: u32) -> Sums
    requires x_live { IsSome (nodes_in (present_rows nodes.now) x) }
    requires y_live { IsSome (nodes_in (present_rows nodes.now) y) }
    requires root { (way_to (nodes_in (present_rows nodes.now)) x).root ≡ (way_to (nodes_in (present_rows nodes.now)) y).root }
    ensures { ArePartedBy result (way_to (nodes_in (present_rows nodes.now)) x).links (way_to (nodes_in (present_rows nodes.now)) y).links }
{
    // each node stands where it says
    let _ = nodes.get(x);
    match lowest_common(nodes, x, y) {
        Some(last) => nodes.get(last).sums,
        None => Sums::of_none(),
    }
}
