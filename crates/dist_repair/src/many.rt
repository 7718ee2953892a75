// The way to take many edges out.
ghost use Rattle.std.specs.Prelude.{◌≡◌, ◌<◌, ◌≤◌, length, take};

use crate::ends::Ends;
use crate::{erase_edge, hold, is_tight, keeps_row, list_ends};
use dist_net::DistNet;

// Up to so many edges are taken out one by one: those of a premise, or of a point with a few
// constraints, mostly leave most distances as they are.
const FEW: usize = 16;

// Of more, so many that distances may change without are taken out one by one, and then all
// distances are found from nothing.
const SOME: usize = 4;

// Where more fall than this, looking at each of them takes longer than finding all distances from
// nothing.
const MANY: usize = 256;

/// Takes out the edges from the place on, the last first. An edge without which all distances stay
/// costs little. Where many others are left, all distances are found from nothing, once.
pub fn erase_from(net: &mut DistNet, first: usize)
    requires { first ≤ length net.old.present.edges }
    ensures present { net.new.present ≡ record net.old.present { edges = take first net.old.present.edges } }
    ensures committed { net.new.committed ≡ net.old.committed }
{
    let count = net.edges().len();
    if count - first > MANY {
        net.keep_edges(first);
        return;
    }
    let few = count - first <= FEW;
    let mut left = SOME;
    for place in (first..count).rev() {
        if !few && !is_needless(net, place) {
            if left == 0 {
                net.keep_edges(first);
                return;
            }
            left -= 1;
        }
        erase_edge(net, place);
    }
}

// Whether all distances surely stay without the edge. Where it says no they may stay as well.
fn is_needless(net: &DistNet, place: usize) -> bool
    requires { place < length net.now.present.edges }
{
    net.invariants();
    let from = net.edges()[place].from;
    if !is_tight(net, place, from) {
        return true;
    }
    let mut ends = Ends::none();
    list_ends(net, &mut ends);
    let held = hold(net, place, from, &ends);
    keeps_row(net, place, from, &held)
}
