// The distances to a point to which one edge alone leads, without that edge.
ghost use Rattle.std.specs.Prelude.{◌≡◌, ℕ, ◌<◌, length, IsTrue};
ghost use Rattle.dist_net.specs.Net.{IsInUse, IsFarWithout, entry};
ghost use Rattle.dist_repair.specs.Rows.{IsFrom, IsPresentRow};
ghost use Rattle.dist_repair.specs.Ways.{IsWayIn, KeepsEnd};

use crate::is_suspect;
use dist_net::{Cell, DistNet};

/// Whether the edge alone leads to its end, and each edge from there leads to a point to which the
/// distance of the edge's beginning surely stays without it. Then no way but those to its end needs
/// the edge.
pub(crate) fn is_way_in(net: &DistNet, place: usize, from: u16) -> bool
    requires place { place < length net.now.present.edges }
    requires from { IsFrom net.now.present place from }
    requires row { IsInUse net.now.present.names from }
    ensures { IsTrue result → IsWayIn net.now.present place from }
{
    let edges = net.edges();
    let to = edges[place].to;
    if from == to {
        return false;
    }
    for i in 0..edges.len() {
        if i != place {
            let edge = &edges[i];
            if edge.to == to {
                return false;
            }
            if edge.from == to {
                if !keeps_end(net, place, from, i) {
                    return false;
                }
            }
        }
    }
    true
}

// Whether the distance from the edge's beginning to the end of the edge at i surely stays.
fn keeps_end(net: &DistNet, place: usize, from: u16, i: usize) -> bool
    requires place { place < length net.now.present.edges }
    requires from { IsFrom net.now.present place from }
    requires row { IsInUse net.now.present.names from }
    requires i { i < length net.now.present.edges }
    ensures { IsTrue result → KeepsEnd net.now.present place from i }
{
    net.invariants();
    let to = net.edges()[i].to;
    if to == from {
        return true;
    }
    !is_suspect(net, place, from, to)
}

/// Drafts that there is no way to the edge's end but from itself.
pub(crate) fn draft_in(net: &mut DistNet, place: usize, from: u16)
    requires place { place < length net.old.present.edges }
    requires from { IsFrom net.old.present place from }
    requires way { IsWayIn net.old.present place from }
    requires draft { (a : ℕ) → IsInUse net.old.present.names a → IsPresentRow net.old.present a (entry net.old.draft a) }
    ensures far { IsFarWithout net.old.present place net.new.draft }
    ensures present { net.new.present ≡ net.old.present }
    ensures committed { net.new.committed ≡ net.old.committed }
{
    net.invariants();
    let to = net.edges()[place].to;
    let limit = net.limit();
    for a in 0..limit {
        if a != to {
            net.set_draft(a, to, Cell::FREE);
        }
    }
}
