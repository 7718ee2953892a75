// The distances from a point to which no edge leads, without one of the edges that begin there.
ghost use Rattle.std.specs.Prelude.{◌≡◌, ◌≢◌, ◌<◌, length, slice_index_or, MatchOption};
ghost use Rattle.tmm_model.specs.Bounds.{after};
ghost use Rattle.walk_theory.specs.LeastWalks.{IsFar};
ghost use Rattle.dist_net.specs.declared.Edge.{Edge};
ghost use Rattle.dist_net.specs.Net.{IsInUse, entry, arcs_of};
ghost use Rattle.dist_repair.specs.Rows.{rest_of, IsFrom, IsPresentRow, IsFarRow, ChangesRow};
ghost use Rattle.dist_repair.specs.Ways.{AreWaysOut};

use arrayvec::ArrayVec;
use dist_net::{Cell, DistNet};
use tmm_model::Bound;

// Where more edges begin at a point, its row is found as any other.
const FEW: usize = 16;

/// The places of the other edges that begin where the edge does, if no edge leads there and these
/// are few.
pub(crate) fn ways_out(net: &DistNet, place: usize, from: u16) -> Option<ArrayVec<u16, FEW>>
    ensures { MatchOption result (Unit {0}) (λ list. AreWaysOut net.now.present place from list.items) }
{
    let edges = net.edges();
    let mut list = ArrayVec::new();
    for i in 0..edges.len() {
        let edge = &edges[i];
        if edge.to == from {
            return None;
        }
        if edge.from == from {
            if i != place {
                if list.is_full() {
                    return None;
                }
                list.push(i as u16);
            }
        }
    }
    Some(list)
}

/// Drafts the distances from the point over the listed edges.
pub(crate) fn draft_out(net: &mut DistNet, place: usize, from: u16, list: &[u16])
    requires place { place < length net.old.present.edges }
    requires row { IsInUse net.old.present.names from }
    requires from { IsFrom net.old.present place from }
    requires list { AreWaysOut net.old.present place from list.now }
    requires draft { IsPresentRow net.old.present from (entry net.old.draft from) }
    ensures far { IsFarRow net.old.present place from (entry net.new.draft from) }
    ensures changes { ChangesRow from net.old net.new }
{
    net.invariants();
    let limit = net.limit();
    for b in 0..limit {
        if net.name_of(b).is_some() {
            if b != from {
                let bound = least_out(net, place, from, list, b);
                net.set_draft(from, b, Cell::of(bound));
            }
        }
    }
}

// The distance from the point to another over the listed edges.
fn least_out(net: &DistNet, place: usize, from: u16, list: &[u16], b: u16) -> Bound
    requires place { place < length net.now.present.edges }
    requires to { IsInUse net.now.present.names b }
    requires other { b ≢ from }
    requires from { IsFrom net.now.present place from }
    requires list { AreWaysOut net.now.present place from list.now }
    ensures { IsFar (rest_of net.now.present place) from b result }
{
    net.invariants();
    let mut least = Bound::Free;
    for k in 0..list.len() {
        least = least.lesser(way_by(net, list[k], b));
    }
    least
}

// The least way to a point that begins with the edge.
fn way_by(net: &DistNet, j: u16, b: u16) -> Bound
    requires j { j < length net.now.present.edges }
    requires to { IsInUse net.now.present.names b }
    ensures { (d : Edge) (far : Bound) → IsFar (arcs_of net.now.present.edges) (slice_index_or net.now.present.edges j d).to b far → result ≡ after (slice_index_or net.now.present.edges j d).weight far }
{
    let edge = &net.edges()[j as usize];
    Bound::Finite(0).through(edge.weight, net.far(edge.to, b))
}
