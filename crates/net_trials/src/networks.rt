//! Networks that are built by calls that check what they need.
ghost use Rattle.std.specs.Prelude.{[], ◌∷◌, IfSome};
ghost use Rattle.dist_net.specs.Net.{AreInUse, IsConflict};

use dist_net::{Conflict, DistNet, EDGES, Edge, POINTS};
use std::alloc::Global;
use std::process::Abort;
use tmm_model::{Bound, GREATEST_NUMBER, Name, PointName, Side};

/// The greatest weight of an edge.
pub const MOST: i64 = GREATEST_NUMBER as i64;

/// The name of these bytes, or the name `a` where they are none.
pub fn name(word: &str) -> Name {
    Name::of(word.as_bytes()).unwrap_or_default()
}

/// One of 2,600 names, none of which is `a`.
pub fn numbered(i: u16) -> Name {
    let hundreds = b'a'.wrapping_add((i / 100 % 26) as u8);
    let tens = b'0'.wrapping_add((i / 10 % 10) as u8);
    let ones = b'0'.wrapping_add((i % 10) as u8);
    Name::of(&[hundreds, tens, ones]).unwrap_or_default()
}

/// Adds a point with a name of its own.
pub fn add_point(net: &mut DistNet, point: &PointName) {
    if net.points() < POINTS && net.number(*point).is_none() {
        net.add_point(*point);
    }
}

/// Adds so many points, of numbers from 1 on where there are none.
pub fn add_points(net: &mut DistNet, count: u16) {
    for i in 0..count {
        add_point(net, &PointName::Begin(numbered(i)));
    }
}

/// A network of so many points beside `start`.
pub fn points(rt: &impl Abort, alloc: Global, count: u16) -> DistNet {
    let mut net = DistNet::make(alloc).expect(rt, "memory");
    add_points(&mut net, count);
    net
}

/// An edge of a premise.
pub fn edge(from: u16, to: u16, weight: i64, owner: &str) -> Edge {
    Edge {
        from,
        to,
        weight,
        owner: name(owner),
        side: Side::Hi,
    }
}

/// Adds an edge between points, or gives the conflict that it makes. Asked for more, it does
/// nothing.
pub fn add(net: &mut DistNet, edge: &Edge) -> Option<Conflict>
    ensures { IfSome result (λ found. AreInUse net.new.present.names (edge.now ∷ []) × IsConflict net.new.present.edges (edge.now ∷ []) found) }
{
    if net.name_of(edge.from).is_none() || net.name_of(edge.to).is_none() {
        return None;
    }
    if edge.weight < -MOST || edge.weight > MOST || net.edges().len() >= EDGES {
        return None;
    }
    let edges = [*edge];
    if let Err(found) = net.fits(&edges) {
        return Some(found);
    }
    net.add_edges(&edges);
    None
}

/// Adds edges, each by its two points and its weight, where they fit.
pub fn add_edges(net: &mut DistNet, edges: &[(u16, u16, i64)]) {
    for (from, to, weight) in edges {
        add_edge(net, *from, *to, *weight);
    }
}

/// Adds an edge, where it fits.
pub fn add_edge(net: &mut DistNet, from: u16, to: u16, weight: i64) {
    let _conflict = add(net, &edge(from, to, weight, "e"));
}

/// The distance of two points, none where one of them is no point.
pub fn far(net: &DistNet, a: u16, b: u16) -> Option<Bound> {
    if net.name_of(a).is_some() && net.name_of(b).is_some() {
        Some(net.far(a, b))
    } else {
        None
    }
}

/// The distance of two points is this bound, none where one of them is no point.
pub fn expect_far(rt: &impl Abort, net: &DistNet, a: u16, b: u16, want: Option<Bound>) {
    assert_eq!(rt; far(net, a, b), want, "from {a} to {b}");
}
