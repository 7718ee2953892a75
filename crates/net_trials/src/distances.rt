//! Distances of networks that grow, and numbers of points that come and go.
use crate::networks::{
    MOST, add, add_edge, add_edges, add_point, edge, expect_far, numbered, points,
};
use dist_net::DistNet;
use std::process::Abort;
use tmm_model::{Bound, PointName};

/// Two points, of which the second is 3 to 7 after the first, and neither before `start`.
const TWO: &[(u16, u16, i64)] = &[(1, 0, 0), (2, 0, 0), (1, 2, 7), (2, 1, -3)];

/// Their distances.
const FAR: &[(u16, u16, Option<Bound>)] = &[
    (1, 2, Some(Bound::Finite(7))),
    (2, 1, Some(Bound::Finite(-3))),
    (2, 0, Some(Bound::Finite(-3))),
    (0, 1, Some(Bound::Free)),
    (0, 3, None),
];

#[test]
fn distances_are_least_sums(rt: HostRuntime) {
    let mut net = points(&rt, rt.alloc(), 2);
    expect_of_two(&rt, &mut net);
}

fn expect_of_two(rt: &impl Abort, net: &mut DistNet) {
    add_edges(net, TWO);
    net.commit();
    for (from, to, want) in FAR {
        expect_far(rt, net, *from, *to, *want);
    }
    assert!(rt; closes(net, 1, 2, 2, -1));
    add_edge(net, 0, 1, 10);
    expect_far(rt, net, 0, 2, Some(Bound::Finite(17)));
    net.rollback();
    expect_far(rt, net, 0, 2, Some(Bound::Free));
}

/// Whether the edge is refused, since it closes a walk of this sum.
fn closes(net: &mut DistNet, from: u16, to: u16, weight: i64, sum: i64) -> bool {
    match add(net, &edge(from, to, weight, "e")) {
        Some(found) => found.sum == sum,
        None => false,
    }
}

#[test]
fn the_longest_chain_is_exact(rt: HostRuntime) {
    let mut net = points(&rt, rt.alloc(), 255);
    expect_of_chain(&rt, &mut net);
}

/// Each point is exactly so much after the one before it.
fn expect_of_chain(rt: &impl Abort, net: &mut DistNet) {
    for i in 0..255 {
        add_edge(net, i, i + 1, MOST);
        add_edge(net, i + 1, i, -MOST);
    }
    expect_far(rt, net, 0, 255, Some(Bound::Finite(255 * MOST)));
    expect_far(rt, net, 255, 0, Some(Bound::Finite(-255 * MOST)));
}

/// Drops a point that is not `start`, where there are no edges.
fn drop_point(net: &mut DistNet, point: &PointName) {
    let Some(p) = net.number(*point) else { return };
    if p > 0 && net.edges().is_empty() {
        net.drop_point(p);
    }
}

#[test]
fn numbers_follow_names(rt: HostRuntime) {
    let mut net = points(&rt, rt.alloc(), 2);
    expect_numbers(&rt, &mut net);
}

fn expect_numbers(rt: &impl Abort, net: &mut DistNet) {
    let a = PointName::Begin(numbered(0));
    let b = PointName::Begin(numbered(1));
    net.commit();
    drop_point(net, &a);
    drop_point(net, &b);
    add_point(net, &b);
    expect_number(rt, net, &a, None);
    expect_number(rt, net, &b, Some(1));
    net.rollback();
    expect_number(rt, net, &a, Some(1));
    expect_number(rt, net, &b, Some(2));
}

fn expect_number(rt: &impl Abort, net: &DistNet, point: &PointName, want: Option<u16>) {
    assert_eq!(rt; net.number(*point), want);
}

#[test]
fn numbers_outlive_names_that_come_and_go(rt: HostRuntime) {
    let mut net = points(&rt, rt.alloc(), 1);
    expect_same_number(&rt, &mut net);
}

/// Points of 1,200 names come and go, each with the number 2.
fn expect_same_number(rt: &impl Abort, net: &mut DistNet) {
    for i in 1..1201 {
        let point = PointName::Begin(numbered(i));
        add_point(net, &point);
        expect_number(rt, net, &point, Some(2));
        drop_point(net, &point);
    }
}
