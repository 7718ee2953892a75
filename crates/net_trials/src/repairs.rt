//! Networks from which edges are taken out, compared with networks that never had them.
use crate::networks::{add, add_edge, add_edges, expect_far, far, points};
use dist_net::DistNet;
use dist_repair::{erase_edge, erase_from, erase_plain};
use std::alloc::Global;
use std::process::Abort;
use tmm_model::Bound;

/// How many points there are beside `start`.
const COUNT: u16 = 19;

fn erase(net: &mut DistNet, place: usize) {
    if place < net.edges().len() {
        erase_edge(net, place);
    }
}

/// The first point to the fourth over the second, over the third, and at once. The second and the
/// third lead to each other with the sum 0.
const WAYS: &[(u16, u16, i64)] = &[
    (1, 2, 2),
    (2, 4, 3),
    (2, 3, 1),
    (3, 2, -1),
    (1, 3, 4),
    (1, 4, 9),
];

/// Places that are erased one after the other, and the distance from the first point to the fourth
/// after each.
const ROUND: &[(usize, i64)] = &[(0, 6), (4, 9)];

#[test]
fn a_way_round_is_found(rt: HostRuntime) {
    let mut net = points(&rt, rt.alloc(), COUNT);
    expect_ways(&rt, &mut net);
}

fn expect_ways(rt: &impl Abort, net: &mut DistNet) {
    add_edges(net, WAYS);
    for (place, want) in ROUND {
        erase(net, *place);
        expect_far(rt, net, 1, 4, Some(Bound::Finite(*want)));
    }
    expect_far(rt, net, 1, 2, Some(Bound::Free));
    expect_far(rt, net, 3, 3, Some(Bound::Finite(0)));
}

/// Compares a network with one of the same edges that is made anew.
fn expect_as_anew(rt: &impl Abort, alloc: Global, net: &DistNet) {
    let mut other = points(rt, alloc, COUNT);
    add_edges_of(&mut other, net);
    expect_alike(rt, net, &other);
}

fn add_edges_of(net: &mut DistNet, other: &DistNet) {
    for edge in other.edges() {
        let _conflict = add(net, edge);
    }
}

/// All pairs of points have the same distance in both.
fn expect_alike(rt: &impl Abort, net: &DistNet, other: &DistNet) {
    assert_eq!(rt; alike(net, other), 400);
}

/// How many pairs of 20 points have the same distance in both.
fn alike(net: &DistNet, other: &DistNet) -> u32 {
    let mut count = 0u32;
    for a in 0..20 {
        for b in 0..20 {
            if is_alike(net, other, a, b) {
                count = count.wrapping_add(1);
            }
        }
    }
    count
}

fn is_alike(net: &DistNet, other: &DistNet, a: u16, b: u16) -> bool {
    match (far(net, a, b), far(other, a, b)) {
        (Some(far), Some(other)) => far.is(other),
        _ => false,
    }
}

#[test]
fn distances_are_those_of_the_edges_left(rt: HostRuntime) {
    let mut net = points(&rt, rt.alloc(), COUNT);
    expect_mixed(&rt, rt.alloc(), &mut net);
}

/// Takes out the edge in the middle until none is left.
fn expect_mixed(rt: &impl Abort, alloc: Global, net: &mut DistNet) {
    add_mixed(net);
    assert!(rt; net.edges().len() > 25);
    for _ in 0..40 {
        erase(net, net.edges().len() / 2);
        expect_as_anew(rt, alloc, net);
    }
    expect_left(rt, net, 0);
}

/// So many edges are left.
fn expect_left(rt: &impl Abort, net: &DistNet, count: usize) {
    assert_eq!(rt; net.edges().len(), count);
}

/// Adds edges between 9 points, some of them of negative weight.
fn add_mixed(net: &mut DistNet) {
    let mut seed = 7u32;
    for _ in 0..40 {
        seed = next(seed);
        add_mixed_edge(net, seed);
    }
}

/// The number after this one in the row of which the mixed edges are made.
fn next(seed: u32) -> u32 {
    seed.wrapping_mul(137).wrapping_add(29) % 65521
}

fn add_mixed_edge(net: &mut DistNet, seed: u32) {
    let from = (seed % 9) as u16;
    let to = (seed / 9 % 9) as u16;
    add_edge(net, from, to, i64::from(seed / 81 % 12) - 3);
}

/// Adds the 60 edges of three rings through 20 points.
fn add_rings(net: &mut DistNet) {
    for from in 0..20 {
        for step in [1, 3, 7] {
            add_ring_edge(net, from, step);
        }
    }
}

/// An edge of a ring through 20 points: so many numbers on, and no shorter than the difference of
/// the heights of its ends, so that no walk round is negative.
fn add_ring_edge(net: &mut DistNet, from: u16, step: u16) {
    let to = from.wrapping_add(step) % 20;
    let rise = to.wrapping_mul(5) % 11;
    let fall = from.wrapping_mul(5) % 11;
    let more = from.wrapping_mul(step) % 6;
    let weight = i64::from(more) + i64::from(rise) - i64::from(fall);
    add_edge(net, from, to, weight);
}

#[test]
fn both_ways_to_erase_agree(rt: HostRuntime) {
    let mut net = points(&rt, rt.alloc(), COUNT);
    expect_both(&rt, rt.alloc(), &mut net);
}

/// Takes all edges out of a network and of one more like it, each in its own way.
fn expect_both(rt: &impl Abort, alloc: Global, net: &mut DistNet) {
    let mut plain = points(rt, alloc, COUNT);
    add_rings(net);
    add_rings(&mut plain);
    expect_in_step(rt, net, &mut plain);
}

fn expect_in_step(rt: &impl Abort, net: &mut DistNet, plain: &mut DistNet) {
    expect_left(rt, net, 60);
    for _ in 0..60 {
        let place = net.edges().len() / 3;
        erase(net, place);
        erase_from_nothing(plain, place);
        expect_alike(rt, net, plain);
    }
    expect_left(rt, net, 0);
}

fn erase_from_nothing(net: &mut DistNet, place: usize) {
    if place < net.edges().len() {
        erase_plain(net, place);
    }
}

#[test]
fn many_edges_are_taken_out_at_once(rt: HostRuntime) {
    let mut net = points(&rt, rt.alloc(), COUNT);
    expect_steps(&rt, rt.alloc(), &mut net);
}

/// Takes out more edges than are taken out one by one, and then fewer.
fn expect_steps(rt: &impl Abort, alloc: Global, net: &mut DistNet) {
    add_rings(net);
    for left in [22, 12, 12, 0] {
        erase_many(net, left);
        expect_left(rt, net, left);
        expect_as_anew(rt, alloc, net);
    }
}

fn erase_many(net: &mut DistNet, first: usize) {
    if first <= net.edges().len() {
        erase_from(net, first);
    }
}
