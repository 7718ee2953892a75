//! Walks and cycles of small networks.
use crate::networks::{add, edge, name, points};
use crate::premises::expect_lines;
use dist_net::{DistNet, Edge};
use neg_cycle::{check_cycle, cycle, walk};
use premise_list::Standing;
use std::alloc::Global;
use std::process::Abort;
use tmm_model::{Bound, PointName, Premise, Side, WalkStep};

/// The owners of steps, none where there is no walk.
type Owners = Option<&'static [&'static str]>;

/// Edges in the order in which they are added: the two points, the weight, the owner, and the cycle
/// that each makes. The first two points lead to each other with the sum 0, and two walks from the
/// first to the third have the sum 5.
const EDGES: &[(u16, u16, i64, &str, Owners)] = &[
    (1, 2, 2, "ab", None),
    (2, 1, -2, "ba", None),
    (2, 3, 3, "bc", None),
    (1, 3, 5, "ac", None),
    (3, 4, 1, "cd", None),
    (4, 1, -7, "da", Some(&["da", "ac", "cd"])),
    (3, 3, -1, "cc", Some(&["cc"])),
];

/// The walks between two points.
const WALKS: &[(u16, u16, Owners)] = &[
    (1, 4, Some(&["ac", "cd"])),
    (2, 4, Some(&["bc", "cd"])),
    (2, 1, Some(&["ba"])),
    (1, 1, Some(&[])),
    (4, 1, None),
];

#[test]
fn walks_and_cycles(rt: HostRuntime) {
    let mut net = points(&rt, rt.alloc(), 4);
    expect_cycles(&rt, rt.alloc(), &mut net);
}

fn expect_cycles(rt: &impl Abort, alloc: Global, net: &mut DistNet) {
    for (from, to, weight, owner, want) in EDGES {
        let edge = edge(*from, *to, *weight, owner);
        assert!(rt; makes(alloc, net, &edge, *want), "the edge {owner}");
    }
    for (from, to, want) in WALKS {
        assert!(rt; leads(alloc, net, *from, *to, *want), "from {from} to {to}");
    }
}

/// Whether the edge makes a cycle of these premises, and is added where it makes none.
fn makes(alloc: Global, net: &mut DistNet, edge: &Edge, want: Owners) -> bool {
    match add(net, edge) {
        Some(found) => match cycle(alloc, net, &[*edge], found) {
            Ok(steps) => are_by(steps.items(), want),
            Err(_) => false,
        },
        None => want.is_none(),
    }
}

/// Whether the walk between two points is of these premises, and there is none where they are none.
fn leads(alloc: Global, net: &DistNet, from: u16, to: u16, want: Owners) -> bool {
    if net.name_of(from).is_none() || net.name_of(to).is_none() {
        return false;
    }
    match walk(alloc, net, from, to) {
        Ok(Some(steps)) => are_by(steps.items(), want),
        Ok(None) => want.is_none(),
        Err(_) => false,
    }
}

/// Whether the steps are of these premises.
fn are_by(steps: &[WalkStep], want: Owners) -> bool {
    match want {
        Some(owners) => are_of(steps, owners),
        None => false,
    }
}

fn are_of(steps: &[WalkStep], owners: &[&str]) -> bool {
    if steps.len() != owners.len() {
        return false;
    }
    for i in 0..steps.len() {
        if steps[i].premise.bytes() != owners[i].as_bytes() {
            return false;
        }
    }
    true
}

/// A step from one point to the other.
fn step(word: &str, side: Side, from: &str, to: &str, weight: i64) -> WalkStep {
    WalkStep {
        premise: name(word),
        side,
        from: PointName::Begin(name(from)),
        to: PointName::Begin(name(to)),
        weight,
    }
}

/// Two points, and the premise x that q is at most 5 after p.
const LINES: &[(&str, &str)] = &[
    ("point p", "ok"),
    ("point q", "ok"),
    ("dist x p q * 5", "ok"),
];

/// Lower bounds of a premise y that are refused, the step that is said to be of it, and whether it
/// closes a cycle.
const BOUNDS: &[(i64, Side, i64, bool)] = &[
    (7, Side::Lo, -7, true),
    (7, Side::Hi, -7, false),
    (7, Side::Lo, -8, false),
    (5, Side::Lo, -5, false),
];

/// Which of the steps are given, and whether they may be a cycle: both, turned, one that leads
/// nowhere back, and both twice.
const PARTS: &[(usize, usize, bool)] = &[(0, 2, true), (1, 3, true), (0, 1, false), (0, 4, false)];

#[test]
fn the_checker_tells(rt: HostRuntime) {
    let mut list = Standing::make(rt.alloc());
    expect_lines(&rt, rt.alloc(), &mut list, LINES);
    expect_told(&rt, &list);
}

fn expect_told(rt: &impl Abort, list: &Standing) {
    for (lo, side, weight, want) in BOUNDS {
        expect_parts(rt, list, *lo, &step("y", *side, "q", "p", *weight), *want);
    }
}

/// The step back, by y, and the one that q is at most 5 after p, by x; and then both again.
fn expect_parts(rt: &impl Abort, list: &Standing, lo: i64, back: &WalkStep, want: bool) {
    let on = step("x", Side::Hi, "p", "q", 5);
    let steps = [*back, on, *back, on];
    for (from, to, is_closed) in PARTS {
        let told = tells(list, lo, &steps, *from, *to);
        assert_eq!(rt; told, Some(want && *is_closed), "{from} to {to} at {lo}");
    }
}

/// What the checker tells of the steps from one place to another.
fn tells(list: &Standing, lo: i64, steps: &[WalkStep], from: usize, to: usize) -> Option<bool> {
    if from > to || to > steps.len() {
        return None;
    }
    let refused = Premise::Dist {
        name: name("y"),
        from: PointName::Begin(name("p")),
        to: PointName::Begin(name("q")),
        lo: Bound::Finite(lo),
        hi: Bound::Free,
    };
    Some(check_cycle(list, &refused, &steps[from..to]))
}
