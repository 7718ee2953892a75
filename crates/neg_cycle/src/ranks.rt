// Least walks to an end, found from the end backwards.
ghost use Rattle.std.specs.Prelude.{◌≡◌, List, ◌<◌, length, slice_index, slice_index_or, IsTrue, IsFalse, IfOk};
ghost use Rattle.dist_net.specs.declared.Edge.{Edge};
ghost use Rattle.dist_net.specs.Net.{IsInUse};
ghost use Rattle.neg_cycle.specs.Ends.{IsAt, HasTo, AreByEnd};
ghost use Rattle.neg_cycle.specs.Ranks.{HasFar, IsTight, AreWays, IsFurther, IsVisited};

use crate::ends::Ends;
use dist_net::{DistNet, POINTS};
use std::alloc::Global;
use tmm_model::{Bound, NoMemory};

// The number of the point `start`.
const START: u16 = 0;

/// Least walks to an end. The rank of a point is one more than the number of edges of its shortest
/// least walk, and such a walk goes on from rank to lower rank.
#[derive(Drop)]
pub struct Ways {
    // by the number of the point, 0 where it has no rank yet
    rank: Vec<u16>,
    // for a point with a rank the place of the edge on which its walk goes on
    first: Vec<u16>,
    // the points with a rank, in the order of their ranks
    ranked: Vec<u16>,
}

/// The least walks to `b` from `a` and from all points that have shorter ones, counted in edges.
pub fn find_ways(alloc: Global, net: &DistNet, a: u16, b: u16) -> Result<Ways, NoMemory>
    requires from { IsInUse net.now.present.names a }
    requires to { IsInUse net.now.present.names b }
    requires reached { HasFar net.now.present.edges a b }
    ensures ways { IfOk result (AreWays net.now.present.edges b) }
    ensures reached { IfOk result (λ ways. 0 < slice_index ways.rank.items a) }
{
    net.invariants();
    let mut ways = Ways::make(alloc, b)?;
    ways.visit_near(net, a, b);
    if ways.rank(a) != 0 {
        return Ok(ways);
    }
    let ends = Ends::make(alloc, net.edges())?;
    ways.go_back(net, &ends, a, b);
    Ok(ways)
}

// Whether a least walk from `a` to `b` goes over `start`. Since most dates are told from there,
// one with few edges is then likely.
fn is_over_start(net: &DistNet, a: u16, b: u16) -> bool
    requires from { IsInUse net.now.present.names a }
    requires to { IsInUse net.now.present.names b }
{
    net.invariants();
    let Bound::Finite(first) = net.far(a, START) else {
        return false;
    };
    let Bound::Finite(rest) = net.far(START, b) else {
        return false;
    };
    net.far(a, b).is(Bound::Finite(first + rest))
}

// Whether a least walk to `b` begins with the edge.
fn is_tight(net: &DistNet, place: usize, b: u16) -> bool
    requires place { place < length net.now.present.edges }
    requires to { IsInUse net.now.present.names b }
    ensures tight { IsTrue result → (d : Edge) → IsTight net.now.present.edges b (slice_index_or net.now.present.edges place d) }
    ensures loose { IsFalse result → (d : Edge) → IsTight net.now.present.edges b (slice_index_or net.now.present.edges place d) → ⊥ }
{
    let edge = &net.edges()[place];
    match net.far(edge.to, b) {
        Bound::Finite(rest) => net.far(edge.from, b).is(Bound::Finite(edge.weight + rest)),
        Bound::Free => false,
    }
}

impl Ways {
    // The end alone is ranked.
    fn make(alloc: Global, b: u16) -> Result<Ways, NoMemory>
        requires { b < POINTS }
        ensures { IfOk result (λ ways. (edges : List Edge) → AreWays edges b ways) }
    {
        let mut ways = Ways {
            rank: vec![in alloc; 0u16; POINTS]?,
            first: vec![in alloc; 0u16; POINTS]?,
            ranked: Vec::with_capacity(alloc, POINTS)?,
        };
        ways.rank[b as usize] = 1;
        ways.ranked.push_reserved(b);
        Ok(ways)
    }

    /// The rank of a point.
    pub fn rank(&self, p: u16) -> u16
        requires { p < length self.now.rank.items }
        ensures { result ≡ slice_index self.now.rank.items p }
    {
        self.rank[p as usize]
    }

    /// The place of the edge on which a least walk goes on from a ranked point.
    pub fn next_edge(&self, p: u16) -> usize
        requires { p < length self.now.first.items }
        ensures { result ≡ slice_index self.now.first.items p }
    {
        self.first[p as usize] as usize
    }

    // Ranks `a` if a least walk of at most three edges leads from there to `b`, where that is likely.
    // To look at all edges a few times takes less than to link them and to go back from `b`. It stays
    // apart, for the loops that go back need the registers.
    #[inline(never)]
    fn visit_near(&mut self, net: &DistNet, a: u16, b: u16)
        requires from { IsInUse net.now.present.names a }
        requires to { IsInUse net.now.present.names b }
        requires ways { AreWays net.now.present.edges b self.old }
        ensures ways { AreWays net.now.present.edges b self.new }
    {
        net.invariants();
        if !is_over_start(net, a, b) {
            return;
        }
        self.visit_to(net, b, 1);
        self.visit_from(net, a, b);
        if self.rank(a) != 0 {
            return;
        }
        self.visit_to(net, b, 2);
        self.visit_from(net, a, b);
    }

    // Visits all edges from `a` to ranked points.
    fn visit_from(&mut self, net: &DistNet, a: u16, b: u16)
        requires to { IsInUse net.now.present.names b }
        requires ways { AreWays net.now.present.edges b self.old }
        ensures ways { AreWays net.now.present.edges b self.new }
    {
        let edges = net.edges();
        for (place, edge) in edges.iter().enumerate() {
            let to = edge.to;
            if edge.from == a && self.rank(to) != 0 {
                self.visit(net, b, to, place);
            }
        }
    }

    // Visits all edges to points of this rank.
    fn visit_to(&mut self, net: &DistNet, b: u16, rank: u16)
        requires to { IsInUse net.now.present.names b }
        requires rank { 0 < rank }
        requires ways { AreWays net.now.present.edges b self.old }
        ensures ways { AreWays net.now.present.edges b self.new }
    {
        let edges = net.edges();
        for (place, edge) in edges.iter().enumerate() {
            let to = edge.to;
            if self.rank(to) == rank {
                self.visit(net, b, to, place);
            }
        }
    }

    // Goes through the points from `b` on, by their ranks, while these are below that of `a`.
    fn go_back(&mut self, net: &DistNet, ends: &Ends, a: u16, b: u16)
        requires from { IsInUse net.now.present.names a }
        requires to { IsInUse net.now.present.names b }
        requires reached { HasFar net.now.present.edges a b }
        requires ends { AreByEnd net.now.present.edges ends.now.last.items ends.now.before.items }
        requires ways { AreWays net.now.present.edges b self.old }
        ensures ways { AreWays net.now.present.edges b self.new }
        ensures reached { 0 < slice_index self.new.rank.items a }
    {
        net.invariants();
        let mut done = 0;
        while done < self.ranked.len() {
            let p = self.ranked[done];
            let rank = self.rank[a as usize];
            if rank != 0 && rank <= self.rank[p as usize] {
                return;
            }
            self.visit_all(net, ends, b, p);
            done += 1;
        }
    }

    // Goes through all edges to a ranked point.
    fn visit_all(&mut self, net: &DistNet, ends: &Ends, b: u16, p: u16)
        requires to { IsInUse net.now.present.names b }
        requires ends { AreByEnd net.now.present.edges ends.now.last.items ends.now.before.items }
        requires ways { AreWays net.now.present.edges b self.old }
        requires ranked { 0 < slice_index self.old.rank.items p }
        ensures ways { AreWays net.now.present.edges b self.new }
        ensures further { IsFurther self.old self.new }
        ensures visited { IsVisited net.now.present.edges b self.new.rank.items p }
    {
        let mut next = ends.last(p);
        while next != 0 {
            let place = next as usize - 1;
            self.visit(net, b, p, place);
            next = ends.before(place);
        }
    }

    // Ranks the beginning of an edge to a ranked point, if a least walk begins with the edge and
    // it has no rank. Of several edges to lower ranks the first by its place is kept.
    fn visit(&mut self, net: &DistNet, b: u16, p: u16, place: usize)
        requires to { IsInUse net.now.present.names b }
        requires edge { HasTo net.now.present.edges place p }
        requires ways { AreWays net.now.present.edges b self.old }
        requires ranked { 0 < slice_index self.old.rank.items p }
        ensures ways { AreWays net.now.present.edges b self.new }
        ensures further { IsFurther self.old self.new }
        ensures visited { (e : Edge) → IsAt net.now.present.edges place e → IsTight net.now.present.edges b e → 0 < slice_index self.new.rank.items e.from }
    {
        let edge = &net.edges()[place];
        let from = edge.from;
        let next = self.rank[p as usize];
        let rank = self.rank[from as usize];
        if rank != 0 && (rank <= next || self.first[from as usize] as usize <= place) {
            return;
        }
        if !is_tight(net, place, b) {
            return;
        }
        self.first[from as usize] = place as u16;
        if rank == 0 {
            self.rank[from as usize] = next + 1;
            self.ranked.push_reserved(from);
        }
    }
}
