// The edges of a network by the points that they lead to.
ghost use Rattle.std.specs.Prelude.{◌≡◌, ℕ, ◌<◌, ◌≤◌, length, slice_index, IfOk};
ghost use Rattle.std.specs.List.{All};
ghost use Rattle.neg_cycle.specs.Ends.{AreByEnd};

use dist_net::{EDGES, Edge, POINTS};
use std::alloc::Global;
use tmm_model::NoMemory;

/// The edges to each point, the last first.
#[derive(Drop)]
pub struct Ends {
    // by the number of the point, one more than the place of the last edge to it, or 0
    last: Vec<u16>,
    // by the place of the edge, one more than that of the edge before it to the same point, or 0
    before: Vec<u16>,
}

impl Ends {
    /// The edges by their ends.
    pub fn make(alloc: Global, edges: &[Edge]) -> Result<Ends, NoMemory>
        requires few { length edges.now ≤ EDGES }
        requires points { All (λ e. e.to < POINTS) edges.now }
        ensures { IfOk result (λ ends. AreByEnd edges.now ends.last.items ends.before.items) }
    {
        let mut last = vec![in alloc; 0u16; POINTS]?;
        let mut before = vec![in alloc; 0u16; edges.len()]?;
        link(edges, &mut last, &mut before);
        Ok(Ends { last, before })
    }

    /// One more than the place of the last edge to the point, or 0 where no edge leads to it.
    pub fn last(&self, p: u16) -> u16
        requires { p < length self.now.last.items }
        ensures { result ≡ slice_index self.now.last.items p }
    {
        self.last[p as usize]
    }

    /// One more than the place of the last edge before this one to the same point, or 0.
    pub fn before(&self, place: usize) -> u16
        requires { place < length self.now.before.items }
        ensures { result ≡ slice_index self.now.before.items place }
    {
        self.before[place]
    }
}

// Links each edge to the last before it to the same point.
fn link(edges: &[Edge], last: &mut [u16], before: &mut [u16])
    requires few { length edges.now ≤ EDGES }
    requires points { All (λ e. e.to < POINTS) edges.now }
    requires ends { length last.old ≡ 256 }
    requires none { (p : ℕ) → slice_index last.old p ≡ 0 }
    requires places { length before.old ≡ length edges.now }
    ensures { AreByEnd edges.now last.new before.new }
{
    for (i, edge) in edges.iter().enumerate() {
        let to = edge.to as usize;
        before[i] = last[to];
        last[to] = i as u16 + 1;
    }
}
