// Numbers in a row, and where each of them stands.
ghost use Rattle.std.specs.Prelude.{◌≡◌, ℕ, ◌<◌, [], ◌∷◌, ◌++◌, length, Option};
ghost use Rattle.dist_repair.specs.Ends.{number_at, IsLastOf};

use arrayvec::ArrayVec;
use dist_net::{EDGES, POINTS};
use std::marker::Model;

/// The point at one end of each edge, in the order of the edges, and for each point the places at
/// which it stands, from the last to the first. It takes no memory.
#[derive(Drop)]
pub(crate) struct Ends {
    points: ArrayVec<u16, EDGES>,
    // the last place of each point
    last: ArrayVec<Option<u16>, POINTS>,
    // for each place the last one before it with the same point
    before: ArrayVec<Option<u16>, EDGES>,
}

impl Model for Ends {
    ghost use Rattle.std.specs.Prelude.{ℕ, List};
    ghost use Rattle.dist_repair.specs.Ends.{AreLinked};

    ghost Value = { List ℕ };

    ghost view = { λ e. e.points.items };

    ghost invariant = { λ e. AreLinked e.points.items e.last.items e.before.items };
}

impl Ends {
    // No edges.
    pub(crate) fn none() -> Ends
        ensures { result ≡ [] }
    {
        let mut last = ArrayVec::new();
        for _ in 0..POINTS {
            last.push(None);
        }
        Ends {
            points: ArrayVec::new(),
            last,
            before: ArrayVec::new(),
        }
    }

    // Adds the point of one edge more.
    pub(crate) fn push(&mut self, point: u16)
        requires point { point < POINTS }
        requires room { length self.old < EDGES }
        ensures { self.new ≡ self.old ++ point ∷ [] }
    {
        let place = self.points.len() as u16;
        self.before.push(self.last[point as usize]);
        self.last[point as usize] = Some(place);
        self.points.push(point);
    }

    // The last place of a point.
    pub(crate) fn last(&self, point: u16) -> Option<u16>
        requires { point < POINTS }
        ensures { IsLastOf self.now point (length self.now) result }
    {
        self.last[point as usize]
    }

    // The last place before this one with the same point.
    pub(crate) fn before(&self, place: u16) -> Option<u16>
        requires { place < length self.now }
        ensures { IsLastOf self.now (number_at self.now place) place result }
    {
        self.before[place as usize]
    }
}
