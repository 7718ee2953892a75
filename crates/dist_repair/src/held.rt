// A set of points.
ghost use Rattle.std.specs.Prelude.{◌≡◌, ℕ, ◌<◌, ◌⊎◌, IsTrue, [], length, slice_index_or};
ghost use Rattle.std.specs.List.{Contains};

use arrayvec::ArrayVec;
use dist_net::POINTS;
use std::marker::Model;

/// Points in the order in which they were found, and whether each is one of them. It takes no
/// memory.
#[derive(Drop)]
pub(crate) struct Held {
    points: ArrayVec<u16, POINTS>,
    // for each number whether it is listed
    marks: ArrayVec<bool, POINTS>,
}

impl Model for Held {
    ghost use Rattle.std.specs.Prelude.{ℕ, List};
    ghost use Rattle.dist_repair.specs.Held.{AreMarked};

    ghost Value = { List ℕ };

    ghost view = { λ h. h.points.items };

    ghost invariant = { λ h. AreMarked h.points.items h.marks.items };
}

impl Held {
    // No points.
    pub(crate) fn none() -> Held
        ensures { result ≡ [] }
    {
        let mut marks = ArrayVec::new();
        for _ in 0..POINTS {
            marks.push(false);
        }
        Held {
            points: ArrayVec::new(),
            marks,
        }
    }

    // How many points there are.
    pub(crate) fn len(&self) -> usize
        ensures { result ≡ length self.now }
    {
        self.points.len()
    }

    // The point at this place.
    pub(crate) fn at(&self, i: usize) -> u16
        requires { i < length self.now }
        ensures { (d : ℕ) → result ≡ slice_index_or self.now i d }
    {
        self.points[i]
    }

    // Whether this is surely one of the points.
    pub(crate) fn has(&self, p: u16) -> bool
        requires { p < POINTS }
        ensures { IsTrue result → Contains self.now p }
    {
        self.marks[p as usize]
    }

    // Adds a point where there is room.
    pub(crate) fn add(&mut self, p: u16)
        requires { p < POINTS }
        ensures { (q : ℕ) → Contains self.new q → Contains self.old q ⊎ (q ≡ p) }
    {
        if self.points.is_full() {
            return;
        }
        self.marks[p as usize] = true;
        self.points.push(p);
    }
}
