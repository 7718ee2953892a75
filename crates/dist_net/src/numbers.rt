// Numbers of points, each once.
ghost use Rattle.std.specs.Prelude.{◌≡◌, ℕ, ◌<◌, [], length, IfOk};
ghost use Rattle.std.specs.List.{All, Contains};
ghost use Rattle.dist_net.specs.Changes.{AreUnmarked};

use crate::POINTS;
use std::alloc::Global;
use std::marker::Model;
use tmm_model::NoMemory;

/// Numbers of points in the order in which they were listed, and whether each is listed, so that to
/// list one and to forget one take the same time however many there are. No call but `make` takes
/// memory.
#[derive(Drop)]
pub struct Numbers {
    list: Vec<u16>,
    // for each number whether it is listed
    marks: Vec<bool>,
}

impl Model for Numbers {
    ghost use Rattle.std.specs.Prelude.{◌≡◌, ℕ, List, vec_capacity};
    ghost use Rattle.dist_net.specs.Changes.{ArePoints, AreMarks};

    ghost Value = { List ℕ };

    ghost view = { λ n. n.list.items };

    ghost invariant = { λ n. ArePoints n.list.items × AreMarks n.list.items n.marks.items × (vec_capacity n.list ≡ 256) };
}

impl Numbers {
    /// None are listed.
    pub fn make(alloc: Global) -> Result<Numbers, NoMemory>
        ensures { IfOk result (λ n. n ≡ []) }
    {
        Ok(Numbers {
            list: Vec::with_capacity(alloc, POINTS)?,
            marks: vec![in alloc; false; POINTS]?,
        })
    }

    /// The list.
    pub fn list(&self) -> &[u16]
        ensures list { result.now ≡ self.now }
        ensures points { All (λ p. p < 256) self.now }
    {
        &self.list
    }

    /// Lists a number, if it is not listed yet.
    pub fn add(&mut self, p: u16)
        requires point { p < 256 }
        ensures kept { (q : ℕ) → Contains self.old q → Contains self.new q }
        ensures listed { Contains self.new p }
    {
        if self.marks[p as usize] {
            return;
        }
        self.marks[p as usize] = true;
        self.list.push_reserved(p);
    }

    /// Forgets all numbers, in time that goes with how many are listed.
    pub fn clear(&mut self)
        ensures { self.new ≡ [] }
    {
        unmark(&self.list, &mut self.marks);
        self.list.clear();
    }
}

// Takes away the marks of these numbers.
fn unmark(list: &[u16], marks: &mut [bool])
    requires points { All (λ p. p < 256) list.now }
    requires marks { length marks.old ≡ 256 }
    ensures { AreUnmarked list.now (length list.now) marks.old marks.new }
{
    for p in list {
        marks[*p as usize] = false;
    }
}
