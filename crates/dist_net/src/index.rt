// The numbers of points under their names.
ghost use Rattle.std.specs.Prelude.{◌≡◌, ℕ, ◌+◌, ◌<◌, ◌≤◌, [], length, IfOk, IsTrue, ◌↔◌, Some};
ghost use Rattle.std.specs.Map.{lookup};
ghost use Rattle.tmm_model.specs.Points.{same_point};
ghost use Rattle.dist_net.specs.Net.{start_alone, AreDistinct};
ghost use Rattle.dist_net.specs.Index.{AreIndexed, IsIndexed, IsNoted};

use crate::POINTS;
use indexmap::IndexMap;
use std::alloc::Global;
use std::marker::Model;
use tmm_model::{NoMemory, PointName};

// How many names the index has room for: those of all points, and as many that are of no point.
const ROOM: usize = 2 * POINTS;

/// The number of each point under its name. A name that is of no point any more may stand there
/// till there is no room, since to take one out gives no room back. So what is found is to be
/// looked up. No call but `make` and `of` takes memory.
#[derive(Drop)]
pub struct Index {
    numbers: IndexMap<PointName, u16>,
}

impl Model for Index {
    ghost use Rattle.std.specs.Prelude.{ℕ, List, ◌+◌, ◌≤◌};
    ghost use Rattle.tmm_model.specs.declared.point.PointName.{PointName};
    ghost use Rattle.indexmap.specs.IndexMap.{index_map_len, spare};

    ghost Value = { List (PointName × ℕ) };

    ghost view = { λ i. i.numbers.entries };

    ghost invariant = { λ i. 512 ≤ index_map_len i.numbers + spare i.numbers };
}

impl Index {
    /// The number of the point `start` alone.
    pub fn make(alloc: Global) -> Result<Index, NoMemory>
        ensures { IfOk result (AreIndexed start_alone.names) }
    {
        let mut index = Index {
            numbers: IndexMap::with_capacity(alloc, ROOM)?,
        };
        index.note(PointName::Start, 0);
        Ok(index)
    }

    /// The numbers of these names.
    pub fn of(alloc: Global, names: &[Option<PointName>]) -> Result<Index, NoMemory>
        requires places { length names.now ≡ 256 }
        requires distinct { AreDistinct names.now }
        ensures { IfOk result (AreIndexed names.now) }
    {
        let mut index = Index {
            numbers: IndexMap::with_capacity(alloc, ROOM)?,
        };
        index.fill(names);
        Ok(index)
    }

    /// The number that stands under the name.
    pub fn find(&self, name: &PointName) -> Option<u16>
        ensures { result ≡ lookup (same_point name.now) self.now }
    {
        self.numbers.get(name).copied()
    }

    /// Notes the name of the number `p`, if it is in use.
    pub fn put(&mut self, names: &[Option<PointName>], p: usize)
        requires place { p < 256 }
        requires places { length names.now ≡ 256 }
        requires distinct { AreDistinct names.now }
        ensures put { IsIndexed names.now self.new p }
        ensures others { (q : ℕ) → IsIndexed names.now self.old q → IsIndexed names.now self.new q }
    {
        let Some(name) = names[p] else { return };
        if self.numbers.len() < ROOM {
            self.note(name, p);
        } else {
            self.fill(names);
        }
    }

    /// Goes over from the names that were to those that are, where they differ.
    pub fn follow(&mut self, old: &[Option<PointName>], new: &[Option<PointName>])
        requires places_old { length old.now ≡ 256 }
        requires places_new { length new.now ≡ 256 }
        requires distinct { AreDistinct new.now }
        requires indexed { AreIndexed old.now self.old }
        ensures { AreIndexed new.now self.new }
    {
        for p in 0..POINTS {
            if let Some(name) = &new[p] {
                if !is_named(&old[p], name) {
                    self.put(new, p);
                }
            }
        }
    }

    // Notes the number under the name.
    fn note(&mut self, name: PointName, p: usize)
        requires place { p < 256 }
        requires room { length self.old < 512 }
        ensures noted { IsNoted self.old name p self.new }
        ensures length { length self.new ≤ length self.old + 1 }
    {
        if let Some(number) = self.numbers.get_mut(&name) {
            *number = p as u16;
            return;
        }
        let _room = self.numbers.insert(name, p as u16);
    }

    // Notes all names anew.
    fn fill(&mut self, names: &[Option<PointName>])
        requires places { length names.now ≡ 256 }
        requires distinct { AreDistinct names.now }
        ensures { AreIndexed names.now self.new }
    {
        self.numbers.clear();
        for (p, name) in names.iter().enumerate() {
            if let Some(name) = name {
                self.note(*name, p);
            }
        }
    }
}

/// Whether the number is in use with this name.
pub fn is_named(known: &Option<PointName>, name: &PointName) -> bool
    ensures { IsTrue result ↔ (known.now ≡ Some name.now) }
{
    match known {
        Some(known) => known == name,
        None => false,
    }
}
