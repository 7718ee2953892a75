// What is listed of changes of the table of distances.
ghost use Rattle.std.specs.Prelude.{◌≡◌, ◌⊎◌, ℕ, ◌<◌, ◌≤◌, [], true, false, length, drop, slice_index_or, IfOk, vec_capacity};
ghost use Rattle.std.specs.List.{All, Contains};
ghost use Rattle.dist_net.specs.Changes.{Covers, IsNoted, AreNumbersListed, AreGathered, AreAmong};

use crate::numbers::Numbers;
use crate::{PLACES, POINTS};
use std::alloc::Global;
use std::marker::Model;
use tmm_model::NoMemory;

/// Lists of places and of points that changed, so that a commit, a rollback and a draft cost what
/// has changed. The place of two numbers is 256 times the first and the second. A list of places
/// that has no room left speaks of all places.
#[derive(Drop)]
pub struct Changes {
    // where the tables of the two states may differ
    places: Vec<u16>,
    // where the draft may differ from the table of the present state
    drafted: Vec<u16>,
    // points of which one is at each place where the tables of the two states differ, each once
    moved: Numbers,
    // room for the first numbers of places
    from: Numbers,
    // room for the second numbers of places
    to: Numbers,
}

impl Model for Changes {
    ghost use Rattle.std.specs.Prelude.{◌≡◌, ℕ, vec_capacity};
    ghost use Rattle.dist_net.specs.Changes.{Listed};

    ghost Value = { Listed };

    ghost view = { λ c. record { places = c.places.items; drafted = c.drafted.items; moved = c.moved } };

    ghost invariant = { λ c. (vec_capacity c.places ≡ 65536) × (vec_capacity c.drafted ≡ 65536) };
}

impl Changes {
    ghost use Rattle.dist_net.specs.Changes.{Listed};

    /// Nothing is listed.
    pub fn make(alloc: Global) -> Result<Changes, NoMemory>
        ensures { IfOk result (λ c. c ≡ record { places = []; drafted = []; moved = [] }) }
    {
        Ok(Changes {
            places: Vec::with_capacity(alloc, PLACES)?,
            drafted: Vec::with_capacity(alloc, PLACES)?,
            moved: Numbers::make(alloc)?,
            from: Numbers::make(alloc)?,
            to: Numbers::make(alloc)?,
        })
    }

    /// The places at which the tables of the two states may differ.
    pub fn places(&self) -> &[u16]
        ensures { result.now ≡ self.now.places }
    {
        &self.places
    }

    /// The places at which the draft may differ from the present table.
    pub fn drafted(&self) -> &[u16]
        ensures { result.now ≡ self.now.drafted }
    {
        &self.drafted
    }

    /// One of the places at which the draft may differ from the present table.
    pub fn drafted_at(&self, i: usize) -> u16
        requires { i < length self.now.drafted }
        ensures { (d : ℕ) → result ≡ slice_index_or self.now.drafted i d }
    {
        self.drafted[i]
    }

    /// Points of which one is at each place at which the tables of the two states differ.
    pub fn moved(&self) -> &[u16]
        ensures list { result.now ≡ self.now.moved }
        ensures points { All (λ p. p < 256) self.now.moved }
    {
        self.moved.list()
    }

    /// Lists a place of the present table that is written.
    pub fn note(&mut self, place: usize)
        requires { place < 65536 }
        ensures places { IsNoted self.old.places place self.new.places }
        ensures drafted { IsNoted self.old.drafted place self.new.drafted }
        ensures moved { self.new.moved ≡ self.old.moved }
    {
        note(&mut self.places, place);
        note(&mut self.drafted, place);
    }

    /// Lists a place of the draft that is written.
    pub fn note_draft(&mut self, place: usize)
        requires { place < 65536 }
        ensures drafted { IsNoted self.old.drafted place self.new.drafted }
        ensures kept { self.new ≡ record self.old { drafted = self.new.drafted } }
    {
        note(&mut self.drafted, place);
    }

    /// Lists points of which one is at each place that was listed from `before` on: the fewer of
    /// the first and the second numbers of these places.
    pub fn list_moved(&mut self, before: usize)
        requires { before ≤ length self.old.places }
        ensures kept { self.new ≡ record self.old { moved = self.new.moved } }
        ensures more { (p : ℕ) → Contains self.old.moved p → Contains self.new.moved p }
        ensures full { 65536 ≤ length self.old.places → AreNumbersListed [] true self.new.moved }
        ensures moved { AreNumbersListed (drop before self.old.places) false self.new.moved }
    {
        if self.places.len() >= PLACES {
            list_all(&mut self.moved);
            return;
        }
        gather_numbers(&self.places[before..], &mut self.from, &mut self.to);
        list_fewer(&mut self.moved, self.from.list(), self.to.list());
    }

    /// Lists the points of one of the two lists, of that with fewer.
    pub fn list_fewer(&mut self, some: &[u16], others: &[u16])
        requires points { All (λ p. p < 256) some.now }
        requires other_points { All (λ p. p < 256) others.now }
        ensures kept { self.new ≡ record self.old { moved = self.new.moved } }
        ensures more { AreAmong self.old.moved self.new.moved }
        ensures listed { AreAmong some.now self.new.moved ⊎ AreAmong others.now self.new.moved }
    {
        list_fewer(&mut self.moved, some, others);
    }

    /// The draft is the present table.
    pub fn clear_draft(&mut self)
        ensures { self.new ≡ record self.old { drafted = [] } }
    {
        self.drafted.clear();
    }

    /// Lists for the draft all places at which the tables of the two states may differ.
    pub fn draft_places(&mut self)
        ensures kept { self.new ≡ record self.old { drafted = self.new.drafted } }
        ensures more { (k : ℕ) → Covers self.old.drafted k → Covers self.new.drafted k }
        ensures places { (k : ℕ) → Covers self.old.places k → Covers self.new.drafted k }
    {
        note_all(&mut self.drafted, &self.places);
    }

    /// The two states are the same.
    pub fn clear(&mut self)
        ensures { self.new ≡ record self.old { places = []; moved = [] } }
    {
        self.places.clear();
        self.moved.clear();
    }
}

// Lists a place where there is room. A list with no room left speaks of all places.
fn note(list: &mut Vec<u16>, place: usize)
    requires room { vec_capacity list.old ≡ 65536 }
    requires place { place < 65536 }
    ensures noted { IsNoted list.old.items place list.new.items }
    ensures capacity { vec_capacity list.new ≡ 65536 }
{
    if list.len() < PLACES {
        list.push_reserved(place as u16);
    }
}

// Lists all places of which the other list speaks.
fn note_all(list: &mut Vec<u16>, places: &[u16])
    requires room { vec_capacity list.old ≡ 65536 }
    ensures kept { (k : ℕ) → Covers list.old.items k → Covers list.new.items k }
    ensures listed { (k : ℕ) → Covers places.now k → Covers list.new.items k }
    ensures capacity { vec_capacity list.new ≡ 65536 }
{
    for place in places {
        note(list, *place as usize);
    }
}

// Lists the first and the second numbers of the places that are listed.
fn gather_numbers(places: &[u16], from: &mut Numbers, to: &mut Numbers)
    ensures { AreGathered places.now (length places.now) from.new to.new }
{
    from.clear();
    to.clear();
    for place in places {
        from.add(place / POINTS as u16);
        to.add(place % POINTS as u16);
    }
}

// Lists the points of one of the two lists, of that with fewer.
fn list_fewer(moved: &mut Numbers, some: &[u16], others: &[u16])
    requires points { All (λ p. p < 256) some.now }
    requires other_points { All (λ p. p < 256) others.now }
    ensures kept { AreAmong moved.old moved.new }
    ensures listed { AreAmong some.now moved.new ⊎ AreAmong others.now moved.new }
{
    if some.len() <= others.len() {
        list_each(moved, some);
    } else {
        list_each(moved, others);
    }
}

// Lists each of these points.
fn list_each(moved: &mut Numbers, points: &[u16])
    requires points { All (λ p. p < 256) points.now }
    ensures kept { AreAmong moved.old moved.new }
    ensures listed { AreAmong points.now moved.new }
{
    for p in points {
        moved.add(*p);
    }
}

// Lists all numbers.
fn list_all(moved: &mut Numbers)
    ensures kept { AreAmong moved.old moved.new }
    ensures listed { (p : ℕ) → p < 256 → Contains moved.new p }
{
    for p in 0..POINTS as u16 {
        moved.add(p);
    }
}
