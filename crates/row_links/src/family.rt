// One family of lists.
ghost use Rattle.std.specs.Prelude.{◌≡◌, ℕ, ◌+◌, ◌<◌, ◌≤◌, [], ◌∷◌, ◌++◌, length, None, Some, IfSome, IsOk, IfOk, OnOk, replicate};
ghost use Rattle.row_links.specs.Lists.{Lists, IsOn, IsOnNone, Grows, list_of, with_list, without, row_before, row_after, first_or, last_or, after_gap, put_after, AreOnce};

use crate::place::{Ends, Gap, Link, Place, set_after, set_before};
use std::alloc::Global;
use std::marker::Model;
use tmm_model::NoMemory;

/// One family of lists.
#[derive(Drop)]
pub(crate) struct Family {
    // where each row stands that is on a list
    places: Vec<Place>,
    // the ends of the list of each head
    ends: Vec<Ends>,
}

impl Model for Family {
    ghost use Rattle.row_links.specs.Lists.{Lists};

    ghost Value = { Lists };

    ghost use Rattle.row_links.specs.FamilyInside.{lists_in, IsSound};

    ghost view = { λ f. lists_in f.places.items f.ends.items };

    ghost invariant = { λ f. IsSound f.places.items f.ends.items };
}

impl Family {
    /// No rows and no heads. It takes no memory.
    pub fn make(alloc: Global) -> Family
        ensures { result ≡ record { rows = 0; lists = [] } }
    {
        Family {
            places: Vec::new(alloc),
            ends: Vec::new(alloc),
        }
    }

    /// Lets there be so many rows and heads, if there are fewer. The lists stay.
    pub fn reserve(&mut self, rows: u32, heads: u32) -> Result<(), NoMemory>
        ensures ok { OnOk result ((rows ≤ self.new.rows) × (heads ≤ length self.new.lists)) }
        ensures kept { Grows self.old self.new }
    {
        lengthen(&mut self.places, rows as usize, Place::nowhere())?;
        lengthen(&mut self.ends, heads as usize, Ends::of_none())
    }

    /// Lets there be so many rows and this head, if one is given. The lists stay.
    pub fn reserve_head(&mut self, rows: u32, head: Option<u32>) -> Result<(), NoMemory>
        ensures ok { OnOk result (IfSome head (λ h. (rows ≤ self.new.rows) × (h < length self.new.lists))) }
        ensures none { head ≡ None → IsOk result }
        ensures kept { Grows self.old self.new }
    {
        let Some(head) = head else {
            return Ok(());
        };
        let Some(heads) = heads_with(head) else {
            return Err(NoMemory);
        };
        self.reserve(rows, heads)
    }

    /// Puts a row that is on no list behind all others of a list.
    pub fn link_last(&mut self, head: u32, row: u32)
        requires head { head < length self.old.lists }
        requires row { row < self.old.rows }
        requires apart { IsOnNone self.old row }
        ensures list { self.new ≡ with_list self.old head (list_of self.old head ++ row ∷ []) }
        ensures back { with_list self.new head (without row (list_of self.new head)) ≡ self.old }
    {
        let before = self.last(head);
        self.relink(Gap { head, before }, row);
    }

    /// Takes a row out of its list, and answers its place there.
    pub fn unlink(&mut self, row: u32) -> Gap
        requires { (h : ℕ) × IsOn (list_of self.old h) row }
        ensures on { IsOn (list_of self.old result.head) row }
        ensures once { AreOnce (list_of self.old result.head) }
        ensures exist { (result.head < length self.new.lists) × (row < self.new.rows) }
        ensures before { result.before ≡ row_before row (list_of self.old result.head) }
        ensures only { (h : ℕ) → IsOn (list_of self.old h) row → h ≡ result.head }
        ensures list { self.new ≡ with_list self.old result.head (without row (list_of self.old result.head)) }
        ensures apart { IsOnNone self.new row }
        ensures gap { IfSome result.before (IsOn (list_of self.new result.head)) }
        ensures back { with_list self.new result.head (put_after result.before row (list_of self.new result.head)) ≡ self.old }
    {
        let place = self.places[row as usize];
        let (places, ends) = (&mut self.places, &mut self.ends);
        set_after(places, ends, place.head, place.before, place.after);
        set_before(places, ends, place.head, place.after, place.before);
        Gap {
            head: place.head,
            before: place.before.row(),
        }
    }

    /// Puts a row that is on no list into a place of a list.
    pub fn relink(&mut self, gap: Gap, row: u32)
        requires head { gap.head < length self.old.lists }
        requires row { row < self.old.rows }
        requires apart { IsOnNone self.old row }
        requires before { IfSome gap.before (IsOn (list_of self.old gap.head)) }
        ensures { self.new ≡ with_list self.old gap.head (put_after gap.before row (list_of self.old gap.head)) }
    {
        let after = self.after(gap);
        let (places, ends) = (&mut self.places, &mut self.ends);
        let (head, before, own) = (gap.head, Link::of(gap.before), Link::to(row));
        places[row as usize] = Place {
            head,
            before,
            after,
        };
        set_after(places, ends, head, before, own);
        set_before(places, ends, head, after, own);
    }

    /// The same lists, for changes of their own. It takes memory.
    pub fn copy(&self, alloc: Global) -> Result<Family, NoMemory>
        ensures { IfOk result (λ copy. copy ≡ self.now) }
    {
        Ok(Family {
            places: Vec::from_slice(alloc, self.places.as_slice())?,
            ends: Vec::from_slice(alloc, self.ends.as_slice())?,
        })
    }

    /// The first row of a list, none where it is empty or there is no such head.
    pub fn first(&self, head: u32) -> Option<u32>
        ensures first { result ≡ first_or None (list_of self.now head) }
        ensures once { AreOnce (list_of self.now head) }
    {
        self.ends.get(head as usize)?.first.row()
    }

    /// The row directly behind one of a list.
    pub fn next(&self, row: u32) -> Option<u32>
        requires { (h : ℕ) × IsOn (list_of self.now h) row }
        ensures { (h : ℕ) → IsOn (list_of self.now h) row → result ≡ row_after row (list_of self.now h) }
    {
        self.places[row as usize].after.row()
    }

    // The row directly behind a place of a list.
    fn after(&self, gap: Gap) -> Link
        requires head { gap.head < length self.now.lists }
        requires before { IfSome gap.before (IsOn (list_of self.now gap.head)) }
        ensures { result ≡ after_gap gap.before (list_of self.now gap.head) }
    {
        match gap.before {
            Some(x) => self.places[x as usize].after,
            None => self.ends[gap.head as usize].first,
        }
    }

    // The last row of a list.
    fn last(&self, head: u32) -> Option<u32>
        requires { head < length self.now.lists }
        ensures last { result ≡ last_or None (list_of self.now head) }
        ensures once { AreOnce (list_of self.now head) }
    {
        self.ends[head as usize].last.row()
    }
}

// How many heads there are at least where this is one of them, none exactly where that is 2^32.
fn heads_with(head: u32) -> Option<u32>
    ensures some { head < 4294967295 → result ≡ Some (head + 1) }
    ensures none { head ≡ 4294967295 → result ≡ None }
{
    head.checked_add(1)
}

// Lets there be `n` items, if there are fewer, those that are new all the same.
fn lengthen<T: Copy>(items: &mut Vec<T>, n: usize, item: T) -> Result<(), NoMemory>
    ensures ok { OnOk result (n ≤ length items.new.items) }
    ensures more { (k : ℕ) × (items.new.items ≡ items.old.items ++ replicate k item) }
    ensures few { (m : ℕ) → n ≤ m → length items.old.items ≤ m → length items.new.items ≤ m }
{
    if items.len() < n {
        items.resize(n, item)?;
    }
    Ok(())
}
