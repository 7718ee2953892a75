// The rows.
ghost use Rattle.std.specs.Prelude.{◌≡◌, ℕ, slice_index_or, ◌+◌, ◌*◌, ◌^◌, ◌<◌, ◌≤◌, ◌↔◌, [], None, Some, IsSome, IsTrue, length, IfOk, IfSome, OnOk, OnErr};
ghost use Rattle.row_links.specs.Lists.{IsOn, first_or, row_after};
ghost use Rattle.undo_rows.specs.Tables.{new_row, AreListed};
ghost use Rattle.undo_rows.specs.Changes.{present, committed, Stays};
ghost use Rattle.undo_rows.specs.Fits.{RowFits};
ghost use Rattle.undo_rows.specs.Edits.{Adds, Removes, Sets};
ghost use Rattle.undo_rows.specs.Places.{PlacesGrow};

use crate::change::Change;
use crate::row::Row;
use crate::steps::{link_all, next_number, unlink_all};
use crate::stored::Stored;
use row_links::Links;
use slab::Slab;
use std::alloc::Global;
use std::marker::Model;
use tmm_model::NoMemory;
use undo_log::Undo;

/// Rows that keep a value each, on a list of each family under a head.
#[derive(Drop)]
pub struct Rows<T: Copy, const F: usize> {
    stored: Stored<T, F>,
    // every number that a row had since the rows were made is below it
    places: u32,
    // the changes since the last commit
    log: Undo<Change<T>>,
}

impl<T: Copy, const F: usize> Model for Rows<T, F> {
    ghost use Rattle.undo_rows.specs.Changes.{Logged};

    ghost Value = { Logged T F };

    ghost use Rattle.undo_rows.specs.RowsInside.{IsRows};
    ghost use Rattle.undo_rows.specs.Places.{AreBelow};

    ghost view = { λ r. record { rows = r.stored.rows.slots; families = r.stored.links; places = r.places; log = r.log.items; spare = r.log.spare } };

    ghost invariant = { λ r. IsRows r.stored.rows.slots r.stored.links r.log.items × AreBelow r.stored.rows.slots r.places };
}

impl<T: Copy, const F: usize> Rows<T, F> {
    /// No rows. It takes no memory.
    pub fn make(alloc: Global) -> Rows<T, F>
        requires { F * 8 < 2 ^ 63 }
        ensures row { (x : ℕ) → (present result).row x ≡ None }
        ensures list { (f h : ℕ) → (present result).list f h ≡ [] }
        ensures committed { committed result ≡ present result }
        ensures places { result.places ≡ 0 }
    {
        Rows {
            stored: Stored::make(alloc),
            places: 0,
            log: Undo::make(alloc),
        }
    }

    /// Adds a row that keeps a value, last on the list of each of its heads, and answers its
    /// number. A place is added only where each holds a row, and a family of which the row has no
    /// head takes no memory for it. Without memory nothing has changed; it counts as want of memory
    /// that a number would be 2^32 - 1 or more.
    pub fn add(
        &mut self,
        _alloc: Global,
        heads: [Option<u32>; F],
        value: T,
    ) -> Result<u32, NoMemory>
        ensures ok { IfOk result (λ x. Adds self.old self.new x (new_row heads.entry value)) }
        ensures few { IfOk result (λ x. x < 4294967295) }
        ensures below { IfOk result (λ x. x < self.new.places) }
        ensures grows { OnOk result (PlacesGrow self.old self.new) }
        ensures err { OnErr result (Stays self.old self.new) }
        ensures places { OnErr result (self.new.places ≡ self.old.places) }
    {
        let rows = &self.stored.rows;
        let x = next_number(rows.vacant_key(), rows.len(), self.places)?;
        self.stored.rows.reserve(1)?;
        self.stored.links.reserve_rows(x + 1, &heads)?;
        self.log.reserve(changes_of(&heads))?;
        self.stored.rows.insert_reserved(Row {
            heads,
            value,
            gone: false,
        });
        self.places = self.places.max(x + 1);
        self.log.push(Change::Entered { row: x });
        link_all(&mut self.stored.links, &mut self.log, x, &heads);
        Ok(x)
    }

    /// Makes room for so many more changes: a removal takes at most one for each family and one
    /// more, a new value takes one. Nothing else has changed, also where there is no memory.
    pub fn reserve(&mut self, _alloc: Global, changes: usize) -> Result<(), NoMemory>
        ensures ok { OnOk result (changes ≤ self.new.spare) }
        ensures stays { Stays self.old self.new }
        ensures spare { self.old.spare ≤ self.new.spare }
        ensures places { self.new.places ≡ self.old.places }
    {
        self.log.reserve(changes)
    }

    /// Takes a row off all its lists. Its number is free again after the next commit. Without
    /// memory nothing has changed.
    pub fn remove(&mut self, alloc: Global, x: u32) -> Result<(), NoMemory>
        requires { IsSome ((present self.old).row x) }
        ensures ok { OnOk result (Removes self.old self.new x) }
        ensures err { OnErr result (Stays self.old self.new) }
        ensures places { self.new.places ≡ self.old.places }
    {
        let changes = changes_of(&self.stored.rows[x as usize].heads);
        self.reserve(alloc, changes)?;
        self.remove_reserved(x);
        Ok(())
    }

    /// Takes a row off all its lists, where there is room for the changes. It takes no memory. The
    /// number is free again after the next commit.
    pub fn remove_reserved(&mut self, x: u32)
        requires live { IsSome ((present self.old).row x) }
        requires spare { F + 1 ≤ self.old.spare }
        ensures removed { Removes self.old self.new x }
        ensures spare { self.old.spare ≤ self.new.spare + (F + 1) }
        ensures places { self.new.places ≡ self.old.places }
    {
        let heads = self.stored.rows[x as usize].heads;
        unlink_all(&mut self.stored.links, &mut self.log, x, &heads);
        self.stored.rows[x as usize].gone = true;
        self.log.push(Change::Removed { row: x });
    }

    /// Keeps a value in a row. Without memory nothing has changed.
    pub fn set(&mut self, alloc: Global, x: u32, value: T) -> Result<(), NoMemory>
        requires { IsSome ((present self.old).row x) }
        ensures ok { OnOk result (Sets self.old self.new x value) }
        ensures err { OnErr result (Stays self.old self.new) }
        ensures places { self.new.places ≡ self.old.places }
    {
        self.reserve(alloc, 1)?;
        self.set_reserved(x, value);
        Ok(())
    }

    /// Keeps a value in a row, where there is room for the change. It takes no memory.
    pub fn set_reserved(&mut self, x: u32, value: T)
        requires live { IsSome ((present self.old).row x) }
        requires spare { 0 < self.old.spare }
        ensures set { Sets self.old self.new x value }
        ensures spare { self.new.spare + 1 ≡ self.old.spare }
        ensures places { self.new.places ≡ self.old.places }
    {
        let row = &mut self.stored.rows[x as usize];
        let before = row.value;
        row.value = value;
        self.log.push(Change::Replaced { row: x, before });
    }

    /// The row of a number.
    pub fn row(&self, x: u32) -> &Row<T, F>
        requires { IsSome ((present self.now).row x) }
        ensures { (present self.now).row x ≡ Some result.now }
    {
        &self.stored.rows[x as usize]
    }

    /// The value that a row keeps.
    pub fn get(&self, x: u32) -> &T
        requires { IsSome ((present self.now).row x) }
        ensures { IfSome ((present self.now).row x) (λ row. result.now ≡ row.value) }
    {
        &self.stored.rows[x as usize].value
    }

    /// Whether there is a row of this number.
    pub fn is_live(&self, x: u32) -> bool
        ensures { IsTrue result ↔ IsSome ((present self.now).row x) }
    {
        match self.stored.rows.get(x as usize) {
            Some(row) => !row.gone,
            None => false,
        }
    }

    /// How many places there are for rows: each row has a number below it, now and at the last
    /// commit.
    pub fn places(&self) -> u32
        ensures places { result ≡ self.now.places }
        ensures now { (x : ℕ) → IsSome ((present self.now).row x) → x < result }
        ensures then_ { (x : ℕ) → IsSome ((committed self.now).row x) → x < result }
    {
        self.places
    }

    /// The first row on the list of a head in a family, none exactly where there is none.
    pub fn first(&self, family: usize, head: u32) -> Option<u32>
        ensures first { result ≡ first_or None ((present self.now).list family head) }
        ensures listed { AreListed (present self.now) }
    {
        self.stored.links.first(family, head)
    }

    /// The row directly behind one on its list in a family, none exactly for the last.
    pub fn next(&self, family: usize, x: u32) -> Option<u32>
        requires { (h : ℕ) × IsOn ((present self.now).list family h) x }
        ensures { (h : ℕ) → IsOn ((present self.now).list family h) x → result ≡ row_after x ((present self.now).list family h) }
    {
        self.stored.links.next(family, x)
    }

    /// The same rows and lists, and the same last commit, for edits of its own. It takes memory.
    pub fn copy(&self, alloc: Global) -> Result<Rows<T, F>, NoMemory>
        requires { RowFits T.row F.row }
        ensures same { IfOk result (λ copy. copy ≡ record self.now { spare = copy.spare }) }
        ensures stays { IfOk result (Stays self.now) }
    {
        Ok(Rows {
            stored: self.stored.copy(alloc)?,
            places: self.places,
            log: self.log.copy(alloc)?,
        })
    }

    /// Makes the rows and lists those of the last commit. It takes no memory.
    pub fn commit(&mut self)
        ensures present { present self.new ≡ present self.old }
        ensures committed { committed self.new ≡ present self.old }
        ensures freed { (x : ℕ) → (present self.new).row x ≡ None → slice_index_or self.new.rows x None ≡ None }
        ensures places { self.new.places ≡ self.old.places }
    {
        while let Some(done) = self.log.pop_since(0) {
            self.stored.finish(&done);
        }
    }

    /// Makes the rows, the lists and their orders those of the last commit again. It takes no
    /// memory.
    pub fn rollback(&mut self)
        ensures present { present self.new ≡ committed self.old }
        ensures committed { committed self.new ≡ committed self.old }
        ensures places { self.new.places ≡ self.old.places }
    {
        while let Some(change) = self.log.pop_since(0) {
            self.stored.undo(&change);
        }
    }
}

// How many changes it takes at most to enter a row or to remove one: itself, and a list for each
// head.
fn changes_of(heads: &[Option<u32>]) -> usize
    ensures { result ≡ length heads.now + 1 }
{
    heads.len() + 1
}
