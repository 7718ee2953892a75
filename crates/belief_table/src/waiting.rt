// Rows that wait to be decided again, the earliest first.
ghost use Rattle.std.specs.Prelude.{◌≡◌, ◌↔◌, ℕ, ◌<◌, ◌≤ℤ◌, [], ◌∷◌, None, Some, length, IsTrue, MatchOption, IfOk, OnOk, OnErr};
ghost use Rattle.std.specs.List.{All};
ghost use Rattle.std.specs.List.Sorted.{IsPermutation};
ghost use Rattle.belief_table.specs.Waiting.{dates_in, waits_in, AreQueued, Puts, Takes};

use std::alloc::Global;
use std::cmp::Reverse;
use std::collections::BinaryHeap;
use std::marker::Model;
use tmm_model::NoMemory;

/// A row that waits for the earliest date of its event.
#[derive(Clone, Copy, PartialEq, Eq, PartialOrd, Ord)]
pub struct Entry {
    /// The date, in whole time units, reversed so that the queue gives the earliest first.
    pub early: Reverse<i64>,
    /// The number of the row.
    pub row: u32,
}

/// Entries, of which the earliest comes first.
#[derive(Drop)]
struct Queue {
    heap: BinaryHeap<Entry>,
}

impl Model for Queue {
    ghost use Rattle.std.specs.Prelude.{List};
    ghost use Rattle.std.specs.BinaryHeap.{heap_items, IsHeap};
    ghost use Rattle.belief_table.specs.declared.waiting.Entry.{Entry};

    ghost Value = { List Entry };

    ghost view = { λ q. heap_items q.heap };

    ghost invariant = { λ q. IsHeap ⟦<Entry as Ord>⟧.cmp (heap_items q.heap) };
}

impl Queue {
    // The empty queue. It takes no memory.
    fn make(alloc: Global) -> Queue
        ensures { result ≡ [] }
    {
        Queue {
            heap: BinaryHeap::new(alloc),
        }
    }

    // Adds an entry. Without memory nothing has changed.
    fn push(&mut self, entry: Entry) -> Result<(), NoMemory>
        ensures ok { OnOk result (IsPermutation (entry ∷ self.old) self.new) }
        ensures err { OnErr result (self.new ≡ self.old) }
    {
        match self.heap.push(entry) {
            Ok(()) => Ok(()),
            Err(_) => Err(NoMemory),
        }
    }

    // An entry of which no other is earlier.
    fn pop(&mut self) -> Option<Entry>
        ensures { MatchOption result (self.old ≡ []) (λ e. IsPermutation self.old (e ∷ self.new) × All (λ o. e.early.0 ≤ℤ o.early.0) self.new) }
    {
        self.heap.pop()
    }

    // The same entries, in a queue of their own. It takes memory.
    fn copy(&self) -> Result<Queue, NoMemory>
        ensures { IfOk result (λ copy. copy ≡ self.now) }
    {
        Ok(Queue {
            heap: self.heap.clone()?,
        })
    }

    // Takes all entries out. It takes no memory.
    fn clear(&mut self)
        ensures { self.new ≡ [] }
    {
        self.heap.clear();
    }
}

/// The rows that wait, each for the earliest date of its event.
#[derive(Drop)]
pub struct Waiting {
    // the date for which each row waits, by its number
    dates: Vec<Option<i64>>,
    // each row that waits is there with its date; entries for which no row waits are passed over
    queue: Queue,
}

impl Model for Waiting {
    ghost use Rattle.std.specs.Prelude.{List, Option, ℤ};
    ghost use Rattle.belief_table.specs.Waiting.{dates_in, AreQueued};

    ghost Value = { List (Option ℤ) };

    ghost view = { λ w. w.dates.items };

    ghost invariant = { λ w. AreQueued (dates_in w.dates.items) w.queue };
}

impl Waiting {
    /// No rows. It takes no memory.
    pub fn make(alloc: Global) -> Waiting
        ensures { result ≡ [] }
    {
        Waiting {
            dates: Vec::new(alloc),
            queue: Queue::make(alloc),
        }
    }

    /// Whether a row waits.
    pub fn has(&self, row: u32) -> bool
        ensures { result ≡ waits_in self.now row }
    {
        date_at(&self.dates, row).is_some()
    }

    // Whether a row waits for this date.
    pub(crate) fn is_for(&self, row: u32, date: i64) -> bool
        ensures { IsTrue result ↔ (dates_in self.now row ≡ Some date) }
    {
        date_at(&self.dates, row) == Some(date)
    }

    /// Lets a row wait for a date. Without memory all wait as before. Where it waits for that date
    /// already nothing is done: a token that moves lets all rows of its class wait, and many may
    /// move in one edit.
    pub fn push(&mut self, row: u32, date: i64) -> Result<(), NoMemory>
        ensures ok { OnOk result (Puts (dates_in self.old) (dates_in self.new) row (Some date)) }
        ensures err { OnErr result ((i : ℕ) → dates_in self.new i ≡ dates_in self.old i) }
    {
        if self.is_for(row, date) {
            Ok(())
        } else {
            self.enter(row, date)
        }
    }

    // Puts a row among those that wait, for a date.
    fn enter(&mut self, row: u32, date: i64) -> Result<(), NoMemory>
        ensures ok { OnOk result (Puts (dates_in self.old) (dates_in self.new) row (Some date)) }
        ensures err { OnErr result ((i : ℕ) → dates_in self.new i ≡ dates_in self.old i) }
    {
        self.reach(row)?;
        self.queue.push(Entry {
            early: Reverse(date),
            row,
        })?;
        self.dates[row as usize] = Some(date);
        Ok(())
    }

    // Lets a row wait no more. It takes no memory.
    pub(crate) fn remove(&mut self, row: u32)
        ensures { Puts (dates_in self.old) (dates_in self.new) row None }
    {
        clear_at(&mut self.dates, row);
    }

    /// A row of which no other waits for an earlier date. It waits no more.
    pub fn pop(&mut self) -> Option<Entry>
        ensures first { MatchOption result ((i : ℕ) → dates_in self.old i ≡ None) (λ e. Takes (dates_in self.old) (dates_in self.new) e.row e.early.0) }
        ensures rests { result ≡ None → (i : ℕ) → dates_in self.new i ≡ None }
    {
        pop_first(&mut self.dates, &mut self.queue)
    }

    /// The same rows, each waiting for the same date, for changes of their own. It takes memory.
    pub fn copy(&self, alloc: Global) -> Result<Waiting, NoMemory>
        ensures { IfOk result (λ copy. copy ≡ self.now) }
    {
        Ok(Waiting {
            dates: Vec::from_slice(alloc, self.dates.as_slice())?,
            queue: self.queue.copy()?,
        })
    }

    /// Lets no row wait. It takes no memory.
    pub fn clear(&mut self)
        ensures { self.new ≡ [] }
    {
        self.dates.clear();
        self.queue.clear();
    }

    // Makes a place for the row of a number. Without memory nothing has changed.
    fn reach(&mut self, row: u32) -> Result<(), NoMemory>
        ensures within { OnOk result (row < length self.new) }
        ensures same { (i : ℕ) → dates_in self.new i ≡ dates_in self.old i }
    {
        let places = row as usize + 1;
        if self.dates.len() < places {
            self.dates.resize(places, None)?;
        }
        Ok(())
    }
}

/// The date at a place, none where there is no such place.
pub fn date_at(dates: &[Option<i64>], row: u32) -> Option<i64>
    ensures { result ≡ dates_in dates.now row }
{
    dates.get(row as usize).copied().flatten()
}

// Puts no date at a place.
fn clear_at(dates: &mut [Option<i64>], row: u32)
    ensures { Puts (dates_in dates.old) (dates_in dates.new) row None }
{
    let place = row as usize;
    if place < dates.len() {
        dates[place] = None;
    }
}

// Takes out entries up to the first that is for the date of its row, which has none then.
fn pop_first(dates: &mut [Option<i64>], queue: &mut Queue) -> Option<Entry>
    requires { AreQueued (dates_in dates.old) queue.old }
    ensures queued { AreQueued (dates_in dates.new) queue.new }
    ensures first { MatchOption result ((i : ℕ) → dates_in dates.old i ≡ None) (λ e. Takes (dates_in dates.old) (dates_in dates.new) e.row e.early.0) }
    ensures rests { result ≡ None → dates.new ≡ dates.old }
{
    while let Some(entry) = queue.pop() {
        if date_at(dates, entry.row) == Some(entry.early.0) {
            clear_at(dates, entry.row);
            return Some(entry);
        }
    }
    None
}
