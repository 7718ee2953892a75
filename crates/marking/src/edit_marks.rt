// What an edit has let wait from some date on: all rows of classes, and all rows whose rules read
// what contradicts facts.
ghost use Rattle.std.specs.Prelude.{◌≡◌, ◌↔◌, ℕ, ◌<◌, length, IsTrue, OnOk};
ghost use Rattle.marking.specs.EditMarks.{no_marks, later_of, IsLater, IsFrom, CoversFrom, CoversFact, MarksFrom, MarksFact};
ghost use Rattle.belief_table.specs.Waiting.{dates_in};

use belief_table::date_at;
use indexmap::IndexMap;
use std::alloc::Global;
use std::marker::Model;
use tmm_model::{Name, NoMemory};

/// So many tokens of a class at most are looked at each on its own; one walk over the rows of the
/// class serves all others.
const FEW_TOKENS: u32 = 16;

/// Among so many nodes one token of a class is looked at on its own, and more among fewer: each takes
/// a walk over the rows of the class, which a map of many nodes has many of.
const MANY_NODES: u32 = 65_536;

/// The classes of which all rows wait from some date on, and the facts of which all rows do whose
/// rules read what contradicts them, as far as these are later than what was decided since.
#[derive(Drop)]
pub struct EditMarks {
    // how many tokens of a class are looked at
    few: u32,
    // how many tokens of each class were looked at, by the number of the class
    counts: Vec<u32>,
    // the date from which on all rows of a class wait, by its number
    classes: Vec<Option<i64>>,
    // the date from which on all rows wait whose rules read what contradicts a fact
    facts: IndexMap<Name, i64>,
    // the latest date of a row that was decided
    decided: Option<i64>,
}

impl Model for EditMarks {
    ghost use Rattle.marking.specs.EditMarks.{Marked};

    ghost Value = { Marked };

    ghost view = { λ m. record { classes = m.classes.items; facts = m.facts.entries; decided = m.decided } };
}

impl EditMarks {
    /// Nothing is marked of so many nodes. It takes no memory.
    pub fn make(alloc: Global, nodes: u32) -> EditMarks
        ensures { result ≡ no_marks }
    {
        EditMarks {
            few: (MANY_NODES / nodes.max(1)).clamp(1, FEW_TOKENS),
            counts: Vec::new(alloc),
            classes: Vec::new(alloc),
            facts: IndexMap::new(alloc),
            decided: None,
        }
    }

    // Whether all rows of a class wait whose events are no earlier than this date.
    pub(crate) fn covers(&self, class: u32, from: i64) -> bool
        ensures { IsTrue result ↔ CoversFrom self.now class from }
    {
        is_from(date_at(&self.classes, class), self.decided, from)
    }

    // Counts one token more of a class; whether so many were counted before that all its rows are
    // to wait.
    pub(crate) fn count(&mut self, class: u32) -> Result<bool, NoMemory>
        ensures { self.new ≡ self.old }
    {
        count_at(&mut self.counts, class, self.few)
    }

    // Notes that all rows of a class wait whose events are no earlier than this date.
    pub(crate) fn mark(&mut self, class: u32, from: i64) -> Result<(), NoMemory>
        ensures { OnOk result (MarksFrom self.old self.new class from) }
    {
        reach(&mut self.classes, class)?;
        self.classes[class as usize] = Some(from);
        Ok(())
    }

    // Whether all rows wait whose rules read what contradicts a fact, at events no earlier than this
    // date.
    pub(crate) fn covers_fact(&self, fact: &Name, from: i64) -> bool
        ensures { IsTrue result ↔ CoversFact self.now fact.now from }
    {
        is_from(self.facts.get(fact).copied(), self.decided, from)
    }

    // Notes that all rows wait whose rules read what contradicts a fact, at events no earlier than
    // this date.
    pub(crate) fn mark_fact(&mut self, fact: Name, from: i64) -> Result<(), NoMemory>
        ensures { OnOk result (MarksFact self.old self.new fact from) }
    {
        match self.facts.insert(fact, from) {
            Ok(_) => Ok(()),
            Err(_) => Err(NoMemory),
        }
    }

    /// Notes that a row is decided that waited for this date.
    pub fn decide(&mut self, date: i64)
        ensures { self.new ≡ record self.old { decided = later_of self.old.decided date } }
    {
        self.decided = later(self.decided, date);
    }
}

// Whether a mark is from this date on, or from an earlier one, and nothing was decided that is as
// late.
fn is_from(mark: Option<i64>, decided: Option<i64>, from: i64) -> bool
    ensures { IsTrue result ↔ IsFrom mark decided from }
{
    match mark {
        Some(date) => date <= from && is_later(decided, from),
        None => false,
    }
}

// Whether a date is later than the latest that was decided.
fn is_later(decided: Option<i64>, date: i64) -> bool
    ensures { IsTrue result ↔ IsLater decided date }
{
    match decided {
        Some(last) => last < date,
        None => true,
    }
}

// The later of the latest date that was decided and this one.
fn later(decided: Option<i64>, date: i64) -> Option<i64>
    ensures { result ≡ later_of decided date }
{
    match decided {
        Some(last) => Some(if last < date { date } else { last }),
        None => Some(date),
    }
}

// Counts one more at a place; whether there were so few already.
fn count_at(counts: &mut Vec<u32>, class: u32, few: u32) -> Result<bool, NoMemory> {
    let place = class as usize;
    if counts.len() <= place {
        counts.resize(place + 1, 0)?;
    }
    if counts[place] >= few {
        return Ok(true);
    }
    counts[place] += 1;
    Ok(false)
}

// Makes a place for the class of a number.
fn reach(dates: &mut Vec<Option<i64>>, class: u32) -> Result<(), NoMemory>
    ensures within { OnOk result (class < length dates.new.items) }
    ensures same { (k : ℕ) → dates_in dates.new.items k ≡ dates_in dates.old.items k }
{
    let places = class as usize + 1;
    if dates.len() < places {
        dates.resize(places, None)?;
    }
    Ok(())
}
