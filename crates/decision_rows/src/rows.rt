// The rows.
ghost use Rattle.std.specs.Prelude.{◌≡◌, ℕ, slice_index_or, slice_get, ◌≤◌, [], None, IsSome, length, IfOk, IfSome, OnOk, OnErr};
ghost use Rattle.row_links.specs.Lists.{IsOn, first_or, row_after};
ghost use Rattle.undo_rows.specs.Tables.{AreListed};
ghost use Rattle.undo_rows.specs.Changes.{present, committed, Stays};
ghost use Rattle.undo_rows.specs.Edits.{Adds, Removes};
ghost use Rattle.decision_rows.specs.Decisions.{new_row, classes_in, Decides};

use crate::row::{Decision, FAMILIES, Pair};
use std::alloc::Global;
use std::marker::Model;
use tmm_model::NoMemory;

/// One row for each decision, on lists by trigger, by rule and by the class of each fact that the
/// rule reads.
#[derive(Drop)]
pub struct Rows {
    rows: undo_rows::Rows<Pair, FAMILIES>,
}

impl Model for Rows {
    ghost use Rattle.undo_rows.specs.Changes.{Logged};
    ghost use Rattle.decision_rows.specs.declared.row.Pair.{Pair};

    ghost Value = { Logged Pair 8 };

    ghost view = { λ r. r.rows };
}

impl Rows {
    /// No rows. It takes no memory.
    pub fn make(alloc: Global) -> Rows
        ensures row { (x : ℕ) → (present result).row x ≡ None }
        ensures list { (f h : ℕ) → (present result).list f h ≡ [] }
        ensures committed { committed result ≡ present result }
    {
        Rows {
            rows: undo_rows::Rows::make(alloc),
        }
    }

    /// Adds a row of a trigger, a rule and the classes of what it reads, of which nothing is
    /// decided, last on each of its lists, and answers its number. Without memory nothing has
    /// changed; it counts as want of memory that a number would be 2^32 - 1 or more.
    pub fn add(
        &mut self,
        alloc: Global,
        trigger: u32,
        rule: u32,
        classes: &[u32],
    ) -> Result<u32, NoMemory>
        requires { length classes.now ≤ 6 }
        ensures ok { IfOk result (λ x. Adds self.old self.new x (new_row trigger rule (classes_in classes.now))) }
        ensures err { OnErr result (Stays self.old self.new) }
    {
        let heads = [
            Some(trigger),
            Some(rule),
            class_at(classes, 0),
            class_at(classes, 1),
            class_at(classes, 2),
            class_at(classes, 3),
            class_at(classes, 4),
            class_at(classes, 5),
        ];
        let pair = Pair {
            trigger,
            rule,
            decision: Decision::Beyond,
        };
        self.rows.add(alloc, heads, pair)
    }

    /// Takes a row off all its lists. Its number is free again after the next commit. Without
    /// memory nothing has changed.
    pub fn remove(&mut self, alloc: Global, x: u32) -> Result<(), NoMemory>
        requires { IsSome ((present self.old).row x) }
        ensures ok { OnOk result (Removes self.old self.new x) }
        ensures err { OnErr result (Stays self.old self.new) }
    {
        self.rows.remove(alloc, x)
    }

    /// Keeps a decision of a row. Without memory nothing has changed.
    pub fn set(&mut self, alloc: Global, x: u32, found: Decision) -> Result<(), NoMemory>
        requires { IsSome ((present self.old).row x) }
        ensures ok { OnOk result (Decides self.old self.new x found) }
        ensures err { OnErr result (Stays self.old self.new) }
    {
        let mut pair = *self.rows.get(x);
        pair.decision = found;
        self.rows.set(alloc, x, pair)
    }

    /// The decision that a row keeps.
    pub fn get(&self, x: u32) -> Decision
        requires { IsSome ((present self.now).row x) }
        ensures { IfSome ((present self.now).row x) (λ row. result ≡ row.value.decision) }
    {
        self.rows.get(x).decision
    }

    /// The trigger and the rule of a row.
    pub fn pair(&self, x: u32) -> (u32, u32)
        requires { IsSome ((present self.now).row x) }
        ensures { IfSome ((present self.now).row x) (λ row. (result.0 ≡ row.value.trigger) × (result.1 ≡ row.value.rule)) }
    {
        let pair = self.rows.get(x);
        (pair.trigger, pair.rule)
    }

    /// The first row on the list of a head in a family, none exactly where there is none: family 0
    /// is by trigger, 1 by rule, 2 to 7 by the class of a fact that the rule reads.
    pub fn first(&self, family: usize, head: u32) -> Option<u32>
        ensures first { result ≡ first_or None ((present self.now).list family head) }
        ensures listed { AreListed (present self.now) }
    {
        self.rows.first(family, head)
    }

    /// The row directly behind one on its list in a family, none exactly for the last.
    pub fn next(&self, family: usize, x: u32) -> Option<u32>
        requires { (h : ℕ) × IsOn ((present self.now).list family h) x }
        ensures { (h : ℕ) → IsOn ((present self.now).list family h) x → result ≡ row_after x ((present self.now).list family h) }
    {
        self.rows.next(family, x)
    }

    /// The same rows and lists, and the same last commit, for edits of its own. It takes memory.
    pub fn copy(&self, alloc: Global) -> Result<Rows, NoMemory>
        ensures same { IfOk result (λ copy. copy ≡ record self.now { spare = copy.spare }) }
        ensures stays { IfOk result (Stays self.now) }
    {
        Ok(Rows {
            rows: self.rows.copy(alloc)?,
        })
    }

    /// Makes the rows and lists those of the last commit. It takes no memory.
    pub fn commit(&mut self)
        ensures present { present self.new ≡ present self.old }
        ensures committed { committed self.new ≡ present self.old }
        ensures freed { (x : ℕ) → (present self.new).row x ≡ None → slice_index_or self.new.rows x None ≡ None }
    {
        self.rows.commit();
    }

    /// Makes the rows, the lists and their orders those of the last commit again. It takes no
    /// memory.
    pub fn rollback(&mut self)
        ensures present { present self.new ≡ committed self.old }
        ensures committed { committed self.new ≡ committed self.old }
    {
        self.rows.rollback();
    }
}

// The class at a place.
fn class_at(classes: &[u32], i: usize) -> Option<u32>
    ensures { result ≡ slice_get classes.now i }
{
    classes.get(i).copied()
}
