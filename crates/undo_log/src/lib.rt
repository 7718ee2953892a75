//! A log of changes with room that is reserved before they are made.
//!
//! It stands on `tmm_model`. An `Undo` is seen as a list of changes, the latest last, and a number
//! `spare` of changes that it still takes without memory. `reserve` is called before something is
//! changed, and `push` as it is changed, so that no want of memory can come between the two.
//! `pop_since` gives back what was pushed since a mark, latest first, which is the order of
//! undoing.
#![tactic(auto)]

ghost use Rattle.std.specs.Prelude.{◌≡◌, ◌+◌, ◌<◌, ◌≤◌, [], ◌∷◌, ◌++◌, length, None, IfSome, OnSome, IfNone, IfOk, OnOk, OnErr};

use std::alloc::Global;
use std::marker::Model;
use tmm_model::NoMemory;

/// A log of changes.
#[derive(Drop)]
pub struct Undo<T> {
    // the latest change is the last
    changes: Vec<T>,
}

impl<T> Model for Undo<T> {
    ghost use Rattle.std.specs.Prelude.{◌-◌, vec_len, vec_capacity};
    ghost use Rattle.undo_log.specs.Logs.{Log, log_code};

    ghost Value = { Log T };

    ghost coded = { log_code T.code };

    ghost view = { λ u. record { items = u.changes.items; spare = vec_capacity u.changes - vec_len u.changes } };
}

impl<T: Copy> Undo<T> {
    /// The empty log. It takes no memory.
    pub fn make(alloc: Global) -> Undo<T>
        ensures { result.items ≡ [] }
    {
        Undo {
            changes: Vec::new(alloc),
        }
    }

    /// Makes room for `n` more changes. Without memory the log is as before.
    pub fn reserve(&mut self, n: usize) -> Result<(), NoMemory>
        ensures items { self.new.items ≡ self.old.items }
        ensures ok { OnOk result (n ≤ self.new.spare) }
        ensures never_less { self.old.spare ≤ self.new.spare }
        ensures err { OnErr result (self.new ≡ self.old) }
    {
        match self.changes.reserve(n) {
            Ok(()) => Ok(()),
            Err(_) => Err(NoMemory),
        }
    }

    /// Appends a change. It takes no memory.
    pub fn push(&mut self, item: T)
        requires { 0 < self.old.spare }
        ensures items { self.new.items ≡ self.old.items ++ item ∷ [] }
        ensures spare { self.new.spare + 1 ≡ self.old.spare }
    {
        self.changes.push_reserved(item);
    }

    /// A log of the same changes. It takes memory.
    pub fn copy(&self, alloc: Global) -> Result<Undo<T>, NoMemory>
        ensures { IfOk result (λ copy. copy.items ≡ self.now.items) }
    {
        Ok(Undo {
            changes: Vec::from_slice(alloc, self.changes.as_slice())?,
        })
    }

    /// The number of changes, to which `pop_since` leads back.
    pub fn mark(&self) -> usize
        ensures { result ≡ length self.now.items }
    {
        self.changes.len()
    }

    /// Takes the latest change off the log, none exactly where there is none since the mark. It
    /// takes no memory, and leaves room for as many changes.
    pub fn pop_since(&mut self, mark: usize) -> Option<T>
        requires { mark ≤ length self.old.items }
        ensures latest { IfSome result (λ item. self.old.items ≡ self.new.items ++ item ∷ []) }
        ensures since { OnSome result (mark ≤ length self.new.items) }
        ensures spare { OnSome result (self.new.spare ≡ self.old.spare + 1) }
        ensures none { IfNone result ((length self.old.items ≡ mark) × (self.new ≡ self.old)) }
    {
        if self.changes.len() == mark {
            None
        } else {
            self.changes.pop()
        }
    }

    /// Takes all changes off the log. It takes no memory, and leaves room for as many changes.
    pub fn clear(&mut self)
        ensures items { self.new.items ≡ [] }
        ensures spare { self.new.spare ≡ self.old.spare + length self.old.items }
    {
        self.changes.clear();
    }
}

#[cfg(test)]
mod tests;
