// A growable list, whose contracts see how many more items it takes without memory.
ghost use Rattle.std.specs.Prelude.{◌≡◌, ◌+◌, ◌-◌, ◌<◌, ◌≤◌, [], ◌∷◌, ◌++◌, length, IfOk, IfErr, OnOk, OnErr};
ghost use Rattle.tmm_model.specs.Points.{slashed};

use crate::memory::NoMemory;
use crate::name::{Name, append_links};
use std::alloc::Global;
use std::marker::Model;

/// A growable list. Contracts see its items and its room, the number of further items that it takes
/// without asking for memory.
#[derive(Drop)]
pub struct Seq<T> {
    inner: Vec<T>,
}

impl<T> Model for Seq<T> {
    ghost use Rattle.std.specs.Prelude.{◌-◌, vec_len, vec_capacity};
    ghost use Rattle.tmm_model.specs.Types.{Listed, listed_code};

    ghost Value = { Listed T };

    ghost coded = { listed_code T.code };

    ghost view = { λ s. record { items = s.inner.items; room = vec_capacity s.inner - vec_len s.inner } };
}

impl<T> Seq<T> {
    /// The empty list. It takes no memory.
    pub fn make(alloc: Global) -> Seq<T>
        ensures { result.items ≡ [] }
    {
        Seq {
            inner: Vec::new(alloc),
        }
    }

    /// Makes room for `n` more items. Without memory the list is as before.
    pub fn reserve(&mut self, n: usize) -> Result<(), NoMemory>
        ensures items { self.new.items ≡ self.old.items }
        ensures ok { OnOk result (n ≤ self.new.room) }
        ensures never_less { self.old.room ≤ self.new.room }
        ensures full { OnErr result (self.old.room < n) }
        ensures err { OnErr result (self.new ≡ self.old) }
    {
        match self.inner.reserve(n) {
            Ok(()) => Ok(()),
            Err(_) => Err(NoMemory),
        }
    }

    /// Appends an item. Without memory, which is asked for only where no room is left, it comes
    /// back.
    pub fn push(&mut self, item: T) -> Result<(), T>
        ensures ok { OnOk result (self.new.items ≡ self.old.items ++ item ∷ []) }
        ensures room { self.old.room ≤ self.new.room + 1 }
        ensures err { OnErr result (self.new.items ≡ self.old.items) }
        ensures full { OnErr result (self.old.room ≡ 0) }
        ensures item_returned { IfErr result (λ back. back ≡ item) }
    {
        match self.inner.push(item) {
            Ok(()) => Ok(()),
            Err(refused) => Err(refused.value),
        }
    }

    /// The items.
    pub fn items(&self) -> &[T]
        ensures { result.now ≡ self.now.items }
    {
        self.inner.as_slice()
    }
}

impl<T: Copy> Seq<T> {
    /// A list of the same items.
    pub fn copy(&self, alloc: Global) -> Result<Seq<T>, NoMemory>
        ensures { IfOk result (λ copy. copy.items ≡ self.now.items) }
    {
        let mut copy = Seq::make(alloc);
        copy.extend(self.items())?;
        Ok(copy)
    }

    /// Appends the items. Without memory, which is asked for only where there is too little room,
    /// the list is as before.
    pub fn extend(&mut self, items: &[T]) -> Result<(), NoMemory>
        ensures ok { OnOk result (self.new.items ≡ self.old.items ++ items.now) }
        ensures room { self.old.room ≤ self.new.room + length items.now }
        ensures err { OnErr result (self.new.items ≡ self.old.items) }
        ensures full { OnErr result (self.old.room < length items.now) }
    {
        match self.inner.extend_from_slice(items) {
            Ok(()) => Ok(()),
            Err(_) => Err(NoMemory),
        }
    }
}

impl Seq<u8> {
    /// Appends the names, each behind a `/`. Without memory, which is asked for where there is no
    /// room for so many of the longest names, the list is as before.
    pub fn put_links(&mut self, names: &[Name]) -> Result<(), NoMemory>
        ensures ok { OnOk result (self.new.items ≡ self.old.items ++ slashed names.now) }
        ensures err { OnErr result (self.new.items ≡ self.old.items) }
    {
        append_links(names, &mut self.inner)
    }
}

impl<T: Drop> Seq<T> {
    /// Appends an item. Without memory, which is asked for only where no room is left, the list is
    /// as before, and the item is dropped.
    pub fn append(&mut self, item: T) -> Result<(), NoMemory>
        ensures ok { OnOk result (self.new.items ≡ self.old.items ++ item ∷ []) }
        ensures room { self.old.room ≤ self.new.room + 1 }
        ensures err { OnErr result (self.new.items ≡ self.old.items) }
        ensures full { OnErr result (self.old.room ≡ 0) }
    {
        match self.push(item) {
            Ok(()) => Ok(()),
            Err(_) => Err(NoMemory),
        }
    }

    /// Removes all items, and keeps the room. It takes no memory.
    pub fn clear(&mut self)
        ensures items { self.new.items ≡ [] }
        ensures room { self.old.room + length self.old.items ≤ self.new.room }
    {
        self.inner.clear();
    }
}
