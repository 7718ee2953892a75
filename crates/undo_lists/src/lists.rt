// The lists.
ghost use Rattle.std.specs.Prelude.{◌≡◌, ℕ, ◌+◌, ◌<◌, ◌≤◌, [], length, slice_index_or, IfOk, OnOk, OnErr};
ghost use Rattle.undo_lists.specs.Rooms.{with_item, without_item};
ghost use Rattle.std.specs.List.{Contains};
ghost use Rattle.undo_lists.specs.Changes.{present, committed, rooms, changed};

use crate::change::Change;
use crate::item_list::ItemList;
use crate::steps::{copy_all, reserve_at, undo};
use std::alloc::Global;
use std::marker::Model;
use tmm_model::NoMemory;
use undo_log::Undo;

/// Lists under numbers 0, 1, ..: present ones and those of the last commit.
#[derive(Drop)]
pub struct Lists<T> {
    // the lists by number; where a number has none, its list is empty
    lists: Vec<ItemList<T>>,
    // the changes since the last commit
    log: Undo<Change<T>>,
}

impl<T> Model for Lists<T> {
    ghost use Rattle.undo_lists.specs.Rooms.{items_in, rooms_in};
    ghost use Rattle.undo_lists.specs.Changes.{Logged, CanUndoAll};

    ghost Value = { Logged T };

    ghost view = { λ l. record { lists = l.lists.items; log = l.log.items; spare = l.log.spare } };

    ghost invariant = { λ l. CanUndoAll (rooms_in l.lists.items) l.log.items (items_in l.lists.items) };
}

impl<T: Copy> Lists<T> {
    /// Lists of no items. It takes no memory.
    pub fn make(alloc: Global) -> Lists<T>
        ensures present { (number : ℕ) → present result number ≡ [] }
        ensures committed { committed result ≡ present result }
    {
        Lists {
            lists: Vec::new(alloc),
            log: Undo::make(alloc),
        }
    }

    /// The items of a list in order, none where nothing was ever put.
    pub fn list(&self, number: u32) -> &[T]
        ensures { result.now ≡ present self.now number }
    {
        match self.lists.get(number as usize) {
            Some(list) => list.as_slice(),
            None => &[],
        }
    }

    /// Makes room for so many more items of a list, and for so many more changes. The lists stay,
    /// and no room is less, also where there is no memory.
    pub fn reserve(
        &mut self,
        alloc: Global,
        number: u32,
        items: usize,
        changes: usize,
    ) -> Result<(), NoMemory>
        ensures items { OnOk result (length (present self.new number) + items ≤ rooms self.new number) }
        ensures changes { OnOk result (changes ≤ self.new.spare) }
        ensures present { present self.new ≡ present self.old }
        ensures committed { committed self.new ≡ committed self.old }
        ensures rooms { (n : ℕ) → rooms self.old n ≤ rooms self.new n }
        ensures spare { self.old.spare ≤ self.new.spare }
    {
        self.log.reserve(changes)?;
        reserve_at(alloc, &mut self.lists, number, items)
    }

    /// Puts an item at a place of a list, before what stood there. It takes no memory.
    pub fn insert(&mut self, number: u32, place: usize, item: T)
        requires place { place ≤ length (present self.old number) }
        requires room { length (present self.old number) < rooms self.old number }
        requires spare { 0 < self.old.spare }
        ensures present { present self.new ≡ with_item (present self.old) number place item }
        ensures committed { committed self.new ≡ committed self.old }
        ensures rooms { rooms self.new ≡ rooms self.old }
        ensures spare { self.new.spare + 1 ≡ self.old.spare }
    {
        self.lists[number as usize].insert(place, item);
        self.log.push(Change::Inserted {
            list: number,
            place,
        });
    }

    /// Takes the item out that stands at a place of a list. It takes no memory, and leaves room for
    /// the item.
    pub fn remove(&mut self, number: u32, place: usize) -> T
        requires place { place < length (present self.old number) }
        requires spare { 0 < self.old.spare }
        ensures item { result ≡ slice_index_or (present self.old number) place result }
        ensures present { present self.new ≡ without_item (present self.old) number place }
        ensures committed { committed self.new ≡ committed self.old }
        ensures rooms { rooms self.new ≡ rooms self.old }
        ensures spare { self.new.spare + 1 ≡ self.old.spare }
        ensures left { length (present self.new number) < rooms self.new number }
    {
        let item = self.lists[number as usize].remove(place);
        self.log.push(Change::Removed {
            list: number,
            place,
            item,
        });
        item
    }

    /// Makes room and puts an item at a place of a list, before what stood there. Without memory
    /// the lists stay.
    pub fn put(&mut self, alloc: Global, number: u32, place: usize, item: T) -> Result<(), NoMemory>
        requires { place ≤ length (present self.old number) }
        ensures ok { OnOk result (present self.new ≡ with_item (present self.old) number place item) }
        ensures err { OnErr result (present self.new ≡ present self.old) }
        ensures committed { committed self.new ≡ committed self.old }
    {
        self.reserve(alloc, number, 1, 1)?;
        self.insert(number, place, item);
        Ok(())
    }

    /// Makes room in the log, and takes the item out that stands at a place of a list. Without
    /// memory the lists stay.
    pub fn take(&mut self, alloc: Global, number: u32, place: usize) -> Result<T, NoMemory>
        requires { place < length (present self.old number) }
        ensures item { IfOk result (λ item. item ≡ slice_index_or (present self.old number) place item) }
        ensures ok { OnOk result (present self.new ≡ without_item (present self.old) number place) }
        ensures err { OnErr result (present self.new ≡ present self.old) }
        ensures committed { committed self.new ≡ committed self.old }
    {
        self.reserve(alloc, number, 0, 1)?;
        Ok(self.remove(number, place))
    }

    /// The numbers of the lists that changes were made to since the last commit, one for each
    /// change, the latest first. Every other list is that of the last commit. It takes memory.
    pub fn changed(&self, alloc: Global) -> Result<Vec<u32>, NoMemory>
        ensures numbers { IfOk result (λ numbers. numbers.items ≡ changed self.now) }
        ensures others { IfOk result (λ numbers. (n : ℕ) → (Contains numbers.items n → ⊥) → present self.now n ≡ committed self.now n) }
    {
        let mut log = self.log.copy(alloc)?;
        let mut numbers = Vec::with_capacity(alloc, log.mark())?;
        while let Some(change) = log.pop_since(0) {
            numbers.push_reserved(change.list());
        }
        Ok(numbers)
    }

    /// Makes the lists those of the last commit. It takes no memory.
    pub fn commit(&mut self)
        ensures present { present self.new ≡ present self.old }
        ensures committed { committed self.new ≡ present self.old }
        ensures rooms { rooms self.new ≡ rooms self.old }
        ensures spare { self.old.spare ≤ self.new.spare }
    {
        self.log.clear();
    }

    /// Makes the lists those of the last commit again, each in its order. It takes no memory.
    pub fn rollback(&mut self)
        ensures present { present self.new ≡ committed self.old }
        ensures committed { committed self.new ≡ committed self.old }
        ensures rooms { rooms self.new ≡ rooms self.old }
        ensures spare { self.old.spare ≤ self.new.spare }
    {
        while let Some(change) = self.log.pop_since(0) {
            undo(&mut self.lists, &change);
        }
    }

    /// The same lists, and the same last commit, for changes of their own. It takes memory.
    pub fn copy(&self, alloc: Global) -> Result<Lists<T>, NoMemory>
        ensures present { IfOk result (λ copy. present copy ≡ present self.now) }
        ensures committed { IfOk result (λ copy. committed copy ≡ committed self.now) }
        ensures rooms { IfOk result (λ copy. (n : ℕ) → rooms self.now n ≤ rooms copy n) }
    {
        let lists = copy_all(alloc, self.lists.as_slice())?;
        let log = self.log.copy(alloc)?;
        Ok(Lists { lists, log })
    }
}
