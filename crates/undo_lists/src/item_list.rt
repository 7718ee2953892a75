// One list, with the room for more items.
ghost use Rattle.std.specs.Prelude.{◌≡◌, ◌+◌, ◌<◌, ◌≤◌, [], length, take, drop, slice_index_or, insert, remove, vec_len, vec_capacity, IfOk, OnOk};

use std::alloc::Global;
use std::marker::Model;
use tmm_model::NoMemory;

/// A list of items, with the room for more at both ends: an item that enters or leaves moves those
/// on the side of it where fewer stand.
#[derive(Drop)]
pub(crate) struct ItemList<T> {
    // places that are free, and then the items
    places: Vec<T>,
    // how many places are free in front of the items
    start: usize,
}

impl<T> Model for ItemList<T> {
    ghost use Rattle.std.specs.Prelude.{◌≤◌, length, drop, vec_capacity};
    ghost use Rattle.undo_lists.specs.Rooms.{ListRoom};

    ghost Value = { ListRoom T };

    ghost view = { λ l. record { items = drop l.start l.places.items; room = vec_capacity l.places } };

    ghost invariant = { λ l. l.start ≤ length l.places.items };
}

impl<T: Copy> ItemList<T> {
    // A list of no items. It takes no memory.
    pub(crate) fn make(alloc: Global) -> ItemList<T>
        ensures { result.items ≡ [] }
    {
        ItemList {
            places: Vec::new(alloc),
            start: 0,
        }
    }

    // The items in order.
    pub(crate) fn as_slice(&self) -> &[T]
        ensures { result.now ≡ self.now.items }
    {
        &self.places[self.start..]
    }

    // Makes room for so many more items.
    pub(crate) fn reserve(&mut self, more: usize) -> Result<(), NoMemory>
        ensures items { self.new.items ≡ self.old.items }
        ensures ok { OnOk result (length self.new.items + more ≤ self.new.room) }
        ensures room { self.old.room ≤ self.new.room }
    {
        // places in front of the items are room too
        let needed = more.saturating_sub(self.start);
        match self.places.reserve(needed) {
            Ok(()) => Ok(()),
            Err(_) => Err(NoMemory),
        }
    }

    // Puts an item at a place, before what stood there. It takes no memory.
    pub(crate) fn insert(&mut self, place: usize, item: T)
        requires place { place ≤ length self.old.items }
        requires room { length self.old.items < self.old.room }
        ensures items { self.new.items ≡ insert self.old.items place item }
        ensures room { self.new.room ≡ self.old.room }
    {
        let behind = self.places.len() - self.start - place;
        if place < behind {
            self.insert_in_front(place, item);
        } else {
            self.insert_behind(place, item);
        }
    }

    // The same, where the items before the place move.
    fn insert_in_front(&mut self, place: usize, item: T)
        requires place { place ≤ length self.old.items }
        requires room { length self.old.items < self.old.room }
        ensures items { self.new.items ≡ insert self.old.items place item }
        ensures room { self.new.room ≡ self.old.room }
    {
        self.start = free_front(&mut self.places, self.start, item) - 1;
        put_before(&mut self.places, self.start, place, item);
    }

    // The same, where the items from the place on move.
    fn insert_behind(&mut self, place: usize, item: T)
        requires place { place ≤ length self.old.items }
        requires room { length self.old.items < self.old.room }
        ensures items { self.new.items ≡ insert self.old.items place item }
        ensures room { self.new.room ≡ self.old.room }
    {
        self.start = free_back(&mut self.places, self.start);
        let _ = self.places.insert(self.start + place, item);
    }

    // Takes the item out that stands at a place, and leaves room for it.
    pub(crate) fn remove(&mut self, place: usize) -> T
        requires { place < length self.old.items }
        ensures item { result ≡ slice_index_or self.old.items place result }
        ensures items { self.new.items ≡ remove self.old.items place }
        ensures room { self.new.room ≡ self.old.room }
        ensures left { length self.new.items < self.new.room }
    {
        let at = self.start + place;
        let behind = self.places.len() - at;
        if place < behind {
            let item = self.places[at];
            close_up(&mut self.places, self.start, place);
            self.start += 1;
            item
        } else {
            self.places.remove(at)
        }
    }

    // The same items, with no less room. It takes memory.
    pub(crate) fn copy(&self, alloc: Global) -> Result<ItemList<T>, NoMemory>
        ensures items { IfOk result (λ copy. copy.items ≡ self.now.items) }
        ensures room { IfOk result (λ copy. self.now.room ≤ copy.room) }
    {
        let mut places = Vec::with_capacity(alloc, self.places.capacity())?;
        places.extend_from_slice(self.as_slice())?;
        Ok(ItemList { places, start: 0 })
    }
}

// Puts an item at the free place `start`, and moves as many of those behind it before it.
fn put_before<T: Copy>(places: &mut Vec<T>, start: usize, count: usize, item: T)
    requires { start + count < vec_len places.old }
    ensures items { drop start places.new.items ≡ insert (drop (start + 1) places.old.items) count item }
    ensures len { vec_len places.new ≡ vec_len places.old }
    ensures capacity { vec_capacity places.new ≡ vec_capacity places.old }
{
    places[start] = item;
    places[start..start + count + 1].rotate_left(1);
}

// Moves as many items from `start` on by one, over the one behind them, and frees the place
// `start`.
fn close_up<T: Copy>(places: &mut Vec<T>, start: usize, count: usize)
    requires { start + count < vec_len places.old }
    ensures items { drop (start + 1) places.new.items ≡ remove (drop start places.old.items) count }
    ensures len { vec_len places.new ≡ vec_len places.old }
    ensures capacity { vec_capacity places.new ≡ vec_capacity places.old }
{
    places[start..start + count + 1].rotate_right(1);
}

// Lets a place be free in front of the items from `start` on, and answers where they begin then.
// Where none is, half of the room behind them comes to the front, with copies of any value.
fn free_front<T: Copy>(places: &mut Vec<T>, start: usize, any: T) -> usize
    requires within { start ≤ vec_len places.old }
    requires room { vec_len places.old < vec_capacity places.old + start }
    ensures some { 0 < result }
    ensures within { result ≤ vec_len places.new }
    ensures items { drop result places.new.items ≡ drop start places.old.items }
    ensures capacity { vec_capacity places.new ≡ vec_capacity places.old }
{
    if 0 < start {
        return start;
    }
    let len = places.len();
    let room = places.capacity() - len;
    let free = room - room / 2;
    push_copies(places, any, free);
    places.copy_within(0..len, free);
    free
}

// Lets a place be free behind the items from `start` on, and answers where they begin then. Where
// none is, half of the places in front of them come to the back.
fn free_back<T: Copy>(places: &mut Vec<T>, start: usize) -> usize
    requires within { start ≤ vec_len places.old }
    requires room { vec_len places.old < vec_capacity places.old + start }
    ensures some { vec_len places.new < vec_capacity places.new }
    ensures within { result ≤ vec_len places.new }
    ensures items { drop result places.new.items ≡ drop start places.old.items }
    ensures capacity { vec_capacity places.new ≡ vec_capacity places.old }
{
    let len = places.len();
    if len < places.capacity() {
        return start;
    }
    let left = start / 2;
    let freed = start - left;
    places.copy_within(freed..len, 0);
    places.truncate(len - freed);
    left
}

// Puts so many copies of a value behind the items.
fn push_copies<T: Copy>(places: &mut Vec<T>, any: T, count: usize)
    requires { vec_len places.old + count ≤ vec_capacity places.old }
    ensures items { take (vec_len places.old) places.new.items ≡ places.old.items }
    ensures len { vec_len places.new ≡ vec_len places.old + count }
    ensures capacity { vec_capacity places.new ≡ vec_capacity places.old }
{
    for _ in 0..count {
        places.push_reserved(any);
    }
}
