// Lists by number: made, read, and brought back.
ghost use Rattle.std.specs.Prelude.{◌≡◌, ◌+◌, ◌<◌, ◌≤◌, length, IfOk, OnOk};
ghost use Rattle.undo_lists.specs.Rooms.{items_in, rooms_in, HaveGrown};
ghost use Rattle.undo_lists.specs.Changes.{before, CanUndo};

use crate::change::Change;
use crate::item_list::ItemList;
use std::alloc::Global;
use tmm_model::NoMemory;

// Lets there be a list of the number, with room for so many more items.
pub(crate) fn reserve_at<T: Copy>(
    alloc: Global,
    lists: &mut Vec<ItemList<T>>,
    number: u32,
    more: usize,
) -> Result<(), NoMemory>
    ensures ok { OnOk result (length (items_in lists.new.items number) + more ≤ rooms_in lists.new.items number) }
    ensures grown { HaveGrown lists.old.items lists.new.items }
{
    reach(alloc, lists, number)?;
    widen(lists, number, more)
}

// Lets there be a list of the number.
fn reach<T: Copy>(alloc: Global, lists: &mut Vec<ItemList<T>>, number: u32) -> Result<(), NoMemory>
    ensures ok { OnOk result (number < length lists.new.items) }
    ensures grown { HaveGrown lists.old.items lists.new.items }
{
    while lists.len() <= number as usize {
        push_empty(alloc, lists)?;
    }
    Ok(())
}

// Lets there be one list more.
fn push_empty<T: Copy>(alloc: Global, lists: &mut Vec<ItemList<T>>) -> Result<(), NoMemory>
    ensures ok { OnOk result (length lists.new.items ≡ length lists.old.items + 1) }
    ensures grown { HaveGrown lists.old.items lists.new.items }
{
    lists.reserve(1)?;
    lists.push_reserved(ItemList::make(alloc));
    Ok(())
}

// Makes room for so many more items of a list that there is.
fn widen<T: Copy>(lists: &mut Vec<ItemList<T>>, number: u32, more: usize) -> Result<(), NoMemory>
    requires { number < length lists.old.items }
    ensures ok { OnOk result (length (items_in lists.new.items number) + more ≤ rooms_in lists.new.items number) }
    ensures grown { HaveGrown lists.old.items lists.new.items }
{
    lists[number as usize].reserve(more)
}

// Undoes a change.
pub(crate) fn undo<T: Copy>(lists: &mut Vec<ItemList<T>>, change: &Change<T>)
    requires { CanUndo (rooms_in lists.old.items) change.now (items_in lists.old.items) }
    ensures before { items_in lists.new.items ≡ before change.now (items_in lists.old.items) }
    ensures rooms { rooms_in lists.new.items ≡ rooms_in lists.old.items }
{
    match *change {
        Change::Inserted { list, place } => {
            let _ = lists[list as usize].remove(place);
        }
        Change::Removed { list, place, item } => lists[list as usize].insert(place, item),
    }
}

// The same lists, with no less room. It takes memory.
pub(crate) fn copy_all<T: Copy>(
    alloc: Global,
    lists: &[ItemList<T>],
) -> Result<Vec<ItemList<T>>, NoMemory>
    ensures { IfOk result (λ copies. HaveGrown lists.now copies.items) }
{
    let mut copies = Vec::with_capacity(alloc, lists.len())?;
    for list in lists {
        copies.push_reserved(list.copy(alloc)?);
    }
    Ok(copies)
}
