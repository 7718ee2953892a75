//! Lists under names: under each name the elements that came under it, in the order in which they
//! came.
//!
//! It stands on `tmm_model`. Contracts speak of the list of each name (`list_of`), which is empty
//! where nothing has come under it. Where there is no memory nothing has changed.
#![tactic(auto)]

ghost use Rattle.std.specs.Prelude.{◌≡◌, ℕ, List, [], OnOk, OnErr};
ghost use Rattle.name_lists.specs.Lists.{list_of, Appends};

use indexmap::IndexMap;
use std::alloc::Global;
use tmm_model::{Name, NoMemory};

/// A list of elements for each name.
#[derive(Drop)]
pub struct NameLists<T> {
    lists: IndexMap<Name, Vec<T>>,
}

impl<T: Copy> NameLists<T> {
    /// No elements under any name. It takes no memory.
    pub fn make(alloc: Global) -> NameLists<T>
        ensures { (name : List ℕ) → list_of result name ≡ [] }
    {
        NameLists {
            lists: IndexMap::new(alloc),
        }
    }

    /// The elements under a name, in the order in which they came.
    pub fn of(&self, name: &Name) -> &[T]
        ensures { result.now ≡ list_of self.now name.now }
    {
        match self.lists.get(name) {
            Some(list) => list.as_slice(),
            None => &[],
        }
    }

    /// Adds an element behind those under its name. Without memory nothing has changed.
    pub fn push(&mut self, alloc: Global, name: Name, element: T) -> Result<(), NoMemory>
        ensures ok { OnOk result (Appends (list_of self.old) (list_of self.new) name element) }
        ensures err { OnErr result ((other : List ℕ) → list_of self.new other ≡ list_of self.old other) }
    {
        if let Some(list) = self.lists.get_mut(&name) {
            return match list.push(element) {
                Ok(()) => Ok(()),
                Err(_) => Err(NoMemory),
            };
        }
        let mut list = Vec::with_capacity(alloc, 1)?;
        list.push_reserved(element);
        match self.lists.insert(name, list) {
            Ok(_) => Ok(()),
            Err(_) => Err(NoMemory),
        }
    }
}

#[cfg(test)]
mod tests;
