// Classes under small numbers.
ghost use Rattle.std.specs.Prelude.{◌≡◌, ℕ, List, [], Some, None, IfOk, length};
ghost use Rattle.std.specs.List.{Contains, IsDistinct};
ghost use Rattle.tmm_model.specs.Points.{same_name};
ghost use Rattle.occ_tree.specs.Classes.{place_in, HaveMore};
ghost use Rattle.occ_tree.specs.Marks.{IsMarked};

use indexmap::IndexSet;
use std::alloc::Global;
use std::marker::Model;
use tmm_model::{Name, NoMemory};

/// The names of classes, each under the number of its place among them. A name stays.
#[derive(Drop)]
pub(crate) struct Classes {
    names: IndexSet<Name>,
}

impl Model for Classes {
    ghost use Rattle.std.specs.Prelude.{ℕ, List, ◌≤◌, length};

    ghost Value = { List (List ℕ) };

    ghost view = { λ c. c.names.keys };

    ghost invariant = { λ c. length c.names.keys ≤ 4294967295 };
}

impl Classes {
    // No classes. It takes no memory.
    pub(crate) fn make(alloc: Global) -> Classes
        ensures { result ≡ [] }
    {
        Classes {
            names: IndexSet::new(alloc),
        }
    }

    // The number of a class, none exactly where it has none.
    pub(crate) fn find(&self, class: &Name) -> Option<u32>
        ensures { result ≡ place_in self.now class.now }
    {
        Some(self.names.get_index_of(class)? as u32)
    }

    // How many classes there are: their numbers are those below it.
    pub(crate) fn len(&self) -> usize
        ensures { result ≡ length self.now }
    {
        self.names.len()
    }

    // The classes whose numbers are marked, each once.
    pub(crate) fn marked(&self, alloc: Global, marks: &[bool]) -> Result<Vec<Name>, NoMemory>
        requires { length marks.now ≡ length self.now }
        ensures all { IfOk result (λ classes. (class : List ℕ) (k : ℕ) → place_in self.now class ≡ Some k → IsMarked marks.now k → Contains classes.items class) }
        ensures once { IfOk result (λ classes. IsDistinct same_name classes.items) }
    {
        let names = self.names.as_slice();
        let mut classes = Vec::new(alloc);
        for k in 0..names.len() {
            if marks[k] {
                classes.reserve(1)?;
                classes.push_reserved(names[k]);
            }
        }
        Ok(classes)
    }

    // The number of a class, which is the next one where it has none. Those of others stay, also
    // without memory; it counts as want of memory that a number would be 2^32 - 1 or more.
    pub(crate) fn enter(&mut self, class: Name) -> Result<u32, NoMemory>
        ensures entered { IfOk result (λ k. place_in self.new class ≡ Some k) }
        ensures more { HaveMore self.old self.new }
    {
        match self.find(&class) {
            Some(k) => Ok(k),
            None => self.push(class),
        }
    }

    // The same classes, for more of their own. It takes memory.
    pub(crate) fn copy(&self) -> Result<Classes, NoMemory>
        ensures { IfOk result (λ copy. copy ≡ self.now) }
    {
        Ok(Classes {
            names: self.names.clone()?,
        })
    }

    // Gives a class that has none the next number.
    fn push(&mut self, class: Name) -> Result<u32, NoMemory>
        requires { place_in self.old class ≡ None }
        ensures entered { IfOk result (λ k. place_in self.new class ≡ Some k) }
        ensures more { HaveMore self.old self.new }
    {
        let k = self.names.len();
        if k >= u32::MAX as usize {
            return Err(NoMemory);
        }
        match self.names.insert(class) {
            Ok(_) => Ok(k as u32),
            Err(_) => Err(NoMemory),
        }
    }
}
