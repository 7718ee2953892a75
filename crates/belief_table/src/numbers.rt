// Names under small numbers.
ghost use Rattle.std.specs.Prelude.{◌≡◌, ◌⊎◌, ℕ, ◌<◌, List, [], None, Some, IfOk, OnOk, length};
ghost use Rattle.list_theory.proofs.Elements.{In};
ghost use Rattle.occ_tree.specs.Classes.{place_in, HaveMore};
ghost use Rattle.belief_table.specs.Numbers.{name_in, HaveOwnNumbers};

use indexmap::IndexSet;
use std::alloc::Global;
use std::marker::Model;
use tmm_model::{Name, NoMemory};

/// Names, each under the number of its place among them. A name stays.
#[derive(Drop)]
pub struct Numbers {
    names: IndexSet<Name>,
}

impl Model for Numbers {
    ghost use Rattle.std.specs.Prelude.{ℕ, List, ◌≤◌, length};

    ghost Value = { List (List ℕ) };

    ghost view = { λ n. n.names.keys };

    ghost invariant = { λ n. length n.names.keys ≤ 4294967295 };
}

impl Numbers {
    /// No names. It takes no memory.
    pub fn make(alloc: Global) -> Numbers
        ensures { result ≡ [] }
    {
        Numbers {
            names: IndexSet::new(alloc),
        }
    }

    /// How many names there are: their numbers are those below it.
    pub fn len(&self) -> u32
        ensures { result ≡ length self.now }
    {
        self.names.len() as u32
    }

    /// The number of a name, none exactly where it has none.
    pub fn find(&self, name: &Name) -> Option<u32>
        ensures place { result ≡ place_in self.now name.now }
        ensures own { HaveOwnNumbers self.now }
    {
        // it tells the proof that no name stands twice
        let _ = self.names.len();
        Some(self.names.get_index_of(name)? as u32)
    }

    /// Tells the proof that each name has the number of its place. It does nothing.
    pub fn have_own(&self)
        ensures { HaveOwnNumbers self.now }
    {
        // no name stands twice
        let _ = self.names.len();
    }

    /// The name of a number.
    pub fn name(&self, k: u32) -> Name
        requires { k < length self.now }
        ensures { result ≡ name_in self.now k }
    {
        match self.names.get_index(k as usize) {
            Some(name) => *name,
            None => unreachable!(),
        }
    }

    /// The number of a name, which is the next one where it has none. Those of others stay, also
    /// without memory; it counts as want of memory that a number would be 2^32 - 1 or more.
    pub fn enter(&mut self, name: Name) -> Result<u32, NoMemory>
        ensures entered { IfOk result (λ k. place_in self.new name ≡ Some k) }
        ensures more { HaveMore self.old self.new }
        ensures only { OnOk result ((other : List ℕ) → In other self.new → In other self.old ⊎ (other ≡ name)) }
    {
        match self.find(&name) {
            Some(k) => Ok(k),
            None => self.push(name),
        }
    }

    /// The same names, for more of their own. It takes memory.
    pub fn copy(&self) -> Result<Numbers, NoMemory>
        ensures { IfOk result (λ copy. copy ≡ self.now) }
    {
        Ok(Numbers {
            names: self.names.clone()?,
        })
    }

    // Gives a name that has none the next number.
    fn push(&mut self, name: Name) -> Result<u32, NoMemory>
        requires { place_in self.old name ≡ None }
        ensures entered { IfOk result (λ k. place_in self.new name ≡ Some k) }
        ensures more { HaveMore self.old self.new }
        ensures only { OnOk result ((other : List ℕ) → In other self.new → In other self.old ⊎ (other ≡ name)) }
    {
        let k = self.names.len();
        if k >= u32::MAX as usize {
            return Err(NoMemory);
        }
        match self.names.insert(name) {
            Ok(_) => Ok(k as u32),
            Err(_) => Err(NoMemory),
        }
    }
}
