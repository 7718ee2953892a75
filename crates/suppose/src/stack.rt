// Maps on one another.
ghost use Rattle.std.specs.Prelude.{◌≡◌, ◌↔◌, [], ◌∷◌, ◌++◌, Some, None, length, IfOk, IfErr, OnOk, OnErr};
ghost use Rattle.suppose.specs.Worlds.{first_world, supposed, kept, dropped};
ghost use Rattle.suppose.specs.Stacks.{world_of, IsSettled};

use map_core::{Copies, MapCore, Opens};
use std::alloc::Global;
use tmm_model::NoMemory;

/// The most suppositions that may stand at once.
pub const MOST_SUPPOSITIONS: usize = 8;

/// A map, and suppositions on top of it, each a map on the one below.
#[derive(Drop)]
pub struct Stack<M> {
    /// The maps below the one on top, the lowest first.
    pub below: Vec<M>,
    /// The map on top.
    pub top: M,
}

/// Why no supposition was put on top.
#[derive(Clone, Copy, PartialEq, Eq, Debug)]
pub enum StackStop {
    /// As many stand as may.
    Full,
    /// There was no memory.
    NoMemory,
}

impl From<NoMemory> for StackStop {
    ghost use Rattle.suppose.specs.declared.stack.StackStop.TheVariants.{NoMemory as Wanting};

    ghost from_gives = { λ _ stop. stop ≡ Wanting };

    fn from(_: NoMemory) -> StackStop {
        StackStop::NoMemory
    }
}

/// No supposition stands that could be kept or given up.
#[derive(Clone, Copy, PartialEq, Eq, Debug)]
pub struct NoneStands;

impl<M: Opens + Drop> Stack<M> {
    /// The empty map alone. Without memory it answers that.
    pub fn make(alloc: Global) -> Result<Stack<M>, NoMemory>
        ensures world { IfOk result (λ stack. world_of M.list stack ≡ first_world) }
        ensures settled { IfOk result (IsSettled M.pending) }
    {
        let top = M::open(alloc)?;
        Ok(Stack {
            below: Vec::new(alloc),
            top,
        })
    }
}

impl<M: MapCore + Drop> Stack<M> {
    /// How many suppositions stand.
    pub fn depth(&self) -> usize
        ensures { result ≡ length self.now.below.items }
    {
        self.below.len()
    }

    /// Takes the map on top over into the one below it. Where no supposition stands nothing
    /// changes. It takes no memory.
    pub fn keep(&mut self) -> Result<(), NoneStands>
        requires { IsSettled M.pending self.old }
        ensures kept { OnOk result (kept (world_of M.list self.old) ≡ Some (world_of M.list self.new)) }
        ensures none { OnErr result (kept (world_of M.list self.old) ≡ None) }
        ensures same { OnErr result (world_of M.list self.new ≡ world_of M.list self.old) }
        ensures settled { IsSettled M.pending self.new }
    {
        match self.below.pop() {
            Some(_) => Ok(()),
            None => Err(NoneStands),
        }
    }

    /// Gives the map on top up. Where no supposition stands nothing changes. It takes no memory.
    pub fn drop_top(&mut self) -> Result<(), NoneStands>
        requires { IsSettled M.pending self.old }
        ensures dropped { OnOk result (dropped (world_of M.list self.old) ≡ Some (world_of M.list self.new)) }
        ensures none { OnErr result (dropped (world_of M.list self.old) ≡ None) }
        ensures same { OnErr result (world_of M.list self.new ≡ world_of M.list self.old) }
        ensures settled { IsSettled M.pending self.new }
    {
        match self.below.pop() {
            Some(nearest) => {
                self.top = nearest;
                Ok(())
            }
            None => Err(NoneStands),
        }
    }
}

impl<M: Copies + Drop> Stack<M> {
    /// Puts a copy of the map on top on it. Where 8 suppositions stand, or without memory, nothing
    /// changes.
    pub fn suppose(&mut self, alloc: Global) -> Result<(), StackStop>
        requires { IsSettled M.pending self.old }
        ensures supposed { OnOk result (supposed (world_of M.list self.old) ≡ Some (world_of M.list self.new)) }
        ensures full { IfErr result (λ stop. (stop ≡ StackStop.Full) ↔ (supposed (world_of M.list self.old) ≡ None)) }
        ensures same { OnErr result (world_of M.list self.new ≡ world_of M.list self.old) }
        ensures settled { IsSettled M.pending self.new }
    {
        if self.depth() == MOST_SUPPOSITIONS {
            return Err(StackStop::Full);
        }
        self.copy_below(alloc)?;
        Ok(())
    }

    // Puts a copy of the map on top below it, where it stands for that map as it is now.
    fn copy_below(&mut self, alloc: Global) -> Result<(), NoMemory>
        requires { M.pending self.old.top ≡ None }
        ensures top { self.new.top ≡ self.old.top }
        ensures below { OnOk result ((copy : M) × (self.new.below.items ≡ self.old.below.items ++ copy ∷ []) × (M.list copy ≡ M.list self.old.top) × (M.pending copy ≡ None)) }
        ensures same { OnErr result (self.new.below.items ≡ self.old.below.items) }
    {
        let copy = self.top.copy(alloc)?;
        self.below.push(copy)?;
        Ok(())
    }
}
