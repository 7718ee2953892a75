// How maps are made: empty, or as another one.
ghost use Rattle.std.specs.Prelude.{IfOk, ◌≡◌, None};
ghost use Rattle.tmm_model.specs.Standing.{empty_list};

use crate::time_map::MapCore;
use std::alloc::Global;
use tmm_model::NoMemory;

/// A map that opens empty.
pub trait Opens: MapCore {
    /// The empty map, with nothing pending.
    fn open(alloc: Global) -> Result<Self, NoMemory>
        ensures list { IfOk result (λ core. Self.list core ≡ empty_list) }
        ensures idle { IfOk result (λ core. Self.pending core ≡ None) };
}

/// A map that can be copied.
pub trait Copies: MapCore {
    /// A map of the same list, with nothing pending. What becomes of either one later leaves the
    /// other as it is.
    fn copy(&self, alloc: Global) -> Result<Self, NoMemory>
        requires idle { Self.pending self.now ≡ None }
        ensures list { IfOk result (λ core. Self.list core ≡ Self.list self.now) }
        ensures idle { IfOk result (λ core. Self.pending core ≡ None) };
}
