// The numbers of nodes.
ghost use Rattle.std.specs.Prelude.{◌↔◌, ℕ, nat_eq, IfOk};
ghost use Rattle.std.specs.List.{All, Contains, IsDistinct};
ghost use Rattle.spots.specs.Forest.{IsLive};
ghost use Rattle.row_links.specs.Lists.{IsOn, AreOnce};
ghost use Rattle.occ_tree.specs.Below.{IsBelow};
ghost use Rattle.occ_tree.specs.Standing.{present, forest};

use crate::below::list_below;
use crate::tree::Tree;
use std::alloc::Global;
use tmm_model::NoMemory;

impl Tree {
    /// The numbers of all nodes, each once. Without memory it answers that.
    pub fn numbers(&self, alloc: Global) -> Result<Vec<u32>, NoMemory>
        ensures live { IfOk result (λ numbers. All (IsLive (forest (present self.now))) numbers.items) }
        ensures all { IfOk result (λ numbers. (x : ℕ) → IsLive (forest (present self.now)) x → Contains numbers.items x) }
        ensures once { IfOk result (λ numbers. IsDistinct nat_eq numbers.items) }
    {
        let mut numbers = Vec::new(alloc);
        for x in 0..self.limit() {
            if self.is_live(x) {
                numbers.reserve(1)?;
                numbers.push_reserved(x);
            }
        }
        Ok(numbers)
    }

    /// The numbers of a node and of all below it, each once. Without memory it answers that.
    pub fn numbers_below(&self, alloc: Global, x: u32) -> Result<Vec<u32>, NoMemory>
        requires { IsLive (forest (present self.now)) x }
        ensures each { IfOk result (λ numbers. (y : ℕ) → IsOn numbers.items y ↔ IsBelow (forest (present self.now)) x y) }
        ensures once { IfOk result (λ numbers. AreOnce numbers.items) }
    {
        // each node stands where it says
        let _ = self.nodes().limit();
        list_below(alloc, self.nodes(), x)
    }
}
