// What is kept, once more, for changes of its own.
ghost use Rattle.std.specs.Prelude.{◌≡◌, IfOk};
ghost use Rattle.occ_tree.specs.Edits.{Stays};
ghost use Rattle.occ_tree.specs.Places.{places};
ghost use Rattle.belief_table.specs.Copies.{IsCopy};
ghost use Rattle.belief_net.specs.Copying.{CopiesKept};

use crate::state::BeliefNet;
use belief_table::Beliefs;
use std::alloc::Global;
use tmm_model::NoMemory;

impl BeliefNet {
    /// The same occurrences and decisions, and the same last commit, for changes of their own. It
    /// takes memory.
    pub fn copy(&self, alloc: Global) -> Result<BeliefNet, NoMemory>
        ensures tree { IfOk result (λ copy. Stays self.now.tree copy.tree) }
        ensures places { IfOk result (λ copy. places copy.tree ≡ places self.now.tree) }
        ensures decisions { IfOk result (λ copy. IsCopy self.now.decisions copy.decisions) }
        ensures kept { IfOk result (CopiesKept self.now) }
    {
        Ok(BeliefNet {
            beliefs: Beliefs {
                tree: self.beliefs.tree.copy(alloc)?,
                decisions: self.beliefs.decisions.copy(alloc)?,
            },
        })
    }
}
