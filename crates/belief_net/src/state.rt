// What is kept of beliefs.
ghost use Rattle.std.specs.Prelude.{◌≡◌};

use belief_table::Beliefs;
use occ_tree::Tree;
use std::marker::Model;

/// The believed occurrences, and the decisions on which they rest.
#[derive(Drop)]
pub struct BeliefNet {
    /// Both, as turns change them.
    pub(crate) beliefs: Beliefs,
}

impl Model for BeliefNet {
    ghost use Rattle.belief_table.specs.declared.state.Beliefs.{Beliefs};

    ghost Value = { Beliefs };

    ghost view = { λ b. b.beliefs };
}

impl BeliefNet {
    /// The occurrences as numbered nodes, now and at the last commit.
    pub fn tree(&self) -> &Tree
        ensures { result.now ≡ self.now.tree }
    {
        &self.beliefs.tree
    }
}
