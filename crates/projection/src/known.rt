// What is known of the rules on kinds, while events enter one after the other.
ghost use Rattle.std.specs.Prelude.{◌≡◌, ◌≢◌, ◌≤◌, true, false, [], IfOk};
ghost use Rattle.dist_net.specs.Net.{Net};
ghost use Rattle.occ_tree.specs.Places.{forest};
ghost use Rattle.projection.specs.Kinds.{AreKnown, AreRulesOn, IsUnasked, places_in};
ghost use Rattle.projection.specs.Queues.{weight_at};
ghost use Rattle.spots.specs.Forest.{IsLive};
ghost use Rattle.spots.specs.OfLists.{IsForestOf};
ghost use Rattle.tmm_model.specs.Beliefs.{rules_on};
ghost use Rattle.tmm_model.specs.Standing.{Standing as List};

use crate::kinds::RulesByKind;
use crate::weight::{KindCount, rules_on_kind, weight_after};
use occ_tree::Tree;
use premise_list::Standing;
use std::alloc::Global;
use tmm_model::{Name, NoMemory};

/// What is known of the rules on kinds, while events enter one after the other. The first event
/// takes a walk over the premises; where another one would take one too, all rules are put under
/// their kinds.
#[derive(Drop)]
pub struct KnownKinds {
    last: Option<KindCount>,
    rules: Option<RulesByKind>,
}

impl KnownKinds {
    /// Nothing is known. It takes no memory.
    pub fn make() -> KnownKinds
        ensures { (s : List) → AreKnown s result }
    {
        KnownKinds {
            last: None,
            rules: None,
        }
    }

    /// Asks of the rules on a kind; whether `places` tells them then. If not, it is the first kind,
    /// and has rules.
    pub fn ask(&mut self, alloc: Global, standing: &Standing, kind: Name) -> Result<bool, NoMemory>
        requires known { AreKnown standing.now.present self.old }
        ensures told { IfOk result (λ told. told ≡ true → AreRulesOn standing.now.present kind (places_in self.new kind)) }
        ensures first { IfOk result (λ told. told ≡ false → IsUnasked self.old × (rules_on standing.now.present kind ≢ [])) }
        ensures asked { IfOk result (λ told. IsUnasked self.new → ⊥) }
        ensures known { AreKnown standing.now.present self.new }
    {
        if self.rules.is_some() {
            return Ok(true);
        }
        let Some(known) = self.last else {
            return Ok(rules_on_kind(standing, kind, &mut self.last) == 0);
        };
        if known.kind == kind && known.count == 0 {
            return Ok(true);
        }
        self.rules = Some(RulesByKind::of(alloc, standing)?);
        Ok(true)
    }

    /// The places of the rules on a kind, where these are known.
    pub fn places(&self, kind: &Name) -> &[u32]
        ensures { result.now ≡ places_in self.now kind.now }
    {
        match &self.rules {
            Some(rules) => rules.on(kind),
            None => &[],
        }
    }

    /// What the occurrence at a node counts of the size of a map.
    pub fn weight(&mut self, standing: &Standing, tree: &Tree, x: u32) -> u64
        requires seen { (net : Net) × IsForestOf standing.now.present net (forest tree.now) }
        requires live { IsLive (forest tree.now) x }
        requires known { AreKnown standing.now.present self.old }
        ensures value { result ≡ weight_at standing.now.present (forest tree.now) x }
        ensures few { result ≤ 4294969296 }
        ensures known { AreKnown standing.now.present self.new }
    {
        match &self.rules {
            Some(rules) => {
                let places = rules.at(standing, tree, x);
                1 + u64::from(tree.row(x).rules) + places.len() as u64
            }
            None => weight_after(standing, tree, x, &mut self.last),
        }
    }
}
