// The standing rules by the kind that triggers them.
ghost use Rattle.std.specs.Prelude.{◌≡◌, ◌≤◌, length, map, IfOk, OnOk};
ghost use Rattle.std.specs.List.{All};
ghost use Rattle.tmm_model.specs.Beliefs.{rules_at};
ghost use Rattle.spots.specs.Forest.{IsLive, moment_at};
ghost use Rattle.spots.specs.OfLists.{IsForestOf};
ghost use Rattle.occ_tree.specs.Places.{forest};
ghost use Rattle.dist_net.specs.Net.{Net};
ghost use Rattle.name_lists.specs.Lists.{list_of};
ghost use Rattle.projection.specs.Kinds.{AreRules, AddsPremise};
ghost use Rattle.projection.specs.Places.{name_at, IsRuleAt};

use name_lists::NameLists;
use occ_tree::Tree;
use premise_list::Standing;
use std::alloc::Global;
use tmm_model::{Name, NoMemory, Premise, Shape};

/// The places of the rules on each kind in the standing list, in its order.
#[derive(Drop)]
pub struct RulesByKind {
    rules: NameLists<u32>,
}

impl RulesByKind {
    /// The standing rules.
    pub fn of(alloc: Global, standing: &Standing) -> Result<RulesByKind, NoMemory>
        ensures { IfOk result (AreRules standing.now.present) }
    {
        let mut rules = RulesByKind {
            rules: NameLists::make(alloc),
        };
        for place in 0..standing.len() {
            if let Some(premise) = standing.at(place) {
                rules.add(alloc, premise, place as u32)?;
            }
        }
        Ok(rules)
    }

    // Adds the place of the premise where that is a rule.
    fn add(&mut self, alloc: Global, premise: &Premise, place: u32) -> Result<(), NoMemory>
        ensures { OnOk result (AddsPremise self.old self.new premise.now place) }
    {
        match premise {
            Premise::Rule { trigger, .. } => self.rules.push(alloc, *trigger, place),
            _ => Ok(()),
        }
    }

    /// The places of the rules on a kind.
    pub fn on(&self, kind: &Name) -> &[u32]
        ensures { result.now ≡ list_of self.now.rules kind.now }
    {
        self.rules.of(kind)
    }

    /// The places of the rules on the kind of the event at a node, none where it is no event.
    pub fn at(&self, standing: &Standing, tree: &Tree, x: u32) -> &[u32]
        requires rules { AreRules standing.now.present self.now }
        requires members { (net : Net) × IsForestOf standing.now.present net (forest tree.now) }
        requires live { IsLive (forest tree.now) x }
        ensures value { map (name_at standing.now.present) result.now ≡ rules_at standing.now.present (moment_at (forest tree.now) x) }
        ensures places { All (IsRuleAt standing.now.present) result.now }
        ensures few { length result.now ≤ 2000 }
    {
        standing.invariants();
        let row = tree.row(x);
        match row.shape {
            Shape::Event => self.rules.of(&row.what),
            _ => &[],
        }
    }
}
