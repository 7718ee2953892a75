// The standing rules by the kind that triggers them.
ghost use Rattle.std.specs.Prelude.{◌≡◌, ◌≤◌, length, map, IfOk, OnOk};
ghost use Rattle.std.specs.List.{All};
ghost use Rattle.tmm_model.specs.Beliefs.{rules_at};
ghost use Rattle.tmm_model.specs.Maps.{built};
ghost use Rattle.timeline.specs.Kinds.{AreRules, AddsPremise, name_at, IsRuleAt};
ghost use Rattle.timeline.specs.Rows.{IsRowOf, moment};
ghost use Rattle.name_lists.specs.Lists.{list_of};

use crate::row::Row;
use name_lists::NameLists;
use premise_list::Standing;
use std::alloc::Global;
use tmm_model::{Name, NoMemory, Premise};

/// The places of the rules on each kind in the standing list, in its order.
#[derive(Drop)]
pub(crate) struct RulesByKind {
    rules: NameLists<u32>,
}

impl RulesByKind {
    /// The standing rules.
    pub fn of(alloc: Global, standing: &Standing) -> Result<RulesByKind, NoMemory>
        ensures { IfOk result (AreRules standing.now.present) }
    {
        let mut rules = RulesByKind {
            rules: NameLists::make(alloc),
        };
        for place in 0..standing.len() {
            if let Some(premise) = standing.at(place) {
                rules.add(alloc, premise, place as u32)?;
            }
        }
        Ok(rules)
    }

    // Adds the place of the premise where that is a rule.
    fn add(&mut self, alloc: Global, premise: &Premise, place: u32) -> Result<(), NoMemory>
        ensures { OnOk result (AddsPremise self.old self.new premise.now place) }
    {
        match premise {
            Premise::Rule { trigger, .. } => self.rules.push(alloc, *trigger, place),
            _ => Ok(()),
        }
    }

    /// The places of the rules on the kind of an event, none where the row is of no event.
    pub fn at(&self, standing: &Standing, row: &Row) -> &[u32]
        requires rules { AreRules standing.now.present self.now }
        requires row { IsRowOf (built standing.now.present) row.now }
        ensures value { map (name_at standing.now.present) result.now ≡ rules_at standing.now.present (moment row.now) }
        ensures places { All (IsRuleAt standing.now.present) result.now }
        ensures few { length result.now ≤ 2000 }
    {
        standing.invariants();
        match row.held {
            None => self.rules.of(&row.what),
            Some(_) => &[],
        }
    }
}
