// The events of a kind, found without a look at all nodes where rows tell them.
ghost use Rattle.std.specs.Prelude.{◌≡◌, ◌≢◌, ℕ, nat_eq, IfOk, IfSome};
ghost use Rattle.std.specs.List.{Contains, IsDistinct};
ghost use Rattle.tmm_model.specs.Beliefs.{on_kind, rules_at, rules_on};
ghost use Rattle.tmm_model.specs.Standing.{Standing as AStanding};
ghost use Rattle.list_theory.proofs.Elements.{In};
ghost use Rattle.dist_net.specs.Net.{Net};
ghost use Rattle.row_links.specs.Lists.{IsOn};
ghost use Rattle.spots.specs.Forest.{IsLive, moment_at};
ghost use Rattle.occ_tree.specs.Places.{forest};
ghost use Rattle.joined.specs.Netted.{IsCurrent};
ghost use Rattle.belief_net.specs.Adding.{IsEventOf};
ghost use Rattle.belief_table.specs.Decided.{table_of, AreUnder, AreOfSome};
ghost use Rattle.belief_net.specs.KindEvents.{HasRowAt, HaveOneEach, HaveOthers};
ghost use Rattle.belief_table.specs.Marks.{HaveEvents};
ghost use Rattle.belief_turns.specs.Turning.{rows_of, IsFit};

use crate::state::BeliefNet;
use belief_table::Decisions;
use occ_tree::Tree;
use premise_list::Standing;
use std::alloc::Global;
use tmm_model::{Name, NoMemory, Premise};

impl BeliefNet {
    /// The events at which the rule of this name stands, where no decision waits to be made. No
    /// other node is looked at. Without memory it answers that.
    pub fn events_of_rule(&self, alloc: Global, rule: Name) -> Result<Vec<u32>, NoMemory>
        requires { (s : AStanding) × (net : Net) × IsFit s net self.now }
        ensures { IfOk result (λ found. (s : AStanding) (net : Net) (x : ℕ) → IsCurrent s net (forest self.now.tree) (rows_of self.now) → IsLive (forest self.now.tree) x
            → Contains (rules_at s (moment_at (forest self.now.tree) x)) rule → Contains found.items x) }
    {
        events_with(alloc, &self.beliefs.decisions, &rule)
    }
}

// Nodes among which are all events of a kind, each once: where a rule other than this one is on the
// kind, the events of its rows, and else all nodes.
pub(crate) fn events_of(
    alloc: Global,
    standing: &Standing,
    tree: &Tree,
    decisions: &Decisions,
    rule: Name,
    kind: Name,
) -> Result<Vec<u32>, NoMemory>
    requires events { HaveEvents tree.now (table_of decisions.now) }
    requires under { AreUnder standing.now.present decisions.now }
    requires others { HaveOthers standing.now.present tree.now decisions.now rule kind }
    ensures live { IfOk result (λ found. (x : ℕ) → IsOn found.items x → IsLive (forest tree.now) x) }
    ensures once { IfOk result (λ found. IsDistinct nat_eq found.items) }
    ensures all { IfOk result (λ found. (x : ℕ) → IsEventOf tree.now kind x → IsOn found.items x) }
{
    match other_on(standing, rule, kind) {
        Some(other) => events_with(alloc, decisions, &other),
        None => tree.numbers(alloc),
    }
}

// A standing rule on a kind other than this one, if there is one.
fn other_on(standing: &Standing, rule: Name, kind: Name) -> Option<Name>
    ensures { IfSome result (λ other. In other (rules_on standing.now.present kind) × (other ≢ rule)) }
{
    for place in 0..standing.len() {
        let Some(premise) = standing.at(place) else {
            unreachable!()
        };
        if let Some(name) = name_on(premise, kind) {
            if name != rule {
                return Some(name);
            }
        }
    }
    None
}

// The name of the premise where it is a rule on the kind.
fn name_on(premise: &Premise, kind: Name) -> Option<Name>
    ensures { result ≡ on_kind kind premise.now }
{
    match premise {
        Premise::Rule { name, trigger, .. } if *trigger == kind => Some(*name),
        _ => None,
    }
}

// The events at which a rule has rows.
pub(crate) fn events_with(
    alloc: Global,
    decisions: &Decisions,
    rule: &Name,
) -> Result<Vec<u32>, NoMemory>
    requires { AreOfSome decisions.now }
    ensures own { IfOk result (λ found. (x : ℕ) → IsOn found.items x → HasRowAt decisions.now x rule.now) }
    ensures all { IfOk result (λ found. (x : ℕ) → HasRowAt decisions.now x rule.now → IsOn found.items x) }
    ensures once { HaveOneEach decisions.now → IfOk result (λ found. IsDistinct nat_eq found.items) }
{
    let mut found = Vec::new(alloc);
    let Some(number) = decisions.rules.find(rule) else {
        return Ok(found);
    };
    let mut next = decisions.rows.first(1, number);
    while let Some(i) = next {
        let (trigger, _) = decisions.rows.pair(i);
        found.reserve(1)?;
        found.push_reserved(trigger);
        next = decisions.rows.next(1, i);
    }
    Ok(found)
}
