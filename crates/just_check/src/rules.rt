// The standing rules at an event, and whether they fire.
ghost use Rattle.std.specs.Prelude.{◌≡◌, ◌↔◌, List, pos, ◌+ℤ◌, ◌≤ℤ◌, IsSome, IsTrue, IfOk, OnOk};
ghost use Rattle.std.specs.List.{Contains};
ghost use Rattle.tmm_model.specs.Beliefs.{on_kind, rules_at, due, is_free};
ghost use Rattle.tmm_model.specs.Moments.{Moment, rule_of};
ghost use Rattle.tmm_model.specs.Standing.{far_in};
ghost use Rattle.dist_net.specs.Net.{Net};
ghost use Rattle.spots.specs.Forest.{IsLive, moment_at};
ghost use Rattle.spots.specs.OfLists.{IsForestOf, HasOccurrences};
ghost use Rattle.occ_tree.specs.Places.{forest};
ghost use Rattle.supports.specs.TimeMaps.{IsTimeMap};
ghost use Rattle.just_check.specs.Kinds.{AreRules, AddsPremise};

use name_lists::NameLists;
use occ_tree::{Order, Tree};
use premise_list::Standing;
use spots::Spot;
use std::alloc::Global;
use supports::{Guesses, TimeMap, first_supported, is_supported, rule_text};
use tmm_model::{Name, NoMemory, Premise, Shape};

/// The names of the standing rules on each kind, in the order of the list.
#[derive(Drop)]
pub(crate) struct RulesByKind {
    rules: NameLists<Name>,
}

impl RulesByKind {
    /// The standing rules.
    pub fn of(alloc: Global, standing: &Standing) -> Result<RulesByKind, NoMemory>
        ensures { IfOk result (AreRules standing.now.present) }
    {
        let mut rules = RulesByKind {
            rules: NameLists::make(alloc),
        };
        for place in 0..standing.len() {
            if let Some(premise) = standing.at(place) {
                rules.add(alloc, premise)?;
            }
        }
        Ok(rules)
    }

    // Adds the name of the premise where that is a rule.
    fn add(&mut self, alloc: Global, premise: &Premise) -> Result<(), NoMemory>
        ensures { OnOk result (AddsPremise self.old self.new premise.now) }
    {
        match premise {
            Premise::Rule { name, trigger, .. } => self.rules.push(alloc, *trigger, *name),
            _ => Ok(()),
        }
    }

    /// The names of the rules on the kind of the event at a node, none where it is no event.
    pub fn at(&self, standing: &Standing, tree: &Tree, x: u32) -> &[Name]
        requires rules { AreRules standing.now.present self.now }
        requires seen { (net : Net) × IsForestOf standing.now.present net (forest tree.now) }
        requires live { IsLive (forest tree.now) x }
        ensures { result.now ≡ rules_at standing.now.present (moment_at (forest tree.now) x) }
    {
        standing.invariants();
        let row = tree.row(x);
        match row.shape {
            Shape::Event => self.rules.of(&row.what),
            _ => &[],
        }
    }
}

// Whether the rule fires at the event of a node: its effect begins by the horizon, each antecedent
// has a supporter there, and no exception has one.
pub(crate) fn does_fire(alloc: Global, map: &TimeMap<'_>, x: u32, rule: Name) -> bool
    requires seen { IsTimeMap map.now }
    requires live { IsLive (forest map.now.tree.now) x }
    requires rule { Contains (rules_at map.now.standing.now.present (moment_at (forest map.now.tree.now) x)) rule }
    ensures { (b : List Moment) → HasOccurrences b (forest map.now.tree.now) → IsTrue result ↔ ((due map.now.standing.now.present (far_in map.now.standing.now.present.premises) (moment_at (forest map.now.tree.now) x) rule ≤ℤ pos map.now.standing.now.present.horizon) × IsTrue (is_free map.now.standing.now.present (far_in map.now.standing.now.present.premises) b (moment_at (forest map.now.tree.now) x) rule)) }
{
    let text = rule_text(map.standing, rule);
    let order = Order {
        tree: map.tree,
        net: map.net,
    };
    is_in_time(map.standing.horizon(), order.early(x), text.lo)
        && is_free(alloc, map, x, rule, text.given, text.exceptions)
}

// Whether what begins so long after this date begins by the horizon.
fn is_in_time(horizon: u32, early: i64, delay: i64) -> bool
    requires early { pos 0 ≤ℤ early }
    requires delay { pos 1 ≤ℤ delay }
    ensures { IsTrue result ↔ ((early +ℤ delay) ≤ℤ pos horizon) }
{
    early <= i64::from(horizon) - delay
}

// Whether each antecedent of the rule has a supporter at the event of a node, and no exception has
// one; these are the facts.
fn is_free(
    alloc: Global,
    map: &TimeMap<'_>,
    x: u32,
    rule: Name,
    given: &[Name],
    exceptions: &[Name],
) -> bool
    requires seen { IsTimeMap map.now }
    requires live { IsLive (forest map.now.tree.now) x }
    requires rule { Contains (rules_at map.now.standing.now.present (moment_at (forest map.now.tree.now) x)) rule }
    requires given { given.now ≡ (rule_of map.now.standing.now.present rule).given }
    requires exceptions { exceptions.now ≡ (rule_of map.now.standing.now.present rule).exceptions }
    ensures { (b : List Moment) → HasOccurrences b (forest map.now.tree.now) → result ≡ is_free map.now.standing.now.present (far_in map.now.standing.now.present.premises) b (moment_at (forest map.now.tree.now) x) rule }
{
    let mut guesses = Guesses::make(alloc);
    is_free_with(map, x, rule, given, exceptions, &mut guesses)
}

// The same with room for guesses.
fn is_free_with(
    map: &TimeMap<'_>,
    x: u32,
    rule: Name,
    given: &[Name],
    exceptions: &[Name],
    guesses: &mut Guesses,
) -> bool
    requires seen { IsTimeMap map.now }
    requires live { IsLive (forest map.now.tree.now) x }
    requires rule { Contains (rules_at map.now.standing.now.present (moment_at (forest map.now.tree.now) x)) rule }
    requires given { given.now ≡ (rule_of map.now.standing.now.present rule).given }
    requires exceptions { exceptions.now ≡ (rule_of map.now.standing.now.present rule).exceptions }
    ensures { (b : List Moment) → HasOccurrences b (forest map.now.tree.now) → result ≡ is_free map.now.standing.now.present (far_in map.now.standing.now.present.premises) b (moment_at (forest map.now.tree.now) x) rule }
{
    let at = Spot::Node(x);
    for fact in given {
        if !is_supported(map, *fact, at, at, guesses) {
            return false;
        }
    }
    first_supported(map, exceptions, at, guesses).is_none()
}
