// What brings a node about, and what it rests on directly.
ghost use Rattle.std.specs.Prelude.{◌≡◌, ◌≤◌, map as mapped, length, IsSome};
ghost use Rattle.std.specs.List.{All, Contains, filter_map};
ghost use Rattle.tmm_model.specs.Beliefs.{rules_at};
ghost use Rattle.tmm_model.specs.Maps.{built};
ghost use Rattle.tmm_model.specs.Moments.{rule_of};
ghost use Rattle.tmm_model.specs.Reasons.{supports_at};
ghost use Rattle.tmm_model.specs.Sorts.{class_in};
ghost use Rattle.spots.specs.Forest.{IsLive, moment_at};
ghost use Rattle.spots.specs.OfLists.{HasOccurrences};
ghost use Rattle.occ_tree.specs.Places.{forest};
ghost use Rattle.spots.specs.Rules.{IsRuleOf};
ghost use Rattle.supports.specs.TimeMaps.{IsTimeMap};
ghost use Rattle.justify.specs.Grounds.{IsOrigin, supporters_for};

use arrayvec::ArrayVec;
use occ_tree::Tree;
use premise_list::Standing;
use spots::Spot;
use std::alloc::Global;
use supports::{Guesses, TimeMap, rule_text, supporter};
use tmm_model::{MOST_EXCEPTIONS, Name};

/// What brings a node about.
#[derive(Clone, Copy)]
pub(crate) enum Origin {
    /// The premise of this name declares it.
    Declared(Name),
    /// It is the effect of a rule on the event at a node.
    Effect { event: u32, rule: Name },
}

// What brings a node about.
pub(crate) fn origin_of(tree: &Tree, x: u32) -> Origin
    requires { IsLive (forest tree.now) x }
    ensures { IsOrigin (forest tree.now) x result }
{
    let row = tree.row(x);
    match row.parent {
        None => Origin::Declared(row.name),
        Some(event) => Origin::Effect {
            event,
            rule: row.name,
        },
    }
}

// The first supporters of a rule's antecedents at an event.
pub(crate) fn supports_at(
    alloc: Global,
    map: &TimeMap<'_>,
    event: u32,
    rule: Name,
) -> ArrayVec<u32, 4>
    requires seen { IsTimeMap map.now }
    requires holds { HasOccurrences (built map.now.standing.now.present).believed (forest map.now.tree.now) }
    requires event { IsLive (forest map.now.tree.now) event }
    requires rule { Contains (rules_at map.now.standing.now.present (moment_at (forest map.now.tree.now) event)) rule }
    ensures live { All (IsLive (forest map.now.tree.now)) result.items }
    ensures first { mapped (moment_at (forest map.now.tree.now)) result.items ≡ supports_at (built map.now.standing.now.present) (moment_at (forest map.now.tree.now) event) rule }
{
    let text = rule_text(map.standing, rule);
    let mut guesses = Guesses::make(alloc);
    supporters(map, event, text.given, &mut guesses)
}

// The exceptions of a standing rule.
pub(crate) fn exceptions_of(standing: &Standing, rule: Name) -> ArrayVec<Name, MOST_EXCEPTIONS>
    requires { IsRuleOf standing.now.present rule }
    ensures { result.items ≡ (rule_of standing.now.present rule).exceptions }
{
    let mut exceptions = ArrayVec::new();
    let _fits = exceptions.try_extend_from_slice(rule_text(standing, rule).exceptions);
    exceptions
}

// The first supporters of the facts at an event.
fn supporters(
    map: &TimeMap<'_>,
    event: u32,
    facts: &[Name],
    guesses: &mut Guesses,
) -> ArrayVec<u32, 4>
    requires seen { IsTimeMap map.now }
    requires holds { HasOccurrences (built map.now.standing.now.present).believed (forest map.now.tree.now) }
    requires event { IsLive (forest map.now.tree.now) event }
    requires facts { All (λ fact. IsSome (class_in map.now.standing.now.present.premises fact)) facts.now }
    requires few { length facts.now ≤ 4 }
    ensures live { All (IsLive (forest map.now.tree.now)) result.items }
    ensures first { mapped (moment_at (forest map.now.tree.now)) result.items ≡ filter_map (λ k. k) (supporters_for (built map.now.standing.now.present) (moment_at (forest map.now.tree.now) event) facts.now) }
{
    let at = Spot::Node(event);
    let mut found = ArrayVec::new();
    for fact in facts {
        match supporter(map, *fact, at, at, guesses) {
            Some(x) => found.push(x),
            None => {}
        }
    }
    found
}
