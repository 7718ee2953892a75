// What becomes of a rule at an event, whichever tokens support its antecedents.
ghost use Rattle.std.specs.Prelude.{◌≡◌, ◌≤◌, min, ◌+◌, List, IsSome};
ghost use Rattle.std.specs.List.{All, Contains};
ghost use Rattle.belief_theory.specs.Outcomes.{outcome};
ghost use Rattle.tmm_model.specs.Beliefs.{rules_at, is_free};
ghost use Rattle.tmm_model.specs.Moments.{Moment};
ghost use Rattle.tmm_model.specs.Sorts.{class_in};
ghost use Rattle.tmm_model.specs.Standing.{far_in};
ghost use Rattle.spots.specs.Forest.{IsLive, moment_at};
ghost use Rattle.spots.specs.OfLists.{HasOccurrences};
ghost use Rattle.occ_tree.specs.OfLists.{IsTreeOf};
ghost use Rattle.occ_tree.specs.Places.{forest};
ghost use Rattle.supports.specs.TimeMaps.{IsTimeMap};
ghost use Rattle.projection.specs.Decisions.{tried_at};
ghost use Rattle.projection.specs.Places.{name_at, IsRuleAt};
ghost use Rattle.projection.specs.Verdicts.{verdict_of};

use crate::rule::{text_at, text_in_time};
use dist_net::DistNet;
use map_core::Counter;
use occ_tree::Tree;
use premise_list::Standing;
use spots::Spot;
use std::alloc::Global;
use supports::{Guesses, TimeMap, first_supported, is_supported};
use tmm_model::Name;

/// What becomes of a rule at an event, whichever tokens support its antecedents.
#[derive(Clone, Copy)]
pub enum Verdict {
    /// Its effect is believed.
    Fires,
    /// The antecedent at this place is the first without a supporter.
    Blocked { antecedent: usize },
    /// Each antecedent has a supporter; the exception at this place is the first that has one too.
    Barred { exception: usize },
    /// Its effect would begin after the horizon.
    Beyond,
}

/// Judges a standing rule on the kind of the event at the node `trigger`, among the nodes of the
/// tree, and counts the decision: it tells what `decide` does, but for the supporters. To find out
/// that there is one costs far less than to find the first. No memory is taken but for guesses.
pub fn judge(
    tree: &Tree,
    net: &DistNet,
    standing: &Standing,
    trigger: u32,
    rule: Name,
    counter: &mut Counter,
    guesses: &mut Guesses,
) -> Verdict
    requires seen { IsTreeOf standing.now.present net.now.present tree.now }
    requires trigger { IsLive (forest tree.now) trigger }
    requires rule { Contains (rules_at standing.now.present (moment_at (forest tree.now) trigger)) rule }
    ensures verdict { (b : List Moment) → HasOccurrences b (forest tree.now) → result ≡ verdict_of (outcome standing.now.present (far_in standing.now.present.premises) b (moment_at (forest tree.now) trigger) rule) }
    ensures counted { counter.new ≡ min (counter.old + 1) 18446744073709551615 }
    ensures kept { counter.old ≤ counter.new }
{
    counter.raise();
    let map = TimeMap {
        standing,
        tree,
        net,
    };
    match text_in_time(&map, trigger, rule) {
        Some(text) => judge_facts(&map, trigger, text.given, text.exceptions, guesses),
        None => Verdict::Beyond,
    }
}

// The verdict on a rule in time: the first of the antecedents at the event without a supporter, or
// else the first exception with one.
fn judge_facts(
    map: &TimeMap<'_>,
    trigger: u32,
    given: &[Name],
    exceptions: &[Name],
    guesses: &mut Guesses,
) -> Verdict
    requires seen { IsTimeMap map.now }
    requires trigger { IsLive (forest map.now.tree.now) trigger }
    requires facts { All (λ fact. IsSome (class_in map.now.standing.now.present.premises fact)) given.now }
    requires exceptions { All (λ fact. IsSome (class_in map.now.standing.now.present.premises fact)) exceptions.now }
    ensures { (b : List Moment) → HasOccurrences b (forest map.now.tree.now) → result ≡ verdict_of (tried_at map.now.standing.now.present b (moment_at (forest map.now.tree.now) trigger) given.now exceptions.now) }
{
    let at = Spot::Node(trigger);
    for antecedent in 0..given.len() {
        if !is_supported(map, given[antecedent], at, at, guesses) {
            return Verdict::Blocked { antecedent };
        }
    }
    match first_supported(map, exceptions, at, guesses) {
        Some(exception) => Verdict::Barred { exception },
        None => Verdict::Fires,
    }
}

// Whether the rule at this place of the list fires on the event at the node `trigger`, where its
// effect is due: each of its antecedents has a supporter there, whichever that is, and no exception
// has one.
pub(crate) fn is_free(alloc: Global, map: &TimeMap<'_>, trigger: u32, place: u32) -> bool
    requires seen { IsTimeMap map.now }
    requires trigger { IsLive (forest map.now.tree.now) trigger }
    requires place { IsRuleAt map.now.standing.now.present place }
    requires rule { Contains (rules_at map.now.standing.now.present (moment_at (forest map.now.tree.now) trigger)) (name_at map.now.standing.now.present place) }
    ensures { (b : List Moment) → HasOccurrences b (forest map.now.tree.now) → result ≡ is_free map.now.standing.now.present (far_in map.now.standing.now.present.premises) b (moment_at (forest map.now.tree.now) trigger) (name_at map.now.standing.now.present place) }
{
    let mut guesses = Guesses::make(alloc);
    is_free_with(map, trigger, place, &mut guesses)
}

// The same with room for guesses.
fn is_free_with(map: &TimeMap<'_>, trigger: u32, place: u32, guesses: &mut Guesses) -> bool
    requires seen { IsTimeMap map.now }
    requires trigger { IsLive (forest map.now.tree.now) trigger }
    requires place { IsRuleAt map.now.standing.now.present place }
    requires rule { Contains (rules_at map.now.standing.now.present (moment_at (forest map.now.tree.now) trigger)) (name_at map.now.standing.now.present place) }
    ensures { (b : List Moment) → HasOccurrences b (forest map.now.tree.now) → result ≡ is_free map.now.standing.now.present (far_in map.now.standing.now.present.premises) b (moment_at (forest map.now.tree.now) trigger) (name_at map.now.standing.now.present place) }
{
    let text = text_at(map.standing, place);
    let verdict = judge_facts(map, trigger, text.given, text.exceptions, guesses);
    matches!(verdict, Verdict::Fires)
}
