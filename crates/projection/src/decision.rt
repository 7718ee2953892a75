// What becomes of a rule at an event.
ghost use Rattle.std.specs.Prelude.{◌≡◌, ◌≤◌, min, ◌+◌, List, length, IsSome};
ghost use Rattle.std.specs.List.{All, Contains};
ghost use Rattle.belief_theory.specs.Outcomes.{outcome};
ghost use Rattle.tmm_model.specs.Beliefs.{rules_at};
ghost use Rattle.tmm_model.specs.Moments.{Moment};
ghost use Rattle.tmm_model.specs.Sorts.{class_in};
ghost use Rattle.tmm_model.specs.Standing.{far_in};
ghost use Rattle.spots.specs.Forest.{IsLive, moment_at};
ghost use Rattle.spots.specs.OfLists.{HasOccurrences};
ghost use Rattle.occ_tree.specs.OfLists.{IsTreeOf};
ghost use Rattle.occ_tree.specs.Places.{forest};
ghost use Rattle.supports.specs.TimeMaps.{IsTimeMap};
ghost use Rattle.projection.specs.Decisions.{outcome_at, AreLive, tried_at};

use crate::rule::text_in_time;
use arrayvec::ArrayVec;
use dist_net::DistNet;
use map_core::Counter;
use occ_tree::Tree;
use premise_list::Standing;
use spots::Spot;
use supports::{Guesses, TimeMap, first_supported, supporter};
use tmm_model::Name;

/// What becomes of a rule at an event.
#[derive(Drop)]
pub enum Decision {
    /// Its effect is believed. These nodes are the first supporters of its antecedents, in order.
    Fires { supports: ArrayVec<u32, 4> },
    /// The antecedent at this place is the first without a supporter.
    Blocked { antecedent: usize },
    /// Each antecedent has a supporter; the exception at this place is the first that has one too.
    Barred { exception: usize },
    /// Its effect would begin after the horizon.
    Beyond,
}

/// Decides a standing rule on the kind of the event at the node `trigger`, among the nodes of the
/// tree, and counts the decision. No memory is taken but for guesses. Where the supporters are not
/// asked for, `judge` tells the rest at less cost.
pub fn decide(
    tree: &Tree,
    net: &DistNet,
    standing: &Standing,
    trigger: u32,
    rule: Name,
    counter: &mut Counter,
    guesses: &mut Guesses,
) -> Decision
    requires seen { IsTreeOf standing.now.present net.now.present tree.now }
    requires trigger { IsLive (forest tree.now) trigger }
    requires rule { Contains (rules_at standing.now.present (moment_at (forest tree.now) trigger)) rule }
    ensures outcome { (b : List Moment) → HasOccurrences b (forest tree.now) → outcome_at (forest tree.now) result ≡ outcome standing.now.present (far_in standing.now.present.premises) b (moment_at (forest tree.now) trigger) rule }
    ensures live { AreLive (forest tree.now) result }
    ensures counted { counter.new ≡ min (counter.old + 1) 18446744073709551615 }
    ensures kept { counter.old ≤ counter.new }
{
    counter.raise();
    let map = TimeMap {
        standing,
        tree,
        net,
    };
    match text_in_time(&map, trigger, rule) {
        Some(text) => try_facts(&map, trigger, text.given, text.exceptions, guesses),
        None => Decision::Beyond,
    }
}

// The first supporters of the antecedents at the event, or the first of these without one, or else
// the first exception with one.
fn try_facts(
    map: &TimeMap<'_>,
    trigger: u32,
    given: &[Name],
    exceptions: &[Name],
    guesses: &mut Guesses,
) -> Decision
    requires seen { IsTimeMap map.now }
    requires trigger { IsLive (forest map.now.tree.now) trigger }
    requires facts { All (λ fact. IsSome (class_in map.now.standing.now.present.premises fact)) given.now }
    requires exceptions { All (λ fact. IsSome (class_in map.now.standing.now.present.premises fact)) exceptions.now }
    requires few { length given.now ≤ 4 }
    ensures outcome { (b : List Moment) → HasOccurrences b (forest map.now.tree.now) → outcome_at (forest map.now.tree.now) result ≡ tried_at map.now.standing.now.present b (moment_at (forest map.now.tree.now) trigger) given.now exceptions.now }
    ensures live { AreLive (forest map.now.tree.now) result }
{
    let at = Spot::Node(trigger);
    let mut supports = ArrayVec::new();
    for antecedent in 0..given.len() {
        match supporter(map, given[antecedent], at, at, guesses) {
            Some(x) => supports.push(x),
            None => return Decision::Blocked { antecedent },
        }
    }
    match first_supported(map, exceptions, at, guesses) {
        Some(exception) => Decision::Barred { exception },
        None => Decision::Fires { supports },
    }
}
