// What is decided of a rule at an event.
ghost use Rattle.std.specs.Prelude.{◌≡◌, ◌+◌, min, List};
ghost use Rattle.std.specs.List.{Contains};
ghost use Rattle.belief_theory.specs.Outcomes.{outcome};
ghost use Rattle.tmm_model.specs.Beliefs.{rules_at};
ghost use Rattle.tmm_model.specs.Moments.{Moment};
ghost use Rattle.tmm_model.specs.Standing.{far_in};
ghost use Rattle.spots.specs.Forest.{IsLive, moment_at};
ghost use Rattle.spots.specs.OfLists.{HasOccurrences};
ghost use Rattle.occ_tree.specs.OfLists.{IsTreeOf};
ghost use Rattle.occ_tree.specs.Places.{forest};
ghost use Rattle.joined.specs.Rows.{decision_of};

use decision_rows::Decision;
use dist_net::DistNet;
use occ_tree::Tree;
use premise_list::Standing;
use projection::{Counter, Verdict, judge};
use std::alloc::Global;
use supports::Guesses;
use tmm_model::Name;

/// A row that was decided again.
#[derive(Clone, Copy)]
pub(crate) struct Due {
    /// The number of the row.
    pub row: u32,
    /// The node of its event.
    pub trigger: u32,
    /// The name of its rule.
    pub rule: Name,
    /// What was decided before.
    pub before: Decision,
    /// What is decided now.
    pub found: Decision,
}

// Decides a standing rule on the kind of the event at the node `trigger`, among the nodes of the
// tree, and counts the decision.
pub(crate) fn decide(
    alloc: Global,
    standing: &Standing,
    net: &DistNet,
    tree: &Tree,
    trigger: u32,
    rule: Name,
    counter: &mut Counter,
) -> Decision
    requires seen { IsTreeOf standing.now.present net.now.present tree.now }
    requires trigger { IsLive (forest tree.now) trigger }
    requires rule { Contains (rules_at standing.now.present (moment_at (forest tree.now) trigger)) rule }
    ensures found { (b : List Moment) → HasOccurrences b (forest tree.now) → result ≡ decision_of (outcome standing.now.present (far_in standing.now.present.premises) b (moment_at (forest tree.now) trigger) rule) }
    ensures counted { counter.new ≡ min (counter.old + 1) 18446744073709551615 }
{
    let mut guesses = Guesses::make(alloc);
    decide_with(standing, net, tree, trigger, rule, counter, &mut guesses)
}

// The same with room for guesses.
fn decide_with(
    standing: &Standing,
    net: &DistNet,
    tree: &Tree,
    trigger: u32,
    rule: Name,
    counter: &mut Counter,
    guesses: &mut Guesses,
) -> Decision
    requires seen { IsTreeOf standing.now.present net.now.present tree.now }
    requires trigger { IsLive (forest tree.now) trigger }
    requires rule { Contains (rules_at standing.now.present (moment_at (forest tree.now) trigger)) rule }
    ensures found { (b : List Moment) → HasOccurrences b (forest tree.now) → result ≡ decision_of (outcome standing.now.present (far_in standing.now.present.premises) b (moment_at (forest tree.now) trigger) rule) }
    ensures counted { counter.new ≡ min (counter.old + 1) 18446744073709551615 }
{
    match judge(tree, net, standing, trigger, rule, counter, guesses) {
        Verdict::Fires => Decision::Fires,
        Verdict::Blocked { antecedent } => Decision::Blocked { antecedent },
        Verdict::Barred { exception } => Decision::Barred { exception },
        Verdict::Beyond => Decision::Beyond,
    }
}
