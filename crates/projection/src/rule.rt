// What a standing rule says, and when its effect begins.
ghost use Rattle.std.specs.Prelude.{◌≡◌, ◌≤◌, length, pos, ◌+ℤ◌, ◌≤ℤ◌, ◌<ℤ◌, MatchOption};
ghost use Rattle.std.specs.List.{Contains};
ghost use Rattle.tmm_model.specs.Beliefs.{due, rules_at};
ghost use Rattle.tmm_model.specs.Moments.{rule_of};
ghost use Rattle.tmm_model.specs.Standing.{far_in};
ghost use Rattle.spots.specs.Forest.{IsLive, moment_at};
ghost use Rattle.occ_tree.specs.Places.{forest};
ghost use Rattle.supports.specs.TimeMaps.{IsTimeMap};
ghost use Rattle.projection.specs.Decisions.{IsDueBy, IsInTime};
ghost use Rattle.projection.specs.Places.{name_at, IsRuleAt};

use occ_tree::Order;
use premise_list::Standing;
use supports::{RuleText, TimeMap, rule_text};
use tmm_model::{Name, Premise};

// What the rule at this place of the standing list says. Its name is not looked up.
pub(crate) fn text_at(standing: &Standing, place: u32) -> RuleText<'_>
    requires { IsRuleAt standing.now.present place }
    ensures lo { result.lo ≡ (rule_of standing.now.present (name_at standing.now.present place)).lo }
    ensures given { result.given.now ≡ (rule_of standing.now.present (name_at standing.now.present place)).given }
    ensures exceptions { result.exceptions.now ≡ (rule_of standing.now.present (name_at standing.now.present place)).exceptions }
    ensures few { length result.given.now ≤ 4 }
{
    // It tells the proof that names are distinct.
    standing.invariants();
    match standing.at(place as usize) {
        Some(
            Premise::Rule {
                lo,
                given,
                unless_facts,
                ..
            },
        ) => RuleText {
            lo: *lo,
            given: given.as_slice(),
            exceptions: unless_facts.as_slice(),
        },
        _ => unreachable!(),
    }
}

// The date at which the effect of a rule with this least delay begins, on an event of this earliest
// date; none where that is after the horizon.
pub(crate) fn due_by(horizon: u32, early: i64, delay: i64) -> Option<u32>
    requires early { pos 0 ≤ℤ early }
    requires delay { pos 1 ≤ℤ delay }
    ensures { IsDueBy horizon (early +ℤ delay) result }
{
    if early > i64::from(horizon) - delay {
        None
    } else {
        Some((early + delay) as u32)
    }
}

// What a standing rule on the kind of the event at the node `trigger` says; none where its effect
// would begin after the horizon.
pub(crate) fn text_in_time<'a>(map: &TimeMap<'a>, trigger: u32, rule: Name) -> Option<RuleText<'a>>
    requires seen { IsTimeMap map.now }
    requires trigger { IsLive (forest map.now.tree.now) trigger }
    requires rule { Contains (rules_at map.now.standing.now.present (moment_at (forest map.now.tree.now) trigger)) rule }
    ensures { MatchOption result (pos map.now.standing.now.present.horizon <ℤ due map.now.standing.now.present (far_in map.now.standing.now.present.premises) (moment_at (forest map.now.tree.now) trigger) rule) (IsInTime map.now.standing.now.present (moment_at (forest map.now.tree.now) trigger) rule) }
{
    let order = Order {
        tree: map.tree,
        net: map.net,
    };
    let early = order.early(trigger);
    let text = rule_text(map.standing, rule);
    match due_by(map.standing.horizon(), early, text.lo) {
        Some(_) => Some(text),
        None => None,
    }
}
