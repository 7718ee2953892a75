// What a standing rule says.
ghost use Rattle.std.specs.Prelude.{◌≡◌, ◌≤◌, length};
ghost use Rattle.tmm_model.specs.Moments.{rule_of};
ghost use Rattle.spots.specs.Rules.{IsRuleOf};

use premise_list::Standing;
use tmm_model::{Name, Premise};

/// What a rule says of when its effect begins, in whole time units, its antecedents and its
/// exceptions.
#[derive(Drop)]
pub struct RuleText<'a> {
    /// Its least delay.
    pub lo: i64,
    /// The facts that are to hold at the event.
    pub given: &'a [Name],
    /// The facts of which none may hold there.
    pub exceptions: &'a [Name],
}

/// What the standing rule of this name says.
pub fn rule_text(standing: &Standing, rule: Name) -> RuleText<'_>
    requires { IsRuleOf standing.now.present rule }
    ensures lo { result.lo ≡ (rule_of standing.now.present rule).lo }
    ensures given { result.given.now ≡ (rule_of standing.now.present rule).given }
    ensures exceptions { result.exceptions.now ≡ (rule_of standing.now.present rule).exceptions }
    ensures few { length result.given.now ≤ 4 }
    ensures rare { length result.exceptions.now ≤ 2 }
{
    match standing.get(rule) {
        Some(
            Premise::Rule {
                lo,
                given,
                unless_facts,
                ..
            },
        ) => RuleText {
            lo: *lo,
            given: given.as_slice(),
            exceptions: unless_facts.as_slice(),
        },
        _ => unreachable!(),
    }
}
