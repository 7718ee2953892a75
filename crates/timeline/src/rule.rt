// What a standing rule says, and what it brings about.
ghost use Rattle.std.specs.Prelude.{◌≡◌, IfOk, ◌≤ℤ◌, ◌+ℤ◌, pos};
ghost use Rattle.std.specs.List.{Contains};
ghost use Rattle.tmm_model.specs.Beliefs.{rules_at};
ghost use Rattle.tmm_model.specs.Maps.{built};
ghost use Rattle.tmm_model.specs.Moments.{After, moment_of};
ghost use Rattle.belief_theory.specs.KeptLists.{IsKept};
ghost use Rattle.timeline.specs.Kinds.{name_at, IsRuleAt, SaysRule};
ghost use Rattle.timeline.specs.Rows.{IsRowOf, moment, held_from};

use crate::row::{Held, Row};
use premise_list::Standing;
use std::alloc::Global;
use tmm_model::{Name, NoMemory, Occ, Premise};

/// What a rule says.
#[derive(Drop)]
pub(crate) struct RuleText<'a> {
    /// Its name.
    pub name: Name,
    /// The least delay of its effect, in whole time units.
    pub lo: i64,
    /// The kind or the fact that it brings about.
    pub effect: Name,
    /// Its antecedents.
    pub given: &'a [Name],
    /// Its exceptions.
    pub exceptions: &'a [Name],
}

/// What the rule at this place of the standing list says.
pub(crate) fn rule_at(standing: &Standing, place: u32) -> RuleText<'_>
    requires { IsRuleAt standing.now.present place }
    ensures { SaysRule standing.now.present (name_at standing.now.present place) result }
{
    // It tells the proof that names are distinct.
    standing.invariants();
    match standing.at(place as usize) {
        Some(
            Premise::Rule {
                name,
                lo,
                effect,
                given,
                unless_facts,
                ..
            },
        ) => RuleText {
            name: *name,
            lo: *lo,
            effect: *effect,
            given: given.as_slice(),
            exceptions: unless_facts.as_slice(),
        },
        _ => unreachable!(),
    }
}

/// What a rule brings about on an event, after its least delay.
pub(crate) fn effect_of(
    alloc: Global,
    standing: &Standing,
    trigger: &Row,
    text: &RuleText<'_>,
) -> Result<Row, NoMemory>
    requires kept { IsKept standing.now.present }
    requires trigger { IsRowOf (built standing.now.present) trigger.now }
    requires rule { Contains (rules_at standing.now.present (moment trigger.now)) text.now.name }
    requires says { SaysRule standing.now.present text.now.name text.now }
    requires early { pos 0 ≤ℤ trigger.now.date }
    requires delayed { pos 1 ≤ℤ text.now.lo }
    requires in_time { (trigger.now.date +ℤ text.now.lo) ≤ℤ pos 100000 }
    ensures row { IfOk result (IsRowOf (built standing.now.present)) }
    ensures moment { IfOk result (λ row. moment row ≡ After (moment trigger.now) text.now.name) }
{
    Ok(Row {
        date: trigger.date + text.lo,
        occ: after(alloc, &trigger.occ, text.name)?,
        what: text.effect,
        held: held_from(standing, text.effect),
    })
}

// The occurrence to which one rule more leads.
fn after(alloc: Global, trigger: &Occ, rule: Name) -> Result<Occ, NoMemory>
    ensures { IfOk result (λ occ. moment_of occ ≡ After (moment_of trigger.now) rule) }
{
    let mut occ = trigger.copy(alloc)?;
    occ.rules.append(rule)?;
    Ok(occ)
}

// What holds where a rule brings about a fact; nothing where it brings about a kind.
fn held_from(standing: &Standing, effect: Name) -> Option<Held>
    ensures { result ≡ held_from standing.now.present effect }
{
    match standing.class_of(effect) {
        Some(class) => Some(Held {
            fact: effect,
            class,
            end: None,
        }),
        None => None,
    }
}
