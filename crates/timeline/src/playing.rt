// The rules played through, day by day.
ghost use Rattle.std.specs.Prelude.{◌≡◌, ◌+◌, ◌<◌, ◌≤◌, ℕ, suc, pos, ◌≤ℤ◌, ◌+ℤ◌, int_le, [], ◌∷◌, map, filter, length, sum_by, IfOk, IfErr, OnOk};
ghost use Rattle.std.specs.List.{Contains, flat_map};
ghost use Rattle.tmm_model.specs.Answers.{weight, most_size};
ghost use Rattle.tmm_model.specs.Beliefs.{rules_at};
ghost use Rattle.tmm_model.specs.Maps.{built};
ghost use Rattle.tmm_model.specs.Moments.{After};
ghost use Rattle.belief_theory.specs.KeptLists.{IsKept};
ghost use Rattle.timeline.specs.Calendars.{Brought, IsBefore, AreHeldBefore};
ghost use Rattle.timeline.specs.Days.{brings_about, effects_of, played_size};
ghost use Rattle.timeline.specs.Holding.{is_held, IsHeldOn};
ghost use Rattle.timeline.specs.Kinds.{AreRules, IsRuleAt, name_at, SaysRule};
ghost use Rattle.timeline.specs.Rows.{IsRowOf, AreRowsOf, moment, helds};
ghost use Rattle.timeline.specs.Told.{IsTooLarge, StopsTimeline};

use crate::calendar::{Calendar, put_back, take_out};
use crate::holding::{held_on, is_open, tokens_of};
use crate::kinds::RulesByKind;
use crate::row::{Held, Row};
use crate::rule::{RuleText, effect_of, rule_at};
use premise_list::Standing;
use std::alloc::Global;
use tmm_model::{NoMemory, Stop};

/// Plays the days up to the horizon, and enters what they bring.
pub(crate) fn play(
    alloc: Global,
    standing: &Standing,
    rules: &RulesByKind,
    calendar: &mut Calendar,
) -> Result<(), Stop>
    requires kept { IsKept standing.now.present }
    requires rules { AreRules standing.now.present rules.now }
    requires before { IsBefore (built standing.now.present) 0 calendar.old }
    ensures ok { OnOk result (IsBefore (built standing.now.present) (suc standing.now.present.horizon) calendar.new) }
    ensures stops { IfErr result (StopsTimeline (built standing.now.present)) }
{
    let mut holding = Vec::new(alloc);
    for day in 0..standing.horizon() + 1 {
        holding = play_day(alloc, standing, rules, calendar, holding.as_slice(), day)?;
    }
    Ok(())
}

// Plays a day, before which these tokens hold, and answers what holds on it.
fn play_day(
    alloc: Global,
    standing: &Standing,
    rules: &RulesByKind,
    calendar: &mut Calendar,
    before: &[Held],
    day: u32,
) -> Result<Vec<Held>, Stop>
    requires kept { IsKept standing.now.present }
    requires rules { AreRules standing.now.present rules.now }
    requires before { IsBefore (built standing.now.present) day calendar.old }
    requires holding { AreHeldBefore (built standing.now.present) day before.now }
    requires in_time { day ≤ standing.now.present.horizon }
    ensures ok { OnOk result (IsBefore (built standing.now.present) (suc day) calendar.new) }
    ensures holding { IfOk result (λ holding. AreHeldBefore (built standing.now.present) (suc day) holding.items) }
    ensures stops { IfErr result (StopsTimeline (built standing.now.present)) }
{
    let today = take_out(alloc, &mut calendar.days, day as usize);
    let holding = holding_with(alloc, standing, day, before, today.as_slice())?;
    bring_all(
        alloc,
        standing,
        rules,
        calendar,
        holding.as_slice(),
        today.as_slice(),
    )?;
    put_back(&mut calendar.days, day as usize, today);
    Ok(holding)
}

// What holds on a day on which this comes.
fn holding_with(
    alloc: Global,
    standing: &Standing,
    day: u32,
    before: &[Held],
    today: &[Row],
) -> Result<Vec<Held>, NoMemory>
    ensures { IfOk result (λ holding. IsHeldOn standing.now.present day (helds today.now) before.now holding.items) }
{
    let coming = tokens_of(alloc, today)?;
    held_on(alloc, standing, day, before, coming.as_slice())
}

// Enters all that comes of a day.
fn bring_all(
    alloc: Global,
    standing: &Standing,
    rules: &RulesByKind,
    calendar: &mut Calendar,
    holding: &[Held],
    today: &[Row],
) -> Result<(), Stop>
    requires kept { IsKept standing.now.present }
    requires rules { AreRules standing.now.present rules.now }
    requires rows { AreRowsOf (built standing.now.present) today.now }
    requires small { calendar.old.size ≤ most_size }
    ensures ok { OnOk result (Brought (built standing.now.present) (flat_map (effects_of (built standing.now.present) (is_held holding.now)) (map moment today.now)) calendar.old calendar.new) }
    ensures stops { IfErr result (IsTooLarge (calendar.old.size + sum_by (weight (built standing.now.present)) (flat_map (effects_of (built standing.now.present) (is_held holding.now)) (map moment today.now)))) }
{
    for row in today {
        bring(alloc, standing, rules, calendar, holding, row)?;
    }
    Ok(())
}

// Enters what the rules on an event bring about.
fn bring(
    alloc: Global,
    standing: &Standing,
    rules: &RulesByKind,
    calendar: &mut Calendar,
    holding: &[Held],
    trigger: &Row,
) -> Result<(), Stop>
    requires kept { IsKept standing.now.present }
    requires rules { AreRules standing.now.present rules.now }
    requires row { IsRowOf (built standing.now.present) trigger.now }
    requires small { calendar.old.size ≤ most_size }
    ensures ok { OnOk result (Brought (built standing.now.present) (effects_of (built standing.now.present) (is_held holding.now) (moment trigger.now)) calendar.old calendar.new) }
    ensures stops { IfErr result (IsTooLarge (calendar.old.size + sum_by (weight (built standing.now.present)) (effects_of (built standing.now.present) (is_held holding.now) (moment trigger.now)))) }
{
    for place in rules.at(standing, trigger) {
        bring_one(alloc, standing, rules, calendar, holding, trigger, *place)?;
    }
    Ok(())
}

// Enters what a rule on an event brings about, if it does.
fn bring_one(
    alloc: Global,
    standing: &Standing,
    rules: &RulesByKind,
    calendar: &mut Calendar,
    holding: &[Held],
    trigger: &Row,
    place: u32,
) -> Result<(), Stop>
    requires kept { IsKept standing.now.present }
    requires rules { AreRules standing.now.present rules.now }
    requires row { IsRowOf (built standing.now.present) trigger.now }
    requires place { IsRuleAt standing.now.present place }
    requires stands { Contains (rules_at standing.now.present (moment trigger.now)) (name_at standing.now.present place) }
    requires small { calendar.old.size ≤ most_size }
    ensures ok { OnOk result (Brought (built standing.now.present) (map (After (moment trigger.now)) (filter (brings_about (built standing.now.present) (is_held holding.now) (moment trigger.now)) (name_at standing.now.present place ∷ []))) calendar.old calendar.new) }
    ensures stops { IfErr result (IsTooLarge (calendar.old.size + sum_by (weight (built standing.now.present)) (map (After (moment trigger.now)) (filter (brings_about (built standing.now.present) (is_held holding.now) (moment trigger.now)) (name_at standing.now.present place ∷ []))))) }
{
    let text = rule_at(standing, place);
    if !brings_about(standing, holding, trigger, &text) {
        return Ok(());
    }
    let row = effect_of(alloc, standing, trigger, &text)?;
    calendar.enter(standing, rules, row)
}

// Whether a rule brings about its effect on an event: this begins by the horizon, and what holds
// opens the rule.
fn brings_about(standing: &Standing, holding: &[Held], trigger: &Row, text: &RuleText<'_>) -> bool
    requires row { IsRowOf (built standing.now.present) trigger.now }
    requires says { SaysRule standing.now.present text.now.name text.now }
    requires delayed { pos 1 ≤ℤ text.now.lo }
    ensures { result ≡ brings_about (built standing.now.present) (is_held holding.now) (moment trigger.now) text.now.name }
{
    is_in_time(standing.horizon(), trigger.date, text.lo)
        && is_open(holding, text.given, text.exceptions)
}

// Whether what comes so long after a date comes by the horizon.
fn is_in_time(horizon: u32, date: i64, delay: i64) -> bool
    requires { pos 1 ≤ℤ delay }
    ensures { result ≡ int_le (date +ℤ delay) (pos horizon) }
{
    date <= i64::from(horizon) - delay
}
