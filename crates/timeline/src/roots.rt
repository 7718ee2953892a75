// What is declared to occur, on its dates.
ghost use Rattle.std.specs.Prelude.{◌≡◌, ◌+◌, ◌≤◌, None, Some, IsSome, [], ◌∷◌, sum_by, MatchOption, OnOk, IfOk, IfErr};
ghost use Rattle.std.specs.List.{filter_map};
ghost use Rattle.tmm_model.specs.Answers.{weight, most_size};
ghost use Rattle.tmm_model.specs.Beliefs.{root_of, class_of};
ghost use Rattle.tmm_model.specs.Maps.{built};
ghost use Rattle.tmm_model.specs.Sorts.{class_in};
ghost use Rattle.tmm_model.specs.declared.point.PointName.TheVariants.{Begin};
ghost use Rattle.tmm_model.specs.Moments.{At};
ghost use Rattle.belief_theory.specs.KeptLists.{IsKept};
ghost use Rattle.list_theory.proofs.Elements.{In};
ghost use Rattle.timeline.specs.Calendars.{Brought, IsBefore};
ghost use Rattle.timeline.specs.Kinds.{AreRules};
ghost use Rattle.timeline.specs.Rows.{IsRootRow, moment};
ghost use Rattle.timeline.specs.Told.{IsTooLarge, StopsTimeline};

use crate::calendar::Calendar;
use crate::dates::date_of;
use crate::kinds::RulesByKind;
use crate::row::{Held, Row};
use map_core::MapCore;
use premise_list::Standing;
use std::alloc::Global;
use tmm_model::{Name, Occ, PointName, Premise, Seq, Stop};

/// The calendar of what is declared to occur.
pub(crate) fn declared<M: MapCore>(
    alloc: Global,
    core: &M,
    rules: &RulesByKind,
) -> Result<Calendar, Stop>
    requires idle { M.pending core.now ≡ None }
    requires kept { IsKept (M.list core.now) }
    requires rules { AreRules (M.list core.now) rules.now }
    ensures ok { IfOk result (IsBefore (built (M.list core.now)) 0) }
    ensures stops { IfErr result (StopsTimeline (built (M.list core.now))) }
{
    let standing = core.standing();
    let mut calendar = Calendar::make(alloc, standing.horizon())?;
    for place in 0..standing.len() {
        if let Some(premise) = standing.at(place) {
            declare(alloc, core, rules, &mut calendar, premise)?;
        }
    }
    Ok(calendar)
}

// Enters what a premise declares to occur.
fn declare<M: MapCore>(
    alloc: Global,
    core: &M,
    rules: &RulesByKind,
    calendar: &mut Calendar,
    premise: &Premise,
) -> Result<(), Stop>
    requires idle { M.pending core.now ≡ None }
    requires kept { IsKept (M.list core.now) }
    requires rules { AreRules (M.list core.now) rules.now }
    requires stands { In premise.now (M.list core.now).premises }
    requires small { calendar.old.size ≤ most_size }
    ensures ok { OnOk result (Brought (built (M.list core.now)) (filter_map root_of (premise.now ∷ [])) calendar.old calendar.new) }
    ensures stops { IfErr result (IsTooLarge (calendar.old.size + sum_by (weight (built (M.list core.now))) (filter_map root_of (premise.now ∷ [])))) }
{
    match root_row(alloc, core, premise) {
        Some(row) => calendar.enter(core.standing(), rules, row),
        None => Ok(()),
    }
}

// What a premise declares to occur, on its date.
fn root_row<M: MapCore>(alloc: Global, core: &M, premise: &Premise) -> Option<Row>
    requires idle { M.pending core.now ≡ None }
    requires kept { IsKept (M.list core.now) }
    requires stands { In premise.now (M.list core.now).premises }
    ensures { MatchOption result (root_of premise.now ≡ None) (IsRootRow (built (M.list core.now)) premise.now) }
{
    match premise {
        Premise::Event { name, kind } => {
            let date = date_of(alloc, core, PointName::Begin(*name));
            Some(row(alloc, date, *name, *kind, None))
        }
        Premise::Token { name, fact } => {
            let date = date_of(alloc, core, PointName::Begin(*name));
            let held = held(core.standing(), *fact, None);
            Some(row(alloc, date, *name, *fact, Some(held)))
        }
        Premise::Span { name, fact } => {
            let date = date_of(alloc, core, PointName::Begin(*name));
            let end = date_of(alloc, core, PointName::End(*name));
            let held = held(core.standing(), *fact, Some(end));
            Some(row(alloc, date, *name, *fact, Some(held)))
        }
        _ => None,
    }
}

// A declared occurrence on its date.
fn row(alloc: Global, date: i64, name: Name, what: Name, held: Option<Held>) -> Row
    ensures date { result.date ≡ date }
    ensures occ { moment result ≡ At (Begin name) }
    ensures what { result.what ≡ what }
    ensures held { result.held ≡ held }
{
    Row {
        date,
        occ: Occ {
            root: name,
            rules: Seq::make(alloc),
        },
        what,
        held,
    }
}

// A token of a declared fact.
fn held(standing: &Standing, fact: Name, end: Option<i64>) -> Held
    requires { IsSome (class_in standing.now.present.premises fact) }
    ensures { result ≡ record { fact = fact; class = class_of standing.now.present fact; end = end } }
{
    match standing.class_of(fact) {
        Some(class) => Held { fact, class, end },
        None => unreachable!(),
    }
}
