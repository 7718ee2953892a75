// Rows that enter with an event.
ghost use Rattle.std.specs.Prelude.{◌≡◌, ◌≤◌, [], ◌∷◌, map, length, Some, IsSome, IfOk, OnOk};
ghost use Rattle.std.specs.List.{All, filter_map};
ghost use Rattle.tmm_model.specs.Beliefs.{class_of, on_kind, rules_on};
ghost use Rattle.tmm_model.specs.Moments.{read_by, rule_of};
ghost use Rattle.tmm_model.specs.Sorts.{class_in};
ghost use Rattle.list_theory.proofs.Distinct.{Distinct};
ghost use Rattle.list_theory.proofs.Elements.{In};
ghost use Rattle.list_theory.specs.WellNamed.{IsSound};
ghost use Rattle.occ_tree.specs.Classes.{place_in, HaveMore};
ghost use Rattle.projection.specs.Kinds.{AreKnown};
ghost use Rattle.projection.specs.Places.{name_at, IsRuleAt};
ghost use Rattle.belief_table.specs.Decided.{AreUnder, KeepsLast, AddsRows};
ghost use Rattle.belief_turns.specs.Heads.{AreHeads, AddsUnder, NamesMore, HasNamesOf};

use arrayvec::ArrayVec;
use bearing::points_of_rule::facts_read;
use belief_table::{Decisions, Numbers};
use premise_list::Standing;
use projection::KnownKinds;
use std::alloc::Global;
use tmm_model::{Name, NoMemory, Premise};

/// Adds a row for each standing rule on a kind at the node of an event of that kind. None is decided
/// yet, so all of them wait, for the date of the event.
pub fn add_rows(
    alloc: Global,
    standing: &Standing,
    decisions: &mut Decisions,
    event: u32,
    date: i64,
    kind: Name,
) -> Result<(), NoMemory>
    requires sound { IsSound standing.now.present }
    requires once { Distinct (rules_on standing.now.present kind) }
    requires under { AreUnder standing.now.present decisions.old }
    ensures adds { OnOk result (AddsRows (rules_on standing.now.present kind) event date decisions.old decisions.new) }
    ensures under { OnOk result (AreUnder standing.now.present decisions.new) }
    ensures last { KeepsLast decisions.old decisions.new }
{
    for place in 0..standing.len() {
        let Some(premise) = standing.at(place) else {
            unreachable!()
        };
        add_premise(alloc, standing, decisions, event, date, kind, premise)?;
    }
    Ok(())
}

// The same by what is known of kinds: of many events only the first few take a walk over the
// premises.
pub(crate) fn add_rows_after(
    alloc: Global,
    standing: &Standing,
    decisions: &mut Decisions,
    event: u32,
    date: i64,
    kind: Name,
    known: &mut KnownKinds,
) -> Result<(), NoMemory>
    requires sound { IsSound standing.now.present }
    requires once { Distinct (rules_on standing.now.present kind) }
    requires under { AreUnder standing.now.present decisions.old }
    requires known { AreKnown standing.now.present known.old }
    ensures adds { OnOk result (AddsRows (rules_on standing.now.present kind) event date decisions.old decisions.new) }
    ensures under { OnOk result (AreUnder standing.now.present decisions.new) }
    ensures last { KeepsLast decisions.old decisions.new }
    ensures known { AreKnown standing.now.present known.new }
{
    if !known.ask(alloc, standing, kind)? {
        return add_rows(alloc, standing, decisions, event, date, kind);
    }
    add_rows_at(alloc, standing, decisions, event, date, known.places(&kind))
}

// Adds a row for each of the rules at these places of the list.
fn add_rows_at(
    alloc: Global,
    standing: &Standing,
    decisions: &mut Decisions,
    event: u32,
    date: i64,
    places: &[u32],
) -> Result<(), NoMemory>
    requires sound { IsSound standing.now.present }
    requires places { All (IsRuleAt standing.now.present) places.now }
    requires once { Distinct (map (name_at standing.now.present) places.now) }
    requires under { AreUnder standing.now.present decisions.old }
    ensures adds { OnOk result (AddsRows (map (name_at standing.now.present) places.now) event date decisions.old decisions.new) }
    ensures under { OnOk result (AreUnder standing.now.present decisions.new) }
    ensures last { KeepsLast decisions.old decisions.new }
{
    for place in places {
        add_row_at(alloc, standing, decisions, event, date, *place)?;
    }
    Ok(())
}

// Adds a row of the rule at this place of the list.
fn add_row_at(
    alloc: Global,
    standing: &Standing,
    decisions: &mut Decisions,
    event: u32,
    date: i64,
    place: u32,
) -> Result<(), NoMemory>
    requires sound { IsSound standing.now.present }
    requires place { IsRuleAt standing.now.present place }
    requires under { AreUnder standing.now.present decisions.old }
    ensures adds { OnOk result (AddsRows (name_at standing.now.present place ∷ []) event date decisions.old decisions.new) }
    ensures under { OnOk result (AreUnder standing.now.present decisions.new) }
    ensures last { KeepsLast decisions.old decisions.new }
{
    let Some(
        Premise::Rule {
            name,
            given,
            unless_facts,
            ..
        },
    ) = standing.at(place as usize)
    else {
        unreachable!()
    };
    let read = facts_read(given.as_slice(), unless_facts.as_slice());
    add_row(
        alloc,
        standing,
        decisions,
        event,
        date,
        *name,
        read.as_slice(),
    )
}

// Adds a row where the premise is a rule on the kind.
fn add_premise(
    alloc: Global,
    standing: &Standing,
    decisions: &mut Decisions,
    event: u32,
    date: i64,
    kind: Name,
    premise: &Premise,
) -> Result<(), NoMemory>
    requires sound { IsSound standing.now.present }
    requires stands { In premise.now standing.now.present.premises }
    requires under { AreUnder standing.now.present decisions.old }
    ensures adds { OnOk result (AddsRows (filter_map (on_kind kind) (premise.now ∷ [])) event date decisions.old decisions.new) }
    ensures under { OnOk result (AreUnder standing.now.present decisions.new) }
    ensures last { KeepsLast decisions.old decisions.new }
{
    match premise {
        Premise::Rule {
            name,
            trigger,
            given,
            unless_facts,
            ..
        } if *trigger == kind => {
            let read = facts_read(given.as_slice(), unless_facts.as_slice());
            add_row(
                alloc,
                standing,
                decisions,
                event,
                date,
                *name,
                read.as_slice(),
            )
        }
        _ => Ok(()),
    }
}

/// The numbers of a rule and of the classes of what it reads.
#[derive(Drop)]
pub struct Heads {
    /// The number of the rule.
    pub rule: u32,
    /// Those of the classes of its antecedents and exceptions, in order.
    pub classes: ArrayVec<u32, 6>,
}

// Adds a row of the rule of this name, which reads these facts.
fn add_row(
    alloc: Global,
    standing: &Standing,
    decisions: &mut Decisions,
    event: u32,
    date: i64,
    rule: Name,
    read: &[Name],
) -> Result<(), NoMemory>
    requires read { read.now ≡ read_by (rule_of standing.now.present rule) }
    requires few { length read.now ≤ 6 }
    requires facts { All (λ fact. IsSome (class_in standing.now.present.premises fact)) read.now }
    requires under { AreUnder standing.now.present decisions.old }
    ensures adds { OnOk result (AddsRows (rule ∷ []) event date decisions.old decisions.new) }
    ensures under { OnOk result (AreUnder standing.now.present decisions.new) }
    ensures last { KeepsLast decisions.old decisions.new }
{
    let heads = heads_of(standing, decisions, rule, read)?;
    add_under(alloc, decisions, event, date, &heads)
}

/// The numbers of a rule that reads these facts, and of their classes. They serve all rows of the
/// rule that are added after each other.
pub fn heads_of(
    standing: &Standing,
    decisions: &mut Decisions,
    rule: Name,
    read: &[Name],
) -> Result<Heads, NoMemory>
    requires read { read.now ≡ read_by (rule_of standing.now.present rule) }
    requires few { length read.now ≤ 6 }
    requires facts { All (λ fact. IsSome (class_in standing.now.present.premises fact)) read.now }
    ensures heads { IfOk result (AreHeads standing.now.present rule decisions.new) }
    ensures names { NamesMore decisions.old decisions.new }
{
    let number = decisions.rules.enter(rule)?;
    let classes = numbers_of(standing, &mut decisions.classes, read)?;
    Ok(Heads {
        rule: number,
        classes,
    })
}

/// Adds a row of the rule and the classes of these numbers.
pub fn add_under(
    alloc: Global,
    decisions: &mut Decisions,
    event: u32,
    date: i64,
    heads: &Heads,
) -> Result<(), NoMemory>
    requires few { length heads.now.classes.items ≤ 6 }
    ensures adds { OnOk result (AddsUnder (λ rule. AddsRows (rule ∷ []) event date decisions.old decisions.new) heads.now decisions.old decisions.new) }
    ensures names { HasNamesOf decisions.old decisions.new }
    ensures last { KeepsLast decisions.old decisions.new }
{
    let row = decisions
        .rows
        .add(alloc, event, heads.rule, heads.classes.as_slice())?;
    decisions.waiting.push(row, date)?;
    Ok(())
}

// The numbers of the classes of facts.
fn numbers_of(
    standing: &Standing,
    classes: &mut Numbers,
    facts: &[Name],
) -> Result<ArrayVec<u32, 6>, NoMemory>
    requires few { length facts.now ≤ 6 }
    requires facts { All (λ fact. IsSome (class_in standing.now.present.premises fact)) facts.now }
    ensures numbers { IfOk result (λ numbers. map (λ fact. place_in classes.new (class_of standing.now.present fact)) facts.now ≡ map Some numbers.items) }
    ensures few { IfOk result (λ numbers. length numbers.items ≤ 6) }
    ensures more { HaveMore classes.old classes.new }
{
    let mut numbers = ArrayVec::new();
    for i in 0..facts.len() {
        let Some(class) = standing.class_of(facts[i]) else {
            unreachable!()
        };
        numbers.push(classes.enter(class)?);
    }
    Ok(numbers)
}
