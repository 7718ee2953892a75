// The declared points of `start` and of the tokens that a rule watches: those of the classes of
// what it reads, and those of facts that contradict what it reads, as premises say.
ghost use Rattle.std.specs.Prelude.{◌≡◌, ◌⊎◌, ◌&&◌, ℕ, not, true, Some, IsSome, IfOk};
ghost use Rattle.std.specs.List.{list_any};
ghost use Rattle.tmm_model.specs.Beliefs.{class_of};
ghost use Rattle.tmm_model.specs.Moments.{read_by, rule_of};
ghost use Rattle.tmm_model.specs.Points.{same_name};
ghost use Rattle.tmm_model.specs.Sorts.{class_in};
ghost use Rattle.list_theory.proofs.Elements.{In};
ghost use Rattle.list_theory.specs.WellNamed.{IsSound};
ghost use Rattle.spots.specs.Forest.{Member};
ghost use Rattle.spots.proofs.Rows.{IsRowOf};
ghost use Rattle.occ_tree.specs.Places.{forest};
ghost use Rattle.joined.specs.Gaps.{IsClassSpot, IsFactSpot, IsReadSpot};
ghost use Rattle.bearing.specs.PointSets.{AreThose};
ghost use Rattle.bearing.specs.Reach.{IsBaseOf, IsBoundedBaseOf, Notes, HasPlaces, AreBelow256};
ghost use Rattle.bearing.specs.Watched.{AreClassed, AreDeclared, IsSpotRead, IsSpotSaid, IsSpotAgainst, IsTokenSpot};
ghost use Rattle.std.specs.Prelude.{◌≤◌, ◌++◌, length};

use crate::points_of_class::{Reach, note_class, note_spot, note_token, reach_of_none};
use arrayvec::ArrayVec;
use occ_tree::Tree;
use premise_list::Standing;
use spots::Spot;
use std::alloc::Global;
use tmm_model::{Name, NoMemory, Premise, TokenRow};

/// The points of `start` and of the tokens that a rule watches.
pub fn reach_of_rule(
    alloc: Global,
    standing: &Standing,
    tree: &Tree,
    rule: Name,
) -> Result<Reach, NoMemory>
    requires sound { IsSound standing.now.present }
    requires classed { AreClassed standing.now.present (forest tree.now) }
    requires below { AreBelow256 (forest tree.now) }
    ensures all { IfOk result (λ reach. AreThose (IsBaseOf (forest tree.now) (IsReadSpot standing.now.present (forest tree.now) rule)) reach.all.items) }
    ensures bounded { IfOk result (λ reach. AreThose (IsBoundedBaseOf (forest tree.now) (IsReadSpot standing.now.present (forest tree.now) rule)) reach.bounded.items) }
{
    let mut reach = reach_of_none(alloc)?;
    note_spot(tree, Spot::Declared(0), &mut reach);
    let read = read_of(standing, rule);
    note_read(standing, tree, read.as_slice(), &mut reach);
    note_rivals(standing, tree, read.as_slice(), &mut reach);
    Ok(reach)
}

/// The facts that a rule reads; none where it does not stand.
pub fn read_of(standing: &Standing, rule: Name) -> ArrayVec<Name, 6>
    ensures { result.items ≡ read_by (rule_of standing.now.present rule) }
{
    match standing.get(rule) {
        Some(
            Premise::Rule {
                given,
                unless_facts,
                ..
            },
        ) => facts_read(given.as_slice(), unless_facts.as_slice()),
        _ => ArrayVec::new(),
    }
}

// Puts the points of the tokens of the classes of these facts in.
fn note_read(standing: &Standing, tree: &Tree, facts: &[Name], reach: &mut Reach)
    requires declared { AreDeclared standing.now.present facts.now }
    requires below { AreBelow256 (forest tree.now) }
    requires places { HasPlaces reach.old }
    ensures { Notes (forest tree.now) (IsSpotRead standing.now.present (forest tree.now) facts.now) reach.old reach.new }
{
    for i in 0..facts.len() {
        note_class_of(standing, tree, facts[i], reach);
    }
}

// Puts the points of the tokens of the class of a fact in.
fn note_class_of(standing: &Standing, tree: &Tree, fact: Name, reach: &mut Reach)
    requires declared { IsSome (class_in standing.now.present.premises fact) }
    requires below { AreBelow256 (forest tree.now) }
    requires places { HasPlaces reach.old }
    ensures { Notes (forest tree.now) (IsClassSpot (forest tree.now) (class_of standing.now.present fact)) reach.old reach.new }
{
    let Some(class) = standing.class_of(fact) else {
        unreachable!()
    };
    note_class(tree, &class, reach);
}

// Puts the points of the tokens in whose facts contradict these, as premises say.
fn note_rivals(standing: &Standing, tree: &Tree, facts: &[Name], reach: &mut Reach)
    requires sound { IsSound standing.now.present }
    requires classed { AreClassed standing.now.present (forest tree.now) }
    requires below { AreBelow256 (forest tree.now) }
    requires places { HasPlaces reach.old }
    ensures { Notes (forest tree.now) (IsSpotAgainst (forest tree.now) facts.now standing.now.present.premises) reach.old reach.new }
{
    for place in 0..standing.len() {
        let Some(premise) = standing.at(place) else {
            unreachable!()
        };
        note_said(standing, tree, premise, facts, reach);
    }
}

// Puts the points of the tokens in of whose facts the premise says that they contradict one of
// these.
fn note_said(standing: &Standing, tree: &Tree, premise: &Premise, facts: &[Name], reach: &mut Reach)
    requires sound { IsSound standing.now.present }
    requires classed { AreClassed standing.now.present (forest tree.now) }
    requires stands { In premise.now standing.now.present.premises }
    requires below { AreBelow256 (forest tree.now) }
    requires places { HasPlaces reach.old }
    ensures { Notes (forest tree.now) (IsSpotSaid (forest tree.now) facts.now premise.now) reach.old reach.new }
{
    if let Premise::Against { one, other, .. } = premise {
        note_if_read(standing, tree, *one, *other, facts, reach);
        note_if_read(standing, tree, *other, *one, facts, reach);
    }
}

// Puts the points of the tokens of a fact in, if another one is among these facts.
fn note_if_read(
    standing: &Standing,
    tree: &Tree,
    read: Name,
    fact: Name,
    facts: &[Name],
    reach: &mut Reach,
)
    requires classed { AreClassed standing.now.present (forest tree.now) }
    requires declared { IsSome (class_in standing.now.present.premises fact) }
    requires below { AreBelow256 (forest tree.now) }
    requires places { HasPlaces reach.old }
    ensures { Notes (forest tree.now) (λ p. ((not (same_name read fact) && list_any (same_name read) facts.now) ≡ true) × IsFactSpot (forest tree.now) fact p) reach.old reach.new }
{
    if is_other_of(read, fact, facts) {
        note_fact(standing, tree, fact, reach);
    }
}

// Whether a name is another one than `fact` and is among these.
fn is_other_of(read: Name, fact: Name, facts: &[Name]) -> bool
    ensures { result ≡ (not (same_name read fact) && list_any (same_name read) facts.now) }
{
    read != fact && is_among(read, facts)
}

// Whether a name is among these.
fn is_among(name: Name, names: &[Name]) -> bool
    ensures { result ≡ list_any (same_name name) names.now }
{
    names.iter().any(|other| name == *other)
}

// Puts the points of the tokens of a fact in.
fn note_fact(standing: &Standing, tree: &Tree, fact: Name, reach: &mut Reach)
    requires classed { AreClassed standing.now.present (forest tree.now) }
    requires declared { IsSome (class_in standing.now.present.premises fact) }
    requires below { AreBelow256 (forest tree.now) }
    requires places { HasPlaces reach.old }
    ensures { Notes (forest tree.now) (IsFactSpot (forest tree.now) fact) reach.old reach.new }
{
    let Some(class) = standing.class_of(fact) else {
        unreachable!()
    };
    note_tokens(tree, &class, fact, reach);
}

// Puts the points of the tokens of a class and a fact in.
fn note_tokens(tree: &Tree, class: &Name, fact: Name, reach: &mut Reach)
    requires below { AreBelow256 (forest tree.now) }
    requires places { HasPlaces reach.old }
    ensures { Notes (forest tree.now) (IsTokenSpot (forest tree.now) class.now fact) reach.old reach.new }
{
    let rows = tree.tokens(class);
    for i in 0..rows.len() {
        note_if_of(tree, &rows[i], fact, reach);
    }
}

// Puts the points of a token in, if it is of this fact.
fn note_if_of(tree: &Tree, row: &TokenRow<Spot>, fact: Name, reach: &mut Reach)
    requires row { (x : ℕ) × (m : Member) × IsRowOf (forest tree.now) row.now x m }
    requires below { AreBelow256 (forest tree.now) }
    requires places { HasPlaces reach.old }
    ensures { Notes (forest tree.now) (λ p. (row.now.fact ≡ fact) × ((p ≡ row.now.spot) ⊎ (row.now.end ≡ Some p))) reach.old reach.new }
{
    if row.fact == fact {
        note_token(tree, row, reach);
    }
}

/// The facts that a rule of these antecedents and exceptions reads.
pub fn facts_read(given: &[Name], exceptions: &[Name]) -> ArrayVec<Name, 6>
    requires few { length given.now ≤ 4 }
    requires fewer { length exceptions.now ≤ 2 }
    ensures { result.items ≡ given.now ++ exceptions.now }
{
    let mut facts = ArrayVec::new();
    // there is room for both
    let _fits = facts.try_extend_from_slice(given);
    let _fit_too = facts.try_extend_from_slice(exceptions);
    facts
}
