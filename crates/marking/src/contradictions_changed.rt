// Rows that wait since an edit adds or takes out a premise that says which facts contradict each
// other.
ghost use Rattle.std.specs.Prelude.{◌≡◌, ℕ, List, true, false, Some, OnOk};
ghost use Rattle.tmm_model.specs.Sorts.{class_in};
ghost use Rattle.premise_list.specs.Rivalries.{rivalries, is_pair_of, AreChanges};
ghost use Rattle.row_links.specs.Lists.{IsOn};
ghost use Rattle.occ_tree.specs.Standing.{present};
ghost use Rattle.undo_rows.specs.Changes.{present as table};
ghost use Rattle.marking.specs.Contradicted.{ShareClass, AreUnlike, AreAlike, ReadsUnlike, ReadsAlike, IsAlikeRow};
ghost use Rattle.belief_table.specs.Decided.{table_of, rule_in, AreUnder};
ghost use Rattle.belief_table.specs.Marks.{HaveEvents, Wakes};
ghost use Rattle.belief_table.specs.Waiting.{dates_in};

use bearing::points_of_rule::read_of;
use belief_table::{Decisions, Waiting, mark_list};
use decision_rows::Rows;
use occ_tree::Tree;
use premise_list::Standing;
use std::alloc::Global;
use tmm_model::{Name, NoMemory, Rivals};

/// Lets those rows wait whose rules read a fact that another one contradicts by one of both lists
/// alone. Rules are looked at only where there are pairs of which that may hold.
pub fn mark_contradicted(
    alloc: Global,
    standing: &Standing,
    tree: &Tree,
    decisions: &mut Decisions,
) -> Result<(), NoMemory>
    requires events { HaveEvents tree.now (table_of decisions.old) }
    requires under { AreUnder standing.now.present decisions.old }
    ensures ok { OnOk result (Wakes (present tree.now) (table_of decisions.old) (λ i row. ReadsUnlike standing.now.committed standing.now.present (rule_in decisions.old row)) (λ i row. IsAlikeRow standing.now.committed standing.now.present (present tree.now) (rule_in decisions.old row) row) (dates_in decisions.old.waiting) (dates_in decisions.new.waiting)) }
    ensures others { decisions.new ≡ record decisions.old { waiting = decisions.new.waiting } }
{
    // it tells the proof that rows are on their lists
    let _ = decisions.rows.first(1, 0);
    let changed = standing.changed_rivalries(alloc)?;
    if changed.is_empty() {
        return Ok(());
    }
    for rule in 0..decisions.rules.len() {
        let name = decisions.rules.name(rule);
        mark_unlike(
            standing,
            tree,
            &decisions.rows,
            &mut decisions.waiting,
            rule,
            name,
            changed.as_slice(),
        )?;
    }
    Ok(())
}

// Lets all rows of a rule wait, by its number, if it reads such a fact.
fn mark_unlike(
    standing: &Standing,
    tree: &Tree,
    rows: &Rows,
    waiting: &mut Waiting,
    rule: u32,
    name: Name,
    changed: &[(Name, Name)],
) -> Result<(), NoMemory>
    requires changed { AreChanges (rivalries standing.now.committed.premises) (rivalries standing.now.present.premises) changed.now }
    requires events { HaveEvents tree.now (table rows.now) }
    ensures { OnOk result (Wakes (present tree.now) (table rows.now) (λ i row. IsOn ((table rows.now).list 1 rule) i × ReadsUnlike standing.now.committed standing.now.present name) (λ i row. IsOn ((table rows.now).list 1 rule) i → IsAlikeRow standing.now.committed standing.now.present (present tree.now) name row) (dates_in waiting.old) (dates_in waiting.new)) }
{
    if reads_unlike(standing, name, changed) {
        // no event is before 0
        mark_list(tree, rows, waiting, 1, rule, 0, None)
    } else {
        Ok(())
    }
}

// Whether the rule reads a fact that another one contradicts by one of both lists alone.
fn reads_unlike(standing: &Standing, rule: Name, changed: &[(Name, Name)]) -> bool
    requires { AreChanges (rivalries standing.now.committed.premises) (rivalries standing.now.present.premises) changed.now }
    ensures yes { result ≡ true → ReadsUnlike standing.now.committed standing.now.present rule }
    ensures no { result ≡ false → ReadsAlike standing.now.committed standing.now.present rule }
{
    let read = read_of(standing, rule);
    let facts = read.as_slice();
    for i in 0..facts.len() {
        if is_unlike(standing, facts[i], changed) {
            return true;
        }
    }
    false
}

// Whether another fact contradicts this one by one of both lists alone.
fn is_unlike(standing: &Standing, fact: Name, changed: &[(Name, Name)]) -> bool
    requires { AreChanges (rivalries standing.now.committed.premises) (rivalries standing.now.present.premises) changed.now }
    ensures yes { result ≡ true → (g : List ℕ) × AreUnlike standing.now.committed standing.now.present fact g }
    ensures no { result ≡ false → (g : List ℕ) → AreAlike standing.now.committed standing.now.present fact g }
{
    for i in 0..changed.len() {
        if is_unlike_by(standing, fact, &changed[i]) {
            return true;
        }
    }
    false
}

// Whether the pair is of the fact and one that contradicts it by one of both lists alone.
fn is_unlike_by(standing: &Standing, fact: Name, pair: &(Name, Name)) -> bool
    ensures yes { result ≡ true → (g : List ℕ) × AreUnlike standing.now.committed standing.now.present fact g }
    ensures no { result ≡ false → (g : List ℕ) → is_pair_of fact g pair.now ≡ true → AreAlike standing.now.committed standing.now.present fact g }
{
    is_unlike_at(standing, fact, pair.0, pair.1) || is_unlike_at(standing, fact, pair.1, pair.0)
}

// Whether `one` is the fact, and `other` contradicts it by one of both lists alone.
fn is_unlike_at(standing: &Standing, fact: Name, one: Name, other: Name) -> bool
    ensures yes { result ≡ true → AreUnlike standing.now.committed standing.now.present fact other }
    ensures no { result ≡ false → one ≡ fact → AreAlike standing.now.committed standing.now.present fact other }
{
    one == fact && are_unlike(standing, fact, other)
}

// Whether the two facts contradict each other by one of both lists alone.
fn are_unlike(standing: &Standing, one: Name, other: Name) -> bool
    ensures yes { result ≡ true → AreUnlike standing.now.committed standing.now.present one other }
    ensures no { result ≡ false → AreAlike standing.now.committed standing.now.present one other }
{
    if standing.were_against(&one, &other) == standing.are_against(&one, &other) {
        return false;
    }
    !share_class(standing, one, other)
}

// Whether a class declares both facts.
fn share_class(standing: &Standing, one: Name, other: Name) -> bool
    ensures yes { result ≡ true → ShareClass standing.now.present one other }
    ensures no { result ≡ false → ShareClass standing.now.present one other → ⊥ }
{
    match standing.class_of(one) {
        Some(class) => is_of_class(standing, other, class),
        None => false,
    }
}

// Whether the class declares the fact.
fn is_of_class(standing: &Standing, fact: Name, class: Name) -> bool
    ensures yes { result ≡ true → class_in standing.now.present.premises fact ≡ Some class }
    ensures no { result ≡ false → class_in standing.now.present.premises fact ≡ Some class → ⊥ }
{
    match standing.class_of(fact) {
        Some(other) => other == class,
        None => false,
    }
}
