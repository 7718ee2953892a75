// Rows that wait since a token enters or leaves whose fact contradicts what their rules read.
ghost use Rattle.std.specs.Prelude.{◌≡◌, ◌&&◌, ℕ, true, false, List, OnOk};
ghost use Rattle.std.specs.List.{list_any};
ghost use Rattle.tmm_model.specs.Beliefs.{are_rivals};
ghost use Rattle.row_links.specs.Lists.{IsOn};
ghost use Rattle.occ_tree.specs.Standing.{present};
ghost use Rattle.undo_rows.specs.Changes.{present as table};
ghost use Rattle.joined.specs.Gaps.{reads_rival};
ghost use Rattle.marking.specs.Covered.{Covers};
ghost use Rattle.belief_table.specs.Decided.{AreOfSome};
ghost use Rattle.marking.specs.TokenMarks.{MarksRivals};
ghost use Rattle.belief_table.specs.Marks.{HaveEvents, Marks, IsAsLate};
ghost use Rattle.belief_table.specs.Waiting.{dates_in};

use crate::edit_marks::EditMarks;
use bearing::points_of_rule::facts_read;
use belief_table::{Decisions, Waiting, mark_list};
use decision_rows::Rows;
use occ_tree::Tree;
use premise_list::Standing;
use tmm_model::{Name, NoMemory, Premise, Rivals};

// Lets those rows wait whose rules read what contradicts the fact of a token that enters or leaves,
// at events no earlier than the date. That is noted: a token of the fact that comes later, at that
// date or after it, has nothing to mark.
pub(crate) fn mark_rivals_once(
    standing: &Standing,
    tree: &Tree,
    decisions: &mut Decisions,
    marks: &mut EditMarks,
    fact: Name,
    from: i64,
) -> Result<(), NoMemory>
    requires events { HaveEvents tree.now (table decisions.old.rows) }
    requires under { AreOfSome decisions.old }
    requires covered { Covers standing.now.present (present tree.now) decisions.old marks.old }
    ensures ok { OnOk result (MarksRivals standing.now.present (present tree.now) fact from decisions.old decisions.new) }
    ensures others { decisions.new ≡ record decisions.old { waiting = decisions.new.waiting } }
    ensures covered { OnOk result (Covers standing.now.present (present tree.now) decisions.new marks.new) }
{
    if says_none(standing) {
        return Ok(());
    }
    if marks.covers_fact(&fact, from) {
        return Ok(());
    }
    mark_rivals(standing, tree, decisions, fact, from)?;
    marks.mark_fact(fact, from)
}

/// Lets those rows wait whose rules read what contradicts a fact, at events no earlier than the
/// date: rules are looked at one after the other, and only where some premise says that something
/// contradicts the fact.
pub fn mark_rivals(
    standing: &Standing,
    tree: &Tree,
    decisions: &mut Decisions,
    fact: Name,
    from: i64,
) -> Result<(), NoMemory>
    requires events { HaveEvents tree.now (table decisions.old.rows) }
    requires under { AreOfSome decisions.old }
    ensures ok { OnOk result (MarksRivals standing.now.present (present tree.now) fact from decisions.old decisions.new) }
    ensures others { decisions.new ≡ record decisions.old { waiting = decisions.new.waiting } }
{
    if !has_rivals(standing, fact) {
        return Ok(());
    }
    // it tells the proof that rows are on their lists
    let _ = decisions.rows.first(1, 0);
    for rule in 0..decisions.rules.len() {
        let name = decisions.rules.name(rule);
        mark_rival(
            standing,
            tree,
            &decisions.rows,
            &mut decisions.waiting,
            rule,
            name,
            fact,
            from,
        )?;
    }
    Ok(())
}

// Lets those rows of a rule wait, by its number, whose events are no earlier than the date, if it
// reads what contradicts the fact.
fn mark_rival(
    standing: &Standing,
    tree: &Tree,
    rows: &Rows,
    waiting: &mut Waiting,
    rule: u32,
    name: Name,
    fact: Name,
    from: i64,
) -> Result<(), NoMemory>
    requires { HaveEvents tree.now (table rows.now) }
    ensures reads { reads_rival standing.now.present name fact ≡ true → OnOk result (Marks (present tree.now) (table rows.now) (λ i row. IsOn ((table rows.now).list 1 rule) i × IsAsLate (present tree.now) from row) (dates_in waiting.old) (dates_in waiting.new)) }
    ensures other { reads_rival standing.now.present name fact ≡ false → waiting.new ≡ waiting.old }
{
    if reads_rival(standing, name, fact) {
        mark_list(tree, rows, waiting, 1, rule, from, None)
    } else {
        Ok(())
    }
}

// Whether a rule reads what contradicts a fact, as a premise says.
fn reads_rival(standing: &Standing, rule: Name, fact: Name) -> bool
    ensures { result ≡ reads_rival standing.now.present rule fact }
{
    match standing.get(rule) {
        Some(
            Premise::Rule {
                given,
                unless_facts,
                ..
            },
        ) => {
            let read = facts_read(given.as_slice(), unless_facts.as_slice());
            has_rival(standing, read.as_slice(), fact)
        }
        _ => false,
    }
}

// Whether a premise says of one of these facts that it contradicts a fact.
fn has_rival(standing: &Standing, facts: &[Name], fact: Name) -> bool
    ensures { result ≡ list_any (λ f. are_rivals standing.now.present f fact) facts.now }
{
    facts.iter().any(|f| are_rivals(standing, *f, fact))
}

// Whether a premise says that two facts contradict each other.
fn are_rivals(standing: &Standing, one: Name, other: Name) -> bool
    ensures { result ≡ are_rivals standing.now.present one other }
{
    standing.are_against(&one, &other)
}

// Whether no premise says that facts contradict each other.
fn says_none(standing: &Standing) -> bool
    ensures { result ≡ true → (f g : List ℕ) → are_rivals standing.now.present f g ≡ false }
{
    standing.rivalries() == 0
}

// Whether some premise speaks of what contradicts a fact: if not, nothing contradicts it but its
// class.
fn has_rivals(standing: &Standing, fact: Name) -> bool
    ensures { result ≡ false → (f : List ℕ) → are_rivals standing.now.present f fact ≡ false }
{
    standing.has_rivals(fact)
}
