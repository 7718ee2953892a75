// Rows that wait since points moved, of rules that read what other facts contradict, as premises
// say.
ghost use Rattle.std.specs.Prelude.{◌≡◌, ℕ, List, true, false, OnOk};
ghost use Rattle.tmm_model.specs.Beliefs.{are_rivals};
ghost use Rattle.list_theory.specs.WellNamed.{IsSound};
ghost use Rattle.row_links.specs.Lists.{IsOn};
ghost use Rattle.occ_tree.specs.Places.{forest};
ghost use Rattle.occ_tree.specs.Standing.{present};
ghost use Rattle.undo_rows.specs.Changes.{present as table};
ghost use Rattle.belief_table.specs.Decided.{table_of, rule_in, AreUnder};
ghost use Rattle.belief_table.specs.Marks.{HaveEvents, Wakes};
ghost use Rattle.bearing.specs.Reach.{AreBelow256};
ghost use Rattle.belief_table.specs.Waiting.{dates_in};
ghost use Rattle.bearing.specs.Watched.{AreClassed};
ghost use Rattle.marking.specs.Woken.{TellMoves, IsPlainRule, MovesByRule, StaysByRule};

use bearing::events_touched::touched_by;
use bearing::points_of_rule::{reach_of_rule, read_of};
use bearing::what_moved::Moves;
use belief_table::{Decisions, Waiting, mark_events};
use decision_rows::Rows;
use dist_net::DistNet;
use occ_tree::Tree;
use premise_list::Standing;
use std::alloc::Global;
use tmm_model::{Name, NoMemory};

// Lets those rows wait whose rules read what other facts contradict, if points moved on which their
// decisions depend.
pub(crate) fn wake_rivalled(
    alloc: Global,
    standing: &Standing,
    net: &DistNet,
    tree: &Tree,
    decisions: &mut Decisions,
    moves: &Moves,
) -> Result<(), NoMemory>
    requires sound { IsSound standing.now.present }
    requires classed { AreClassed standing.now.present (forest tree.now) }
    requires below { AreBelow256 (forest tree.now) }
    requires moves { TellMoves net.now moves.now }
    requires events { HaveEvents tree.now (table_of decisions.old) }
    requires under { AreUnder standing.now.present decisions.old }
    ensures ok { OnOk result (Wakes (present tree.now) (table_of decisions.old) (λ i row. MovesByRule moves.now standing.now.present (forest tree.now) (rule_in decisions.old row) row.value.trigger) (λ i row. StaysByRule moves.now standing.now.committed standing.now.present (forest tree.now) (rule_in decisions.old row) row.value.trigger) (dates_in decisions.old.waiting) (dates_in decisions.new.waiting)) }
    ensures others { decisions.new ≡ record decisions.old { waiting = decisions.new.waiting } }
{
    // it tells the proof that rows are on their lists
    let _ = decisions.rows.first(1, 0);
    if says_none(standing) {
        return Ok(());
    }
    for rule in 0..decisions.rules.len() {
        let name = decisions.rules.name(rule);
        wake_rule(
            alloc,
            standing,
            net,
            tree,
            &decisions.rows,
            &mut decisions.waiting,
            moves,
            rule,
            name,
        )?;
    }
    Ok(())
}

// Lets those rows of a rule wait, by its number, on which points that moved bear, if it reads what
// other facts contradict.
fn wake_rule(
    alloc: Global,
    standing: &Standing,
    net: &DistNet,
    tree: &Tree,
    rows: &Rows,
    waiting: &mut Waiting,
    moves: &Moves,
    rule: u32,
    name: Name,
) -> Result<(), NoMemory>
    requires sound { IsSound standing.now.present }
    requires classed { AreClassed standing.now.present (forest tree.now) }
    requires below { AreBelow256 (forest tree.now) }
    requires moves { TellMoves net.now moves.now }
    requires events { HaveEvents tree.now (table rows.now) }
    ensures { OnOk result (Wakes (present tree.now) (table rows.now) (λ i row. IsOn ((table rows.now).list 1 rule) i × MovesByRule moves.now standing.now.present (forest tree.now) name row.value.trigger) (λ i row. IsOn ((table rows.now).list 1 rule) i → StaysByRule moves.now standing.now.committed standing.now.present (forest tree.now) name row.value.trigger) (dates_in waiting.old) (dates_in waiting.new)) }
{
    if reads_no_rival(standing, name) {
        return Ok(());
    }
    let reach = reach_of_rule(alloc, standing, tree, name)?;
    let events = touched_by(alloc, &moves.pairs, net.moved(), &reach)?;
    mark_events(tree, rows, waiting, 1, rule, &events)
}

// Whether no premise of either list says that facts contradict each other.
pub(crate) fn says_none(standing: &Standing) -> bool
    ensures { result ≡ true → (f g : List ℕ) → (are_rivals standing.now.committed f g ≡ false) × (are_rivals standing.now.present f g ≡ false) }
{
    standing.rivalries() == 0 && standing.rivalries_before() == 0
}

// Whether no premise of either list says of a fact that the rule reads that another one contradicts
// it.
fn reads_no_rival(standing: &Standing, rule: Name) -> bool
    ensures { result ≡ true → IsPlainRule standing.now.committed standing.now.present rule }
{
    let read = read_of(standing, rule);
    let facts = read.as_slice();
    for i in 0..facts.len() {
        if standing.has_or_had_rivals(facts[i]) {
            return false;
        }
    }
    true
}
