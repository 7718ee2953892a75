// Another horizon: which rows wait.
ghost use Rattle.std.specs.Prelude.{◌≡◌, OnOk};
ghost use Rattle.tmm_model.specs.Moments.{rule_of};
ghost use Rattle.occ_tree.specs.Standing.{present};
ghost use Rattle.belief_table.specs.Decided.{table_of, AreUnder};
ghost use Rattle.marking.specs.Horizons.{IsDueBetween};
ghost use Rattle.belief_table.specs.Marks.{HaveEvents, Marks};
ghost use Rattle.belief_table.specs.Waiting.{dates_in};

use bearing::events::Events;
use belief_table::{Decisions, mark_events};
use occ_tree::Tree;
use premise_list::Standing;
use tmm_model::{Name, NoMemory, Premise};

/// Lets those rows wait whose effects are due up to one of the horizons and after the other: the one
/// before, and that of the list. None waits where they are the same.
pub fn mark_horizon(
    standing: &Standing,
    tree: &Tree,
    decisions: &mut Decisions,
    before: u32,
) -> Result<(), NoMemory>
    requires events { HaveEvents tree.now (table_of decisions.old) }
    requires under { AreUnder standing.now.present decisions.old }
    ensures ok { OnOk result (Marks (present tree.now) (table_of decisions.old) (λ i row. IsDueBetween standing.now.present (present tree.now) decisions.old before standing.now.present.horizon row) (dates_in decisions.old.waiting) (dates_in decisions.new.waiting)) }
    ensures others { decisions.new ≡ record decisions.old { waiting = decisions.new.waiting } }
{
    let after = standing.horizon();
    if before == after {
        return Ok(());
    }
    // it tells the proof that rows are on their lists
    let _ = decisions.rows.first(1, 0);
    for rule in 0..decisions.rules.len() {
        let delay = least_delay(standing, decisions.rules.name(rule));
        let events = Events::DueBetween {
            delay,
            before,
            after,
        };
        mark_events(
            tree,
            &decisions.rows,
            &mut decisions.waiting,
            1,
            rule,
            &events,
        )?;
    }
    Ok(())
}

// The least delay of a rule, in whole time units, 0 where it does not stand.
fn least_delay(standing: &Standing, rule: Name) -> i64
    ensures { result ≡ (rule_of standing.now.present rule).lo }
{
    match standing.get(rule) {
        Some(Premise::Rule { lo, .. }) => *lo,
        _ => 0,
    }
}
