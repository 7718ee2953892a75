// Rows of a list that are let wait, by their events.
ghost use Rattle.std.specs.Prelude.{◌≡◌, true, IsSome, OnOk};
ghost use Rattle.occ_tree.specs.Standing.{present};
ghost use Rattle.undo_rows.specs.Changes.{present as table};
ghost use Rattle.bearing.specs.Events.{is_event_of};
ghost use Rattle.belief_table.specs.ByEvent.{IsOnAt};
ghost use Rattle.belief_table.specs.Marks.{HaveEvents, Marks};
ghost use Rattle.belief_table.specs.Waiting.{dates_in};

use crate::waiting::Waiting;
use bearing::events::Events;
use decision_rows::Rows;
use occ_tree::Tree;
use tmm_model::NoMemory;

/// Lets those rows of a list wait that are at one of these events.
pub fn mark_events(
    tree: &Tree,
    rows: &Rows,
    waiting: &mut Waiting,
    family: usize,
    head: u32,
    events: &Events,
) -> Result<(), NoMemory>
    requires { HaveEvents tree.now (table rows.now) }
    ensures { OnOk result (Marks (present tree.now) (table rows.now) (IsOnAt (table rows.now) family head events.now (present tree.now)) (dates_in waiting.old) (dates_in waiting.new)) }
{
    let mut next = rows.first(family, head);
    while let Some(i) = next {
        mark_event(tree, rows, waiting, i, events)?;
        next = rows.next(family, i);
    }
    Ok(())
}

// Lets a row wait if it is at one of these events.
fn mark_event(
    tree: &Tree,
    rows: &Rows,
    waiting: &mut Waiting,
    i: u32,
    events: &Events,
) -> Result<(), NoMemory>
    requires events { HaveEvents tree.now (table rows.now) }
    requires row { IsSome ((table rows.now).row i) }
    ensures { OnOk result (Marks (present tree.now) (table rows.now) (λ j row. (j ≡ i) × (is_event_of events.now (present tree.now) row.value.trigger ≡ true)) (dates_in waiting.old) (dates_in waiting.new)) }
{
    let (trigger, _) = rows.pair(i);
    if events.has(tree, trigger) {
        waiting.push(i, tree.early(trigger))
    } else {
        Ok(())
    }
}
