// Rows that wait since their events are another distance from `start`.
ghost use Rattle.std.specs.Prelude.{◌≡◌, ℕ, true, Some, IfOk, OnOk};
ghost use Rattle.std.specs.List.{All, Contains};
ghost use Rattle.row_links.specs.Lists.{IsOn};
ghost use Rattle.spots.specs.Forest.{Member, member, IsLive};
ghost use Rattle.occ_tree.specs.Places.{forest};
ghost use Rattle.occ_tree.specs.Standing.{present};
ghost use Rattle.occ_tree.specs.Touched.{IsAtMoved};
ghost use Rattle.undo_rows.specs.Changes.{present as table};
ghost use Rattle.bearing.specs.Events.{is_event_of};
ghost use Rattle.belief_table.specs.ByEvent.{IsOnAt};
ghost use Rattle.belief_table.specs.Marks.{HaveEvents, AreByEvent, Marks, Wakes};
ghost use Rattle.bearing.specs.Reach.{AreBelow256};
ghost use Rattle.belief_table.specs.Waiting.{dates_in};
ghost use Rattle.marking.specs.Woken.{TellMoves, MovesFrom, AreAwake};

use bearing::events::Events;
use bearing::events_touched::touched_by;
use bearing::points_of_class::reach_of_start;
use bearing::what_moved::Moves;
use belief_table::{Waiting, mark_events};
use decision_rows::Rows;
use dist_net::DistNet;
use occ_tree::Tree;
use std::alloc::Global;
use tmm_model::NoMemory;

// Lets the rows wait of events that are another distance from `start` now. All nodes at points that
// moved are among those given. Answers whether all rows wait then whose events begin at such a
// point.
pub(crate) fn wake_moved_events(
    alloc: Global,
    net: &DistNet,
    tree: &Tree,
    rows: &Rows,
    waiting: &mut Waiting,
    moves: &Moves,
    nodes: &[u32],
) -> Result<bool, NoMemory>
    requires events { HaveEvents tree.now (table rows.now) }
    requires by_event { AreByEvent (table rows.now) }
    requires below { AreBelow256 (forest tree.now) }
    requires moves { TellMoves net.now moves.now }
    requires nodes { (x : ℕ) (m : Member) → member (forest tree.now) x ≡ Some m → IsAtMoved net.now.moved m → Contains nodes.now x }
    requires live { All (IsLive (forest tree.now)) nodes.now }
    ensures ok { OnOk result (Wakes (present tree.now) (table rows.now) (λ i row. MovesFrom moves.now (forest tree.now) row.value.trigger) (λ i row. MovesFrom moves.now (forest tree.now) row.value.trigger → ⊥) (dates_in waiting.old) (dates_in waiting.new)) }
    ensures awake { IfOk result (λ awake. awake ≡ true → AreAwake net.now (forest tree.now) (table rows.now) (dates_in waiting.new)) }
{
    let reach = reach_of_start(alloc, tree)?;
    let events = touched_by(alloc, &moves.pairs, net.moved(), &reach)?;
    let mut awake = !net.moved().contains(&0);
    for x in nodes {
        let is_awake = wake_event(tree, rows, waiting, &events, *x)?;
        awake = awake && is_awake;
    }
    Ok(awake)
}

// Lets the rows of an event wait, if it is one of these. Answers whether it is, or has none.
fn wake_event(
    tree: &Tree,
    rows: &Rows,
    waiting: &mut Waiting,
    events: &Events,
    x: u32,
) -> Result<bool, NoMemory>
    requires events { HaveEvents tree.now (table rows.now) }
    requires live { IsLive (forest tree.now) x }
    ensures marks { OnOk result (Marks (present tree.now) (table rows.now) (IsOnAt (table rows.now) 0 x events.now (present tree.now)) (dates_in waiting.old) (dates_in waiting.new)) }
    ensures awake { IfOk result (λ awake. awake ≡ true → (i : ℕ) → IsOn ((table rows.now).list 0 x) i → is_event_of events.now (present tree.now) x ≡ true) }
{
    mark_events(tree, rows, waiting, 0, x, events)?;
    Ok(events.has(tree, x) || rows.first(0, x).is_none())
}
