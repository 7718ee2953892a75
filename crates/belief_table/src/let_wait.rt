// Rows that are let wait.
ghost use Rattle.std.specs.Prelude.{◌≡◌, ◌≤ℤ◌, false, IfSome, IsSome, OnOk};
ghost use Rattle.row_links.specs.Lists.{IsOn};
ghost use Rattle.spots.specs.Forest.{IsLive};
ghost use Rattle.occ_tree.specs.Places.{forest};
ghost use Rattle.occ_tree.specs.Standing.{present};
ghost use Rattle.undo_rows.specs.Changes.{present as table};
ghost use Rattle.joined.specs.Listed.{IsListedUnder};
ghost use Rattle.belief_table.specs.Marks.{HaveEvents, Marks, IsAsLate};
ghost use Rattle.belief_table.specs.Waiting.{dates_in};
ghost use Rattle.bearing.specs.Windows.{IsWindow, spares_in, tree_in};

use crate::waiting::Waiting;
use bearing::moving_tokens::Window;
use decision_rows::Rows;
use occ_tree::Tree;
use tmm_model::NoMemory;

/// Lets those rows wait that read a class, by its number, at events no earlier than the date, but
/// for events that the window spares.
pub fn mark_class(
    tree: &Tree,
    rows: &Rows,
    waiting: &mut Waiting,
    class: u32,
    from: i64,
    window: Option<&Window<'_>>,
) -> Result<(), NoMemory>
    requires events { HaveEvents tree.now (table rows.now) }
    requires window { IfSome window (λ w. IsWindow w.now × (tree_in w.now ≡ tree.now)) }
    ensures { OnOk result (Marks (present tree.now) (table rows.now) (λ i row. IsListedUnder (table rows.now) class i × IsAsLate (present tree.now) from row × (spares_in window.entry row.value.trigger ≡ false)) (dates_in waiting.old) (dates_in waiting.new)) }
{
    // the families of rows by the classes of what they read follow those by trigger and by rule
    for place in 0..6 {
        mark_list(tree, rows, waiting, place + 2, class, from, window)?;
    }
    Ok(())
}

/// Lets those rows of a list wait whose events are no earlier than the date, and not spared.
pub fn mark_list(
    tree: &Tree,
    rows: &Rows,
    waiting: &mut Waiting,
    family: usize,
    head: u32,
    from: i64,
    window: Option<&Window<'_>>,
) -> Result<(), NoMemory>
    requires events { HaveEvents tree.now (table rows.now) }
    requires window { IfSome window (λ w. IsWindow w.now × (tree_in w.now ≡ tree.now)) }
    ensures { OnOk result (Marks (present tree.now) (table rows.now) (λ i row. IsOn ((table rows.now).list family head) i × IsAsLate (present tree.now) from row × (spares_in window.entry row.value.trigger ≡ false)) (dates_in waiting.old) (dates_in waiting.new)) }
{
    let mut next = rows.first(family, head);
    while let Some(i) = next {
        mark_row(tree, rows, waiting, i, from, window)?;
        next = rows.next(family, i);
    }
    Ok(())
}

// Lets a row wait if its event is no earlier than the date, and not spared.
fn mark_row(
    tree: &Tree,
    rows: &Rows,
    waiting: &mut Waiting,
    i: u32,
    from: i64,
    window: Option<&Window<'_>>,
) -> Result<(), NoMemory>
    requires events { HaveEvents tree.now (table rows.now) }
    requires row { IsSome ((table rows.now).row i) }
    requires window { IfSome window (λ w. IsWindow w.now × (tree_in w.now ≡ tree.now)) }
    ensures { OnOk result (Marks (present tree.now) (table rows.now) (λ j row. (j ≡ i) × IsAsLate (present tree.now) from row × (spares_in window.entry row.value.trigger ≡ false)) (dates_in waiting.old) (dates_in waiting.new)) }
{
    let (trigger, _) = rows.pair(i);
    let early = tree.early(trigger);
    if early < from {
        return Ok(());
    }
    // a row that waits already is not looked at again
    if waiting.is_for(i, early) {
        return Ok(());
    }
    if is_spared(window, trigger) {
        return Ok(());
    }
    waiting.push(i, early)
}

// Whether the window spares an event.
fn is_spared(window: Option<&Window<'_>>, event: u32) -> bool
    requires window { IfSome window (λ w. IsWindow w.now × IsLive (forest (tree_in w.now)) event) }
    ensures { result ≡ spares_in window.entry event }
{
    match window {
        Some(window) => window.spares(event),
        None => false,
    }
}
