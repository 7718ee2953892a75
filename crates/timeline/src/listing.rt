// What occurs, by date and then by name, each token until what ends it.
ghost use Rattle.std.specs.Prelude.{◌≡◌, suc, map, IfOk, OnOk};
ghost use Rattle.tmm_model.specs.Maps.{built};
ghost use Rattle.belief_theory.specs.KeptLists.{IsKept};
ghost use Rattle.timeline.specs.Calendars.{IsBefore};
ghost use Rattle.timeline.specs.Days.{played_rows};
ghost use Rattle.timeline.specs.Entries.{AreEntries, AddsEntries};
ghost use Rattle.timeline.specs.Told.{row_of};
ghost use Rattle.timeline.specs.Until.{until_row, until_later};

use crate::calendar::Calendar;
use crate::entry::{Entry, entry_of, in_order};
use crate::row::Row;
use crate::until::{Coming, note_all, until_among, until_of};
use premise_list::Standing;
use std::alloc::Global;
use tmm_model::{Dated, NoMemory, Seq};

/// What occurs, by date and then by name, each token until what ends it.
pub(crate) fn listed(
    alloc: Global,
    standing: &Standing,
    calendar: &Calendar,
) -> Result<Seq<Dated>, NoMemory>
    requires kept { IsKept standing.now.present }
    requires played { IsBefore (built standing.now.present) (suc standing.now.present.horizon) calendar.now }
    ensures { IfOk result (λ rows. map row_of rows.items ≡ played_rows (built standing.now.present)) }
{
    let entries = entries(alloc, standing, calendar)?;
    in_order(alloc, entries)
}

// An entry for each occurrence, the last day first.
fn entries(alloc: Global, standing: &Standing, calendar: &Calendar) -> Result<Vec<Entry>, NoMemory>
    requires kept { IsKept standing.now.present }
    requires played { IsBefore (built standing.now.present) (suc standing.now.present.horizon) calendar.now }
    ensures { IfOk result (λ entries. AreEntries (built standing.now.present) entries.items) }
{
    let mut entries = Vec::new(alloc);
    let mut coming = Vec::new(alloc);
    add_later(alloc, standing, calendar.later.as_slice(), &mut entries)?;
    note_all(&mut coming, calendar.later.as_slice())?;
    let count = calendar.days.len();
    for back in 0..count {
        let rows = calendar.days[count - 1 - back].as_slice();
        add_day(alloc, standing, rows, coming.as_slice(), &mut entries)?;
        note_all(&mut coming, rows)?;
    }
    Ok(entries)
}

// Adds what comes on a day after which these tokens come.
fn add_day(
    alloc: Global,
    standing: &Standing,
    rows: &[Row],
    coming: &[Coming],
    entries: &mut Vec<Entry>,
) -> Result<(), NoMemory>
    ensures { OnOk result (AddsEntries rows.now (until_row standing.now.present coming.now) entries.old.items entries.new.items) }
{
    for row in rows {
        let until = until_of(standing, row, coming);
        entries.push(entry_of(alloc, row, until)?)?;
    }
    Ok(())
}

// Adds what comes after the last day.
fn add_later(
    alloc: Global,
    standing: &Standing,
    rows: &[Row],
    entries: &mut Vec<Entry>,
) -> Result<(), NoMemory>
    ensures { OnOk result (AddsEntries rows.now (until_later standing.now.present rows.now) entries.old.items entries.new.items) }
{
    for row in rows {
        let until = until_among(standing, row, rows);
        entries.push(entry_of(alloc, row, until)?)?;
    }
    Ok(())
}
