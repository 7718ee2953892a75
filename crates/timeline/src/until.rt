// Until when tokens hold.
ghost use Rattle.std.specs.Prelude.{◌≡◌, ◌<◌, Bool, OnOk, IfSome, length, slice_index_or};
ghost use Rattle.std.specs.Int.{int_min};
ghost use Rattle.tmm_model.specs.Bounds.{lesser};
ghost use Rattle.timeline.specs.declared.row.Held.{Held};
ghost use Rattle.timeline.specs.declared.until.Coming.{Coming};
ghost use Rattle.timeline.specs.Until.{least_by, coming_bound, row_bound, later_bound, bound_if, until_with, until_row, until_later};
ghost use Rattle.timeline.specs.Rows.{clashes};

use crate::holding::is_same;
use crate::row::{Held, Row, clashes};
use premise_list::Standing;
use tmm_model::{Bound, NoMemory};

/// A token that comes, and the first date on which one like it does.
#[derive(Clone, Copy)]
pub(crate) struct Coming {
    /// The token.
    pub held: Held,
    /// The date, in whole time units.
    pub date: i64,
}

/// Until when what comes holds, where these tokens come later; none where it is an event.
pub(crate) fn until_of(standing: &Standing, row: &Row, coming: &[Coming]) -> Option<Bound>
    ensures { result ≡ until_row standing.now.present coming.now row.now }
{
    match row.held {
        Some(held) => Some(held_until(standing, &held, coming)),
        None => None,
    }
}

fn held_until(standing: &Standing, held: &Held, coming: &[Coming]) -> Bound
    ensures { result ≡ until_with held.now.end (least_by (coming_bound (clashes standing.now.present held.now)) coming.now) }
{
    match held.end {
        Some(end) => Bound::Finite(end),
        None => first_clash(standing, held, coming),
    }
}

// The first date on which a token comes that contradicts this one.
fn first_clash(standing: &Standing, held: &Held, coming: &[Coming]) -> Bound
    ensures { result ≡ least_by (coming_bound (clashes standing.now.present held.now)) coming.now }
{
    let mut first = Bound::Free;
    for next in coming {
        first = first.lesser(bound_if(clashes(standing, held, &next.held), next.date));
    }
    first
}

/// Until when what comes holds, where no tokens come later but some of these rows; none where it is
/// an event.
pub(crate) fn until_among(standing: &Standing, row: &Row, rows: &[Row]) -> Option<Bound>
    ensures { result ≡ until_later standing.now.present rows.now row.now }
{
    match row.held {
        Some(held) => Some(held_among(standing, &held, row.date, rows)),
        None => None,
    }
}

fn held_among(standing: &Standing, held: &Held, date: i64, rows: &[Row]) -> Bound
    ensures { result ≡ until_with held.now.end (least_by (later_bound (clashes standing.now.present held.now) date) rows.now) }
{
    match held.end {
        Some(end) => Bound::Finite(end),
        None => first_among(standing, held, date, rows),
    }
}

// The first of the dates behind this one on which a row is of a token that contradicts this one.
fn first_among(standing: &Standing, held: &Held, date: i64, rows: &[Row]) -> Bound
    ensures { result ≡ least_by (later_bound (clashes standing.now.present held.now) date) rows.now }
{
    let mut first = Bound::Free;
    for row in rows {
        first = first.lesser(date_if(standing, held, date, row));
    }
    first
}

// The date of a row behind this one that is of a token which contradicts this one.
fn date_if(standing: &Standing, held: &Held, date: i64, row: &Row) -> Bound
    ensures { result ≡ later_bound (clashes standing.now.present held.now) date row.now }
{
    match row.held {
        Some(other) => bound_if(date < row.date && clashes(standing, held, &other), row.date),
        None => Bound::Free,
    }
}

fn bound_if(test: bool, date: i64) -> Bound
    ensures { result ≡ bound_if test date }
{
    if test {
        Bound::Finite(date)
    } else {
        Bound::Free
    }
}

/// Notes the tokens among the rows.
pub(crate) fn note_all(coming: &mut Vec<Coming>, rows: &[Row]) -> Result<(), NoMemory>
    ensures { OnOk result ((q : Held → Bool) → least_by (coming_bound q) coming.new.items ≡ lesser (least_by (row_bound q) rows.now) (least_by (coming_bound q) coming.old.items)) }
{
    for row in rows {
        note_row(coming, row)?;
    }
    Ok(())
}

// Notes the token of a row, if it is of one.
fn note_row(coming: &mut Vec<Coming>, row: &Row) -> Result<(), NoMemory>
    ensures { OnOk result ((q : Held → Bool) → least_by (coming_bound q) coming.new.items ≡ lesser (row_bound q row.now) (least_by (coming_bound q) coming.old.items)) }
{
    match row.held {
        Some(held) => note(coming, &held, row.date),
        None => Ok(()),
    }
}

// Notes that a token comes on a date.
fn note(coming: &mut Vec<Coming>, held: &Held, date: i64) -> Result<(), NoMemory>
    ensures { OnOk result ((q : Held → Bool) → least_by (coming_bound q) coming.new.items ≡ lesser (bound_if (q held.now) date) (least_by (coming_bound q) coming.old.items)) }
{
    match place_of(coming.as_slice(), held) {
        Some(place) => {
            coming[place] = noted(coming[place], date);
            Ok(())
        }
        None => {
            coming.push(first_of(*held, date))?;
            Ok(())
        }
    }
}

// A token that comes for the first time.
fn first_of(held: Held, date: i64) -> Coming
    ensures held { result.held ≡ held }
    ensures date { result.date ≡ date }
{
    Coming { held, date }
}

// A token that comes on this date too.
fn noted(next: Coming, date: i64) -> Coming
    ensures held { result.held ≡ next.held }
    ensures date { result.date ≡ int_min next.date date }
{
    Coming {
        held: next.held,
        date: if date < next.date { date } else { next.date },
    }
}

// Where the token stands among these.
fn place_of(coming: &[Coming], held: &Held) -> Option<usize>
    ensures within { IfSome result (λ place. place < length coming.now) }
    ensures is { IfSome result (λ place. (d : Coming) → (slice_index_or coming.now place d).held ≡ held.now) }
{
    for place in 0..coming.len() {
        if is_same(&coming[place].held, held) {
            return Some(place);
        }
    }
    None
}
