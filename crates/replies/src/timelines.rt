// The reply to `timeline`.
ghost use Rattle.std.specs.Prelude.{◌≡◌, ◌++◌, ◌∷◌, [], length, codes, decimal, IfOk, OnOk};
ghost use Rattle.std.specs.List.{flat_map};
ghost use Rattle.tmm_model.specs.Replies.{head_line, line_of};
ghost use Rattle.replies.specs.Timelines.{timeline_text, point_line, dated_line, until_words};

use crate::words::{begun, put_bound, put_count, put_number, put_occ, put_point};
use std::alloc::Global;
use tmm_model::{Dated, NoMemory, PointDate, Seq, Timeline};

/// The reply to `timeline`: how many points and how many occurrences there are, a line for each
/// point with its date, and a line for each occurrence with its date and, for a token, when it
/// ends, in whole time units, `*` where it lasts.
pub fn reply_timeline(alloc: Global, line: u64, timeline: &Timeline) -> Result<Seq<u8>, NoMemory>
    ensures { IfOk result (λ bytes. bytes.items ≡ timeline_text line timeline.now) }
{
    let points = timeline.points.items();
    let rows = timeline.rows.items();
    let mut out = timeline_begun(alloc, line, points.len(), rows.len())?;
    put_points(&mut out, points)?;
    put_rows(&mut out, rows)?;
    Ok(out)
}

// How many points and occurrences there are.
fn timeline_begun(alloc: Global, line: u64, points: usize, rows: usize) -> Result<Seq<u8>, NoMemory>
    ensures { IfOk result (λ out. out.items ≡ head_line line (codes "timeline" ∷ decimal points ∷ decimal rows ∷ [])) }
{
    let mut out = begun(alloc, line, b"timeline ")?;
    put_count(&mut out, points as u64)?;
    out.extend(b" ")?;
    put_count(&mut out, rows as u64)?;
    out.extend(b"\n")?;
    Ok(out)
}

fn put_points(out: &mut Seq<u8>, points: &[PointDate]) -> Result<(), NoMemory>
    ensures { OnOk result (out.new.items ≡ out.old.items ++ flat_map point_line points.now) }
{
    for point in points {
        put_point_date(out, point)?;
    }
    Ok(())
}

fn put_point_date(out: &mut Seq<u8>, point: &PointDate) -> Result<(), NoMemory>
    ensures { OnOk result (out.new.items ≡ out.old.items ++ point_line point.now) }
{
    out.extend(b"  at ")?;
    put_point(out, &point.point)?;
    out.extend(b" ")?;
    put_number(out, point.date)?;
    out.extend(b"\n")
}

fn put_rows(out: &mut Seq<u8>, rows: &[Dated]) -> Result<(), NoMemory>
    ensures { OnOk result (out.new.items ≡ out.old.items ++ flat_map dated_line rows.now) }
{
    for row in rows {
        put_dated(out, row)?;
    }
    Ok(())
}

fn put_dated(out: &mut Seq<u8>, row: &Dated) -> Result<(), NoMemory>
    ensures { OnOk result (out.new.items ≡ out.old.items ++ dated_line row.now) }
{
    out.extend(b"  ")?;
    put_number(out, row.date)?;
    out.extend(b" ")?;
    put_occ(out, &row.occ)?;
    out.extend(b" ")?;
    put_what(out, row)
}

// The kind or fact of an occurrence, when a token ends, and the line's end.
fn put_what(out: &mut Seq<u8>, row: &Dated) -> Result<(), NoMemory>
    ensures { OnOk result (out.new.items ≡ out.old.items ++ line_of [] (row.now.what ∷ until_words row.now.until)) }
{
    out.extend(row.what.bytes())?;
    if let Some(until) = row.until {
        out.extend(b" ")?;
        put_bound(out, until)?;
    }
    out.extend(b"\n")
}
