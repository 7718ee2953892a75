// Detail lines of a reply, each appended to its bytes.
ghost use Rattle.std.specs.Prelude.{◌≡◌, ◌++◌, OnOk, List, ℕ, [], ◌∷◌};
ghost use Rattle.std.specs.Fmt.{signed_decimal};
ghost use Rattle.std.specs.List.{flat_map};
ghost use Rattle.tmm_model.specs.Points.{point_word};
ghost use Rattle.tmm_model.specs.Replies.{line_of, clip_words, step_line, step_lines, blame_line, blame_lines, more_line, report_lines, name_line, occ_line, clip_line, change_lines, why_lines, row_line};

use crate::words::{put_count, put_number, put_occ, put_point, put_query, put_side};
use tmm_model::{
    Answer, Blame, Cause, Changes, Clip, ListRow, Name, NoMemory, Occ, Report, Seq, WalkStep,
    WhyLine,
};

fn put_step(out: &mut Seq<u8>, indent: &[u8], step: &WalkStep) -> Result<(), NoMemory>
    ensures { OnOk result (out.new.items ≡ out.old.items ++ step_line indent.now step.now) }
{
    out.extend(indent)?;
    out.extend(step.premise.bytes())?;
    out.extend(b" ")?;
    put_side(out, step.side)?;
    out.extend(b" ")?;
    put_constraint(out, step)
}

// The points and the weight of a step, and the line's end.
fn put_constraint(out: &mut Seq<u8>, step: &WalkStep) -> Result<(), NoMemory>
    ensures { OnOk result (out.new.items ≡ out.old.items ++ line_of [] (point_word step.now.from ∷ point_word step.now.to ∷ signed_decimal step.now.weight ∷ [])) }
{
    put_point(out, &step.from)?;
    out.extend(b" ")?;
    put_point(out, &step.to)?;
    out.extend(b" ")?;
    put_number(out, step.weight)?;
    out.extend(b"\n")
}

/// Appends a line for each step.
pub fn put_steps(out: &mut Seq<u8>, indent: &[u8], steps: &[WalkStep]) -> Result<(), NoMemory>
    ensures { OnOk result (out.new.items ≡ out.old.items ++ step_lines indent.now steps.now) }
{
    for step in steps {
        put_step(out, indent, step)?;
    }
    Ok(())
}

fn put_blame(out: &mut Seq<u8>, indent: &[u8], blame: &Blame) -> Result<(), NoMemory>
    ensures { OnOk result (out.new.items ≡ out.old.items ++ blame_line indent.now blame.now) }
{
    out.extend(indent)?;
    put_occ(out, &blame.token)?;
    match &blame.cause {
        Cause::Late => out.extend(b" late\n"),
        Cause::Clipped(by) => {
            out.extend(b" clipped ")?;
            put_occ(out, by)?;
            out.extend(b"\n")
        }
        Cause::Ends => out.extend(b" ends\n"),
    }
}

fn put_more(out: &mut Seq<u8>, indent: &[u8], more: u64) -> Result<(), NoMemory>
    ensures { OnOk result (out.new.items ≡ out.old.items ++ more_line indent.now more) }
{
    if more == 0 {
        return Ok(());
    }
    out.extend(indent)?;
    out.extend(b"and ")?;
    put_count(out, more)?;
    out.extend(b" more\n")
}

/// Appends a line for each blame, and how many more there are.
pub fn put_blames(out: &mut Seq<u8>, indent: &[u8], answer: &Answer) -> Result<(), NoMemory>
    ensures { OnOk result (out.new.items ≡ out.old.items ++ blame_lines indent.now answer.now) }
{
    match answer {
        Answer::No { blames, more } => {
            for blame in blames.items() {
                put_blame(out, indent, blame)?;
            }
            put_more(out, indent, *more)
        }
        Answer::Yes(_) | Answer::Unordered => Ok(()),
    }
}

fn put_report(out: &mut Seq<u8>, report: &Report) -> Result<(), NoMemory>
    ensures { OnOk result (out.new.items ≡ out.old.items ++ report_lines report.now) }
{
    out.extend(b"  broken ")?;
    out.extend(report.name.bytes())?;
    if let Answer::Unordered = report.answer {
        return out.extend(b" unordered\n");
    }
    out.extend(b"\n")?;
    put_blames(out, b"    ", &report.answer)
}

/// Appends each broken protection with its blames.
pub fn put_reports(out: &mut Seq<u8>, reports: &[Report]) -> Result<(), NoMemory>
    ensures { OnOk result (out.new.items ≡ out.old.items ++ flat_map report_lines reports.now) }
{
    for report in reports {
        put_report(out, report)?;
    }
    Ok(())
}

fn put_names(out: &mut Seq<u8>, word: &[u8], names: &[Name]) -> Result<(), NoMemory>
    ensures { OnOk result (out.new.items ≡ out.old.items ++ flat_map (name_line word.now) names.now) }
{
    for name in names {
        out.extend(b"  ")?;
        out.extend(word)?;
        out.extend(b" ")?;
        out.extend(name.bytes())?;
        out.extend(b"\n")?;
    }
    Ok(())
}

fn put_occs(out: &mut Seq<u8>, word: &[u8], occs: &[Occ]) -> Result<(), NoMemory>
    ensures { OnOk result (out.new.items ≡ out.old.items ++ flat_map (occ_line word.now) occs.now) }
{
    for occ in occs {
        out.extend(b"  ")?;
        out.extend(word)?;
        out.extend(b" ")?;
        put_occ(out, occ)?;
        out.extend(b"\n")?;
    }
    Ok(())
}

fn put_clips(out: &mut Seq<u8>, clips: &[Clip]) -> Result<(), NoMemory>
    ensures { OnOk result (out.new.items ≡ out.old.items ++ flat_map clip_line clips.now) }
{
    for clip in clips {
        out.extend(b"  clip ")?;
        put_occ(out, &clip.token)?;
        out.extend(b" by ")?;
        put_occ(out, &clip.by)?;
        out.extend(b"\n")?;
    }
    Ok(())
}

/// Appends a line for each change.
pub fn put_changes(out: &mut Seq<u8>, changes: &Changes) -> Result<(), NoMemory>
    ensures { OnOk result (out.new.items ≡ out.old.items ++ change_lines changes.now) }
{
    put_names(out, b"erased", changes.erased.items())?;
    put_occs(out, b"out", changes.left.items())?;
    put_occs(out, b"in", changes.entered.items())?;
    put_occs(out, b"loose", changes.loose.items())?;
    put_clips(out, changes.clips.items())?;
    put_reports(out, changes.broken.items())?;
    put_names(out, b"mended", changes.mended.items())
}

/// Appends the line of a believed occurrence.
pub fn put_row(out: &mut Seq<u8>, row: &ListRow) -> Result<(), NoMemory>
    ensures { OnOk result (out.new.items ≡ out.old.items ++ row_line row.now) }
{
    out.extend(b"  ")?;
    put_number(out, row.early)?;
    out.extend(b" ")?;
    put_occ(out, &row.occ)?;
    out.extend(b" ")?;
    put_what(out, row)
}

// The kind or fact of an occurrence, what clips it, where something does, and the line's end.
fn put_what(out: &mut Seq<u8>, row: &ListRow) -> Result<(), NoMemory>
    ensures { OnOk result (out.new.items ≡ out.old.items ++ line_of [] (row.now.what ∷ clip_words row.now.clip)) }
{
    out.extend(row.what.bytes())?;
    if let Some(by) = &row.clip {
        out.extend(b" clip ")?;
        put_occ(out, by)?;
    }
    out.extend(b"\n")
}
