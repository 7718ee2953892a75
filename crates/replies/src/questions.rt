// Replies to questions.
ghost use Rattle.std.specs.Prelude.{◌≡◌, IfOk};
ghost use Rattle.replies.specs.Number.{number_reply};
ghost use Rattle.tmm_model.specs.Replies.{text_of, BoundsAre, PathIs, Answered, Reasons, BrokenAre, Believed};

use crate::details::{put_blames, put_reports, put_row, put_steps};
use crate::reasons::put_reason;
use crate::words::{begun, put_bound, put_count, put_occ};
use std::alloc::Global;
use tmm_model::{Answer, Bound, ListRow, NoMemory, Report, Seq, WalkStep, WhyLine};

/// The reply to `bounds`: the lower and the upper bound, in whole time units, `*` for none.
pub fn reply_bounds(alloc: Global, line: u64, lo: Bound, hi: Bound) -> Result<Seq<u8>, NoMemory>
    ensures { IfOk result (λ bytes. bytes.items ≡ text_of line (BoundsAre lo hi)) }
{
    let mut out = begun(alloc, line, b"bounds ")?;
    put_bound(&mut out, lo)?;
    out.extend(b" ")?;
    put_bound(&mut out, hi)?;
    out.extend(b"\n")?;
    Ok(out)
}

/// The reply to `path`: the upper bound, and a line for each step of a walk that gives it.
pub fn reply_path(
    alloc: Global,
    line: u64,
    far: Bound,
    steps: &[WalkStep],
) -> Result<Seq<u8>, NoMemory>
    ensures { IfOk result (λ bytes. bytes.items ≡ text_of line (PathIs far steps.now)) }
{
    let mut out = begun(alloc, line, b"path ")?;
    put_bound(&mut out, far)?;
    out.extend(b"\n")?;
    put_steps(&mut out, b"  ", steps)?;
    Ok(out)
}

/// The reply to `ask`: `yes` and the token that supports the fact, or `no` and the blames. Points
/// without order are answered by the refusal `no unordered`.
pub fn reply_answer(alloc: Global, line: u64, answer: &Answer) -> Result<Seq<u8>, NoMemory>
    ensures { IfOk result (λ bytes. bytes.items ≡ text_of line (Answered answer.now)) }
{
    match answer {
        Answer::Yes(token) => {
            let mut out = begun(alloc, line, b"yes ")?;
            put_occ(&mut out, token)?;
            out.extend(b"\n")?;
            Ok(out)
        }
        Answer::No { .. } => {
            let mut out = begun(alloc, line, b"no\n")?;
            put_blames(&mut out, b"  ", answer)?;
            Ok(out)
        }
        Answer::Unordered => begun(alloc, line, b"no unordered\n"),
    }
}

/// The reply to `why`: the reasons of a belief. With no lines it is the first line of such a reply,
/// to which `put_reason` appends.
pub fn reply_why(alloc: Global, line: u64, lines: &[WhyLine]) -> Result<Seq<u8>, NoMemory>
    ensures { IfOk result (λ bytes. bytes.items ≡ text_of line (Reasons lines.now)) }
{
    let mut out = begun(alloc, line, b"why\n")?;
    for reason in lines {
        put_reason(&mut out, reason)?;
    }
    Ok(out)
}

/// The reply to `check`: how many protections are broken, and each of them with its blames.
pub fn reply_check(alloc: Global, line: u64, reports: &[Report]) -> Result<Seq<u8>, NoMemory>
    ensures { IfOk result (λ bytes. bytes.items ≡ text_of line (BrokenAre reports.now)) }
{
    let mut out = begun(alloc, line, b"check ")?;
    put_count(&mut out, reports.len() as u64)?;
    out.extend(b"\n")?;
    put_reports(&mut out, reports)?;
    Ok(out)
}

/// The reply to `list`: how many occurrences are believed, and a line for each.
pub fn reply_list(alloc: Global, line: u64, rows: &[ListRow]) -> Result<Seq<u8>, NoMemory>
    ensures { IfOk result (λ bytes. bytes.items ≡ text_of line (Believed rows.now)) }
{
    let mut out = begun(alloc, line, b"list ")?;
    put_count(&mut out, rows.len() as u64)?;
    out.extend(b"\n")?;
    for row in rows {
        put_row(&mut out, row)?;
    }
    Ok(out)
}

/// What a reply of one number tells.
#[derive(Clone, Copy, PartialEq, Eq, Debug)]
pub enum Word {
    /// The size of the map.
    Size,
    /// The kept beliefs are right; the number is 1.
    Audit,
}

/// The reply to `size`, or to `audit` where the kept beliefs are right.
pub fn reply_number(alloc: Global, line: u64, word: Word, n: u64) -> Result<Seq<u8>, NoMemory>
    requires { word ≡ Word.Audit → n ≡ 1 }
    ensures { IfOk result (λ bytes. bytes.items ≡ text_of line (number_reply word n)) }
{
    match word {
        Word::Size => {
            let mut out = begun(alloc, line, b"size ")?;
            put_count(&mut out, n)?;
            out.extend(b"\n")?;
            Ok(out)
        }
        Word::Audit => begun(alloc, line, b"audit yes\n"),
    }
}
