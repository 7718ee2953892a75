// Reports once more.
ghost use Rattle.std.specs.Prelude.{◌≡◌, map, IfOk};
ghost use Rattle.tmm_model.specs.Answers.{report_of, finding_of, blame_of, fault_of};
ghost use Rattle.tmm_model.specs.Moments.{moment_of};

use crate::lists::push;
use std::alloc::Global;
use tmm_model::{Answer, Blame, Cause, NoMemory, Occ, Report, Seq};

/// The same reports once more.
pub fn copied(alloc: Global, reports: &[Report]) -> Result<Seq<Report>, NoMemory>
    ensures { IfOk result (λ copies. map report_of copies.items ≡ map report_of reports.now) }
{
    let mut copies = Seq::make(alloc);
    for report in reports {
        push(&mut copies, copy(alloc, report)?)?;
    }
    Ok(copies)
}

// The same report once more.
pub(crate) fn copy(alloc: Global, report: &Report) -> Result<Report, NoMemory>
    ensures { IfOk result (λ copy. report_of copy ≡ report_of report.now) }
{
    Ok(Report {
        name: report.name,
        answer: copy_answer(alloc, &report.answer)?,
    })
}

fn copy_answer(alloc: Global, answer: &Answer) -> Result<Answer, NoMemory>
    ensures { IfOk result (λ copy. finding_of copy ≡ finding_of answer.now) }
{
    match answer {
        Answer::Yes(token) => Ok(Answer::Yes(copy_occ(alloc, token)?)),
        Answer::No { blames, more } => Ok(Answer::No {
            blames: copy_blames(alloc, blames.items())?,
            more: *more,
        }),
        Answer::Unordered => Ok(Answer::Unordered),
    }
}

fn copy_blames(alloc: Global, blames: &[Blame]) -> Result<Seq<Blame>, NoMemory>
    ensures { IfOk result (λ copies. map blame_of copies.items ≡ map blame_of blames.now) }
{
    let mut copies = Seq::make(alloc);
    for blame in blames {
        push(&mut copies, copy_blame(alloc, blame)?)?;
    }
    Ok(copies)
}

fn copy_blame(alloc: Global, blame: &Blame) -> Result<Blame, NoMemory>
    ensures { IfOk result (λ copy. blame_of copy ≡ blame_of blame.now) }
{
    let cause = copy_cause(alloc, &blame.cause)?;
    Ok(Blame {
        token: copy_occ(alloc, &blame.token)?,
        cause,
    })
}

fn copy_cause(alloc: Global, cause: &Cause) -> Result<Cause, NoMemory>
    ensures { IfOk result (λ copy. fault_of copy ≡ fault_of cause.now) }
{
    match cause {
        Cause::Late => Ok(Cause::Late),
        Cause::Clipped(by) => Ok(Cause::Clipped(copy_occ(alloc, by)?)),
        Cause::Ends => Ok(Cause::Ends),
    }
}

fn copy_occ(alloc: Global, occ: &Occ) -> Result<Occ, NoMemory>
    ensures { IfOk result (λ copy. moment_of copy ≡ moment_of occ.now) }
{
    occ.copy(alloc)
}
