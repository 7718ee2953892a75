// Which protections an edit breaks or mends.
ghost use Rattle.std.specs.Prelude.{◌≡◌, map, IfOk};
ghost use Rattle.std.specs.List.{list_any};
ghost use Rattle.std.specs.Option.{option_map};
ghost use Rattle.tmm_model.specs.Answers.{reports, report_of};
ghost use Rattle.tmm_model.specs.Changes.{delta};
ghost use Rattle.tmm_model.specs.Maps.{TimeMap};
ghost use Rattle.tmm_model.specs.Points.{same_name};
ghost use Rattle.protections.specs.Reported.{newly_broken, new_of, mended, mended_of, is_mended, name_if};

use crate::copies::copy;
use crate::lists::push_some;
use premise_list::Standing;
use std::alloc::Global;
use tmm_model::{Name, NoMemory, Premise, Report, Seq};

/// The protections that are newly broken, in the order of their reports, and the names of those
/// that stand and are broken no longer, in the order of premises.
pub fn delta(
    alloc: Global,
    before: &[Report],
    after: &[Report],
    standing: &Standing,
) -> Result<(Seq<Report>, Seq<Name>), NoMemory>
    ensures broken { IfOk result (λ found. map report_of found.0.items ≡ newly_broken (map report_of before.now) (map report_of after.now)) }
    ensures mended { IfOk result (λ found. found.1.items ≡ mended (map report_of before.now) (map report_of after.now) standing.now.present.premises) }
    ensures delta { (old new : TimeMap) → map report_of before.now ≡ reports old → map report_of after.now ≡ reports new → new.list ≡ standing.now.present
        → IfOk result (λ found. (map report_of found.0.items ≡ (delta old new).broken) × (found.1.items ≡ (delta old new).mended)) }
{
    let broken = newly_broken(alloc, before, after)?;
    let mended = mended(alloc, before, after, standing)?;
    Ok((broken, mended))
}

fn newly_broken(alloc: Global, before: &[Report], after: &[Report]) -> Result<Seq<Report>, NoMemory>
    ensures { IfOk result (λ found. map report_of found.items ≡ newly_broken (map report_of before.now) (map report_of after.now)) }
{
    let mut found = Seq::make(alloc);
    for report in after {
        push_some(&mut found, new_report(alloc, before, report)?)?;
    }
    Ok(found)
}

// The report, where it is of none that was broken before.
fn new_report(alloc: Global, before: &[Report], report: &Report) -> Result<Option<Report>, NoMemory>
    ensures { IfOk result (λ found. option_map report_of found ≡ new_of (map report_of before.now) (report_of report.now)) }
{
    if is_reported(before, report.name) {
        return Ok(None);
    }
    match copy(alloc, report) {
        Ok(copy) => Ok(Some(copy)),
        Err(_) => Err(NoMemory),
    }
}

fn mended(
    alloc: Global,
    before: &[Report],
    after: &[Report],
    standing: &Standing,
) -> Result<Seq<Name>, NoMemory>
    ensures { IfOk result (λ found. found.items ≡ mended (map report_of before.now) (map report_of after.now) standing.now.present.premises) }
{
    let mut found = Seq::make(alloc);
    for i in 0..standing.len() {
        match standing.at(i) {
            Some(premise) => push_some(&mut found, mended_name(before, after, premise))?,
            None => unreachable!(),
        }
    }
    Ok(found)
}

// The name of a protection that is broken no longer.
fn mended_name(before: &[Report], after: &[Report], premise: &Premise) -> Option<Name>
    ensures { result ≡ mended_of (map report_of before.now) (map report_of after.now) premise.now }
{
    match premise {
        Premise::Protect { name, .. } => name_if(is_mended(before, after, *name), *name),
        _ => None,
    }
}

fn name_if(holds: bool, name: Name) -> Option<Name>
    ensures { result ≡ name_if holds name }
{
    if holds { Some(name) } else { None }
}

fn is_mended(before: &[Report], after: &[Report], name: Name) -> bool
    ensures { result ≡ is_mended (map report_of before.now) (map report_of after.now) name }
{
    is_reported(before, name) && !is_reported(after, name)
}

fn is_reported(reports: &[Report], name: Name) -> bool
    ensures { result ≡ list_any (λ report. same_name report.name name) reports.now }
{
    reports.iter().any(|report| report.name == name)
}
